ghost use Rattle.fault.specs.Refusals.{on_call, on_entry, refusal};
ghost use Rattle.std.specs.Prelude.{◌≡◌};

use crate::{Cause, Ground, Place};

/// Refuses the whole call, where a test says so.
pub fn refuse_call(test: bool, reason: Ground) -> Result<(), Cause>
    ensures { refusal result ≡ on_call test reason }
{
    if test {
        return Err(Cause::Call(reason));
    }
    Ok(())
}

/// Refuses the entry at an index, where there is one.
// An index and no `Option`: counts of leading entries come in as they are, and the length stands for none.
pub fn refuse_entry(reason: Ground, left: &[u32], index: usize) -> Result<(), Cause>
    ensures { refusal result ≡ on_entry reason left.now index }
{
    match left.get(index) {
        Some(&item) => Err(Cause::Entry(reason, Place::At { index, item })),
        None => Ok(()),
    }
}
