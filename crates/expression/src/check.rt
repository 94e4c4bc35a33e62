ghost use Rattle.expression.specs.Scopes.{scope_of};
ghost use Rattle.language.specs.Checking.{checked};
ghost use Rattle.language.specs.Codes.{bool};
ghost use Rattle.language.specs.Expressions.{Postfix};
ghost use Rattle.page.specs.Pages.{paired};
ghost use Rattle.std.specs.Prelude.{◌≡◌, ◌≤◌, length, is_ok, Decides};

use crate::scope::Scope;
use crate::waiting::Waiting;
use fault::{Cause, Place};
use language::ValueType;
use page::Entry;

/// Checks that the entries of these left and right numbers are one bool expression.
// Two slices and no page: what is checked need not be a page that was read, and the shorter one says where it ends.
pub fn check_page(scope: &Scope, left: &[u32], right: &[u32]) -> Result<(), Cause>
    ensures is { result ≡ checked (scope_of scope.now) (paired left.now right.now) }
    ensures exact { length (paired left.now right.now) ≤ 1024 → Decides (is_ok result) (Postfix (scope_of scope.now) (paired left.now right.now) bool) }
{
    // An array with a place for each entry of a page, since nothing here allocates.
    let mut places = [ValueType::BOOL; 1024];
    let mut waiting = Waiting::new(&mut places);
    for (i, (code, argument)) in left.iter().zip(right).enumerate() {
        let place = Place::At {
            index: i,
            item: *code,
        };
        let entry = Entry {
            left: *code,
            right: *argument,
        };
        waiting
            .check_entry(scope, entry)
            .map_err(|ground| Cause::Entry(ground, place))?;
    }
    waiting.check_end(left.len().min(right.len()))
}
