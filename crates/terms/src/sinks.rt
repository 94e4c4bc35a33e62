//! A term list as a sink.
ghost use Rattle.std.specs.Prelude.{◌≡◌, true};
ghost use Rattle.terms.specs.Lawful.{term_lawful};
ghost use Rattle.terms.specs.Held.{left, spare_of, value_of};
ghost use Rattle.terms.specs.Steps.{held, Steps};

use crate::suited::suited;
use crate::{Term, Terms};
use sink::{Cause, Sink};
use world::Carrier;

/// How many of so many, counted up to 4,294,967,295, are free where the first ones are used.
fn left_of(room: usize, used: u32) -> u32
    ensures { result ≡ left room used }
{
    u32::try_from(room).unwrap_or(u32::MAX).saturating_sub(used)
}

impl<'a, C: Carrier + Drop> Terms<'a, C> {
    /// The lesser of the free records and a sixteenth of the free places.
    fn spare(&self) -> u32
        ensures { result ≡ spare_of (held self.now) }
    {
        let records = left_of(self.records.len(), self.used);
        let places = left_of(self.places.len(), self.placed);
        records.min(places / 16)
    }
}

/// It watches every reading, takes every code and answers a new entry each time.
impl<'a, C: Carrier + Drop> Sink for Terms<'a, C> {
    ghost Value = { C.Carrier.Value };

    ghost watches = { λ _ _. Unit {0} };

    ghost entries = { λ s. s.used };

    ghost value = { λ s q k. value_of (held s) q k };

    ghost takes = { λ _ _. true };

    ghost spare = { λ s. spare_of (held s) };

    ghost steps = { λ s t a z. Steps s t a z };

    ghost lawful = { term_lawful C.Carrier.Value };

    fn tell(&mut self, code: u32, argument: u32, operands: &[u32]) -> Result<u32, Cause> {
        if !suited(self.used, code, operands) {
            return Err(Cause::Operands);
        }
        if self.spare() == 0 {
            return Err(Cause::Full);
        }
        let entry = self.used;
        let first = self.placed;
        let count = operands.len() as u32;
        let end = first + count;
        self.places[first as usize..end as usize].copy_from_slice(operands);
        self.records[entry as usize] = Term {
            code,
            argument,
            first,
            count,
        };
        self.placed = end;
        self.used = entry + 1;
        Ok(entry)
    }

    fn size(&self) -> u32 {
        self.used
    }

    fn accepts(&self, _code: u32) -> bool {
        true
    }
}
