//! A term list made and read.
ghost use Rattle.std.specs.Prelude.{◌≡◌, option_map, take};
ghost use Rattle.terms.specs.Held.{operands_at, term_at};
ghost use Rattle.terms.specs.Steps.{held};

use crate::{Term, Terms};
use world::Carrier;

impl<'a, C: Carrier + Drop> Terms<'a, C> {
    /// A term list with no entries, over these records and places.
    pub fn new(records: &'a mut [Term], places: &'a mut [u32], carrier: C) -> Terms<'a, C>
        ensures held { held result ≡ record { records = records.old; places = places.old; used = 0; placed = 0 } }
        ensures lent { (result.records.ghost_name ≡ records.entry.ghost_name) × (result.places.ghost_name ≡ places.entry.ghost_name) }
    {
        Terms {
            records,
            places,
            used: 0,
            placed: 0,
            carrier,
        }
    }

    /// The entries in their order.
    fn entries(&self) -> &[Term]
        ensures { result.now ≡ take self.now.used self.now.records.now }
    {
        &self.records[..self.used as usize]
    }

    /// The entry of that number, if there is one.
    pub fn term(&self, entry: u32) -> Option<Term>
        ensures { result ≡ term_at (held self.now) entry }
    {
        self.entries().get(entry as usize).copied()
    }

    /// The operands of the entry of that number, if there is one.
    pub fn operands_of(&self, entry: u32) -> Option<&[u32]>
        ensures { option_map (λ r. r.now) result ≡ operands_at (held self.now) entry }
    {
        let term = self.entries().get(entry as usize)?;
        let first = term.first as usize;
        Some(&self.places[first..first + term.count as usize])
    }
}
