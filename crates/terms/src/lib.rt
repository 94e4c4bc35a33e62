//! The term list: a sink that keeps every told entry.
#![tactic(auto)]

mod list;
mod reading;
mod sinks;
mod suited;

ghost use Rattle.std.specs.List.{All};
ghost use Rattle.std.specs.Prelude.{◌+◌, ◌≤◌, length, take};

use world::Carrier;

/// One entry: its operands are so many places from the first on.
// A count and a place, and no list of its own, since the operands of all entries lie in one lent slice.
#[derive(Clone, Copy, Debug, PartialEq, Eq)]
pub struct Term {
    pub code: u32,
    pub argument: u32,
    pub first: u32,
    pub count: u32,
}

/// A term list over lent records and operand places, of which it uses the first ones; the carrier is that of its readings.
// Nothing is allocated: lent slices have a fixed length, so that the counts of what is used stand beside them.
#[derive(Drop)]
pub struct Terms<'a, C: Carrier + Drop> {
    records: &'a mut [Term],
    places: &'a mut [u32],
    used: u32,
    placed: u32,
    carrier: C,
    ghost fit: { used ≤ length records.now },
    ghost room: { placed ≤ length places.now },
    ghost operands: { All (λ t. t.first + t.count ≤ placed) (take used records.now) },
}
