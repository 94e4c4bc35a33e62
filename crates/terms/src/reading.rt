//! What a term list is to those who read its entries.
ghost use Rattle.std.specs.Prelude.{◌≡◌, ℕ, true};
ghost use Rattle.terms.specs.Held.{spare_of, value_of};
ghost use Rattle.terms.specs.Steps.{held};
ghost use Rattle.world.specs.Worlds.{Reading};

use crate::Terms;
use sink::Sink;
use world::Carrier;

impl<'a, C: Carrier + Drop> Terms<'a, C> {
    /// Does nothing: its contract says what a term list watches and takes as a sink, and what its entries' values and
    /// its spare are.
    pub fn watched(&self)
        ensures watches { (q : Reading C.Carrier.Value) → ⟦<Terms<'a, C> as Sink>⟧.watches self.now q }
        ensures values { (q : Reading C.Carrier.Value) (k : ℕ) → ⟦<Terms<'a, C> as Sink>⟧.value self.now q k ≡ value_of (held self.now) q k }
        ensures codes { (c : ℕ) → ⟦<Terms<'a, C> as Sink>⟧.takes self.now c ≡ true }
        ensures entries { ⟦<Terms<'a, C> as Sink>⟧.entries self.now ≡ self.now.used }
        ensures spare { ⟦<Terms<'a, C> as Sink>⟧.spare self.now ≡ spare_of (held self.now) }
    {}
}
