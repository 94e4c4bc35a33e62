//! The holder of waiting values: a stack over places that the caller lends, for values of any one type.
#![tactic(auto)]

#[cfg(test)]
mod tests;

/// Values that wait, the first to come at the first place.
// The places are the caller's, since nothing here allocates: how many of them are in use stands beside them. That they are
// no more than there are is tested and no ghost field: with one beside the places, holders in an array have no proof.
#[derive(Drop)]
pub struct Holder<'a, T: Drop> {
    places: &'a mut [T],
    used: usize,
}

impl<'a, T: Copy> Holder<'a, T> {
    ghost use Rattle.holder.specs.Holding.{held, popped, pushed};
    ghost use Rattle.holder.specs.Stack.{room, waits};
    ghost use Rattle.std.specs.Prelude.{◌≡◌, ◌<◌, [], ◌∷◌, length, take, MatchOption, MatchResult};

    /// A holder in which nothing waits, with room for as many values as there are places.
    pub fn new(places: &'a mut [T]) -> Holder<'a, T>
        ensures is { held result ≡ record { places = places.old; used = 0 } }
        ensures lent { result.places.ghost_name ≡ places.entry.ghost_name }
    {
        Holder { places, used: 0 }
    }

    /// The values that wait, the first to come in front.
    fn values(&self) -> &[T]
        ensures { result.now ≡ take self.now.used self.now.places.now }
    {
        &self.places[..self.used.min(self.places.len())]
    }

    /// How many values wait.
    pub fn count(&self) -> usize
        ensures { result ≡ length (waits (held self.now)) }
    {
        self.values().len()
    }

    /// One value more, or the value back where no place is left.
    pub fn push(&mut self, value: T) -> Result<(), T>
        ensures does { record { answer = result; holding = held self.new } ≡ pushed value (held self.old) }
        ensures stacks { MatchResult result (λ _. (waits (held self.new) ≡ value ∷ waits (held self.old)) × (length (waits (held self.old)) < room (held self.old))) (λ _. (waits (held self.new) ≡ waits (held self.old)) × (length (waits (held self.old)) ≡ room (held self.old))) }
        ensures room { room (held self.new) ≡ room (held self.old) }
        ensures lent { self.new.places.ghost_name ≡ self.old.places.ghost_name }
    {
        if self.used >= self.places.len() {
            return Err(value);
        }
        self.places[self.used] = value;
        self.used += 1;
        Ok(())
    }

    /// The value that came last, taken out.
    #[tactic(auto, using(crate::proofs::Stacks::last_waits))]
    pub fn pop(&mut self) -> Option<T>
        ensures does { record { answer = result; holding = held self.new } ≡ popped (held self.old) }
        ensures stacks { MatchOption result (waits (held self.old) ≡ []) (λ x. waits (held self.old) ≡ x ∷ waits (held self.new)) }
        ensures room { room (held self.new) ≡ room (held self.old) }
        ensures lent { self.new.places.ghost_name ≡ self.old.places.ghost_name }
    {
        let value = *self.values().last()?;
        self.used = self.count() - 1;
        Some(value)
    }
}
