//! Sinks: what a formula is told to, entry by entry.
#![tactic(auto)]

ghost use Rattle.std.specs.Prelude.{◌≡◌, ℕ, Bool};
ghost use Rattle.sink.specs.Causes.{Answer, cause_number};
ghost use Rattle.sink.specs.Laws.{Told};
ghost use Rattle.world.specs.Tells.{Tell};
ghost use Rattle.world.specs.Worlds.{Reading};

/// Why a tell was refused.
#[derive(Clone, Copy, Debug, PartialEq, Eq)]
pub enum Cause {
    /// An operand is no entry, or their count is not the code's.
    Operands = 1,
    /// The sink does not take the code.
    Code = 2,
    /// The sink has no spare left.
    Full = 3,
}

/// The number by which callers know the cause.
impl From<Cause> for u32 {
    ghost from_gives = { λ cause n. n ≡ cause_number cause };

    fn from(cause: Cause) -> u32 {
        cause as u32
    }
}

/// What is told a formula: entries, numbered from 0, with a value in each reading that it watches.
pub trait Sink {
    /// The carrier of the readings.
    ghost Value: { Type 0 };
    /// Does it watch the reading?
    ghost watches: { Self → Reading Value → Type 0 };
    /// How many entries it has.
    ghost entries: { Self → ℕ };
    /// The value of an entry in a reading.
    ghost value: { Self → Reading Value → ℕ → Value };
    /// Does it take the code?
    ghost takes: { Self → ℕ → Bool };
    /// While this is not 0, no tell is refused for want of room.
    ghost spare: { Self → ℕ };
    /// A tell, its answer, and the sink before and after.
    ghost steps: { Self → Tell → Answer → Self → Type 0 };
    /// Each step keeps the laws of a sink.
    ghost lawful: { (s : Self) (t : Tell) (a : Answer) (z : Self) → steps s t a z → Told watches entries value takes spare s t a z };

    /// Tells an entry: its code, its argument and the entries that are its operands.
    // Plain numbers, as every call takes them: what a code means is the sink's to look up.
    fn tell(&mut self, code: u32, argument: u32, operands: &[u32]) -> Result<u32, Cause>
        ensures told { Told watches entries value takes spare self.old (record { code = code; argument = argument; operands = operands.now }) result self.new }
        ensures steps { steps self.old (record { code = code; argument = argument; operands = operands.now }) result self.new };

    /// The number of its entries.
    fn size(&self) -> u32
        ensures { result ≡ entries self.now };

    /// Does it take the code?
    fn accepts(&self, code: u32) -> bool
        ensures { result ≡ takes self.now code };
}
