//! The types of the values that wait while the entries of an expression are gone through.
ghost use Rattle.holder.specs.Holding.{held};
ghost use Rattle.holder.specs.Stack.{room};
ghost use Rattle.std.specs.Prelude.{◌≡◌};

use crate::scope::Scope;
use fault::{Cause, Ground, Place};
use holder::Holder;
use language::{Operands, ValueType, result_type};
use page::Entry;

/// The types of the values that wait, of which there is room for 1,024.
#[derive(Drop)]
pub(crate) struct Waiting<'a> {
    types: Holder<'a, ValueType>,
    ghost limit: { room (held types) ≡ 1024 },
}

impl<'a> Waiting<'a> {
    ghost use Rattle.expression.specs.Scopes.{scope_of};
    ghost use Rattle.expression.specs.Waits.{outcome, waiting_in};
    ghost use Rattle.fault.specs.declared.Ground.TheVariants.{TooFewWaiting};
    ghost use Rattle.language.specs.Checking.{after_entry, at_end, leaf, on_one, on_two, waiting_for};
    ghost use Rattle.std.specs.Prelude.{◌≡◌, ◌<◌, [], ◌∷◌, length, MatchResult};

    /// Nothing waits, and the types are to lie in these places.
    pub(crate) fn new(places: &'a mut [ValueType; 1024]) -> Waiting<'a>
        ensures { waiting_in result ≡ [] }
    {
        Waiting {
            types: Holder::new(places),
        }
    }

    /// One value more waits.
    fn wait(&mut self, t: ValueType) -> Result<(), Ground>
        ensures { outcome result (waiting_in self.new) ≡ waiting_for t (waiting_in self.old) }
    {
        self.types.push(t).map_err(|_| Ground::TooManyWaiting)
    }

    /// A value of this type waits, if there is one; else the ground says why not.
    fn wait_for(&mut self, found: Option<ValueType>, reason: Ground) -> Result<(), Ground>
        ensures { outcome result (waiting_in self.new) ≡ leaf reason found (waiting_in self.old) }
    {
        self.wait(found.ok_or(reason)?)
    }

    /// The type of the value that came last, taken out.
    fn take(&mut self) -> Result<ValueType, Ground>
        ensures { MatchResult result (λ t. (waiting_in self.old ≡ t ∷ waiting_in self.new) × (length (waiting_in self.new) < 1024)) (λ reason. (waiting_in self.old ≡ []) × (reason ≡ TooFewWaiting)) }
    {
        self.types.pop().ok_or(Ground::TooFewWaiting)
    }

    /// A code of one operand.
    fn on_one(&mut self, code: u32) -> Result<(), Ground>
        ensures { outcome result (waiting_in self.new) ≡ on_one code (waiting_in self.old) }
    {
        let x = self.take()?;
        self.wait_for(result_type(code, Operands::One(x)), Ground::WrongTypes)
    }

    /// A code of two operands; the second waits in front.
    fn on_two(&mut self, code: u32) -> Result<(), Ground>
        ensures { outcome result (waiting_in self.new) ≡ on_two code (waiting_in self.old) }
    {
        let y = self.take()?;
        let x = self.take()?;
        self.wait_for(result_type(code, Operands::Two(x, y)), Ground::WrongTypes)
    }

    /// One entry of an expression.
    // Codes are the numbers that the page holds, as in `result_type`.
    pub(crate) fn check_entry(&mut self, scope: &Scope, entry: Entry) -> Result<(), Ground>
        ensures { outcome result (waiting_in self.new) ≡ after_entry (scope_of scope.now) entry (waiting_in self.old) }
    {
        match entry.left {
            4 => self.wait(ValueType::INT),
            5 => self.wait_for(scope.find(entry.right), Ground::NotUsable),
            8 if scope.olds => self.wait_for(scope.find_old(entry.right), Ground::NotUsable),
            _ if entry.right != 0 => Err(Ground::Code),
            1..=3 => self.wait_for(result_type(entry.left, Operands::None), Ground::Code),
            12..=13 => self.on_one(entry.left),
            14..=29 => self.on_two(entry.left),
            _ => Err(Ground::Code),
        }
    }

    /// The end of a page of `length` entries: one bool waits, and nothing else.
    pub(crate) fn check_end(&mut self, length: usize) -> Result<(), Cause>
        ensures { result ≡ at_end length (waiting_in self.old) }
    {
        let place = Place::End { length };
        match (self.types.pop(), self.types.pop()) {
            (None, _) => Err(Cause::Entry(Ground::TooFewWaiting, place)),
            (Some(t), _) if t != ValueType::BOOL => { Err(Cause::Entry(Ground::WrongTypes, place)) }
            (_, Some(_)) => Err(Cause::Entry(Ground::Remaining, place)),
            (Some(_), None) => Ok(()),
        }
    }
}
