ghost use Rattle.expression.specs.Scopes.{scope_of, values_in};
ghost use Rattle.language.specs.Expressions.{type_of};
ghost use Rattle.records.specs.Book.{globals};
ghost use Rattle.records.specs.Held.{book_of};
ghost use Rattle.std.specs.Prelude.{◌≡◌, cond, []};

use language::ValueType;
use page::Entry;
use records::find::find_type;
use records::lists::{DeclarationKind, HeldBook};

/// What names mean in a place: locals, then parameters, then globals where they may be used, then constants.
// Two bools and no enum of three cases: callers may set either without the other, and names have a meaning then too.
#[derive(Clone, Copy)]
pub struct Scope<'a> {
    pub book: HeldBook<'a>,
    pub locals: &'a [Entry],
    pub parameters: &'a [Entry],
    /// May globals be used?
    pub globals: bool,
    /// May `old` stand here?
    pub olds: bool,
}

impl Scope<'_> {
    /// The type of the global or the constant of that name.
    // A match and no `or_else`, here and for the last look-up of `find`: with a closure that looks into the book the proof
    // did not close.
    #[tactic(auto, using(crate::proofs::Scoped::found_first, crate::proofs::Scoped::found_later))]
    fn find_value(&self, name: u32) -> Option<ValueType>
        ensures { result ≡ type_of name (values_in self.now) }
    {
        match self.find_global(name) {
            None => self.book.find_declared(DeclarationKind::Constants, name),
            found => found,
        }
    }

    /// The type of the global of that name, where globals may be used.
    fn find_global(&self, name: u32) -> Option<ValueType>
        ensures { result ≡ type_of name (cond self.now.globals (globals (book_of self.now.book)) []) }
    {
        if self.globals {
            self.find_old(name)
        } else {
            None
        }
    }

    /// The type of what an identifier means here.
    #[tactic(auto, using(crate::proofs::Scoped::found_first, crate::proofs::Scoped::found_later))]
    pub fn find(&self, name: u32) -> Option<ValueType>
        ensures { result ≡ type_of name (scope_of self.now).names }
    {
        match find_type(self.locals, name).or_else(|| find_type(self.parameters, name)) {
            None => self.find_value(name),
            found => found,
        }
    }

    /// The type of the global that `old` names.
    pub fn find_old(&self, name: u32) -> Option<ValueType>
        ensures { result ≡ type_of name (globals (book_of self.now.book)) }
    {
        self.book.find_declared(DeclarationKind::Globals, name)
    }
}
