//! Names and types in pages: ranges, repetitions, and the groups of names that a book holds.
#![tactic(auto)]

ghost use Rattle.names.specs.Names.{fresh, is_bare_name, is_name, is_type};
ghost use Rattle.language.specs.Expressions.{has};
ghost use Rattle.language.specs.Lists.{member};
ghost use Rattle.names.specs.NameGroups.{names_in};
ghost use Rattle.page.specs.Pages.{paired};
ghost use Rattle.records.specs.Book.{declared_as, values};
ghost use Rattle.records.specs.Held.{book_of};
ghost use Rattle.std.specs.List.{prefix_len};
ghost use Rattle.std.specs.Prelude.{◌≡◌, ◌||◌, []};

use records::lists::{DeclarationKind, HeldBook};

/// Is this number a name?
pub fn is_name(number: u32) -> bool
    ensures { result ≡ is_name number }
{
    matches!(number, 1..=65535)
}

/// Is this number a type?
fn is_type(number: u32) -> bool
    ensures { result ≡ is_type number }
{
    matches!(number, 1..=4)
}

/// How many of these numbers come before the first that is no name.
// A count and no `Option` of an index, here and below: it is std's `prefix_len` (for names that differ, `fresh`), by which
// the rules are said.
pub fn leading_names(numbers: &[u32]) -> usize
    ensures { result ≡ prefix_len is_name numbers.now }
{
    numbers.iter().take_while(|n| is_name(**n)).count()
}

/// How many of these numbers come before the first that is no type.
pub fn leading_types(numbers: &[u32]) -> usize
    ensures { result ≡ prefix_len is_type numbers.now }
{
    numbers.iter().take_while(|n| is_type(**n)).count()
}

/// Is this entry a name with 0 on the right?
fn is_bare_name(left: u32, right: u32) -> bool
    ensures { result ≡ is_bare_name (record { left = left; right = right }) }
{
    is_name(left) && right == 0
}

/// How many of these entries come before the first that is no name with 0 on the right.
// Two slices and no page: what is asked about need not be a page that was read.
pub fn leading_bare_names(left: &[u32], right: &[u32]) -> usize
    ensures { result ≡ prefix_len is_bare_name (paired left.now right.now) }
{
    left.iter()
        .zip(right)
        .take_while(|(left, right)| is_bare_name(**left, **right))
        .count()
}

/// Is this number among these?
fn is_member(numbers: &[u32], number: u32) -> bool
    ensures { result ≡ member number numbers.now }
{
    numbers.contains(&number)
}

/// Some names of a book.
// An enum and no closure, since contracts name its cases: of a closure they could state only what each call answers.
#[derive(Clone, Copy)]
pub enum NameGroup {
    Nothing,
    Globals,
    /// Constants and globals.
    Values,
    /// Those in the modifies clauses of the procedure of that number.
    ModifiedBy(usize),
}

/// Is there a constant, or a global, of that name?
// The book is a parameter, here and below: nothing holds a book and a name, and a group is the same whatever the book.
fn is_declared(book: &HeldBook, kind: DeclarationKind, name: u32) -> bool
    ensures { result ≡ has name (declared_as kind (book_of book.now).declarations) }
{
    book.find_declared(kind, name).is_some()
}

/// Is this a constant or a global?
#[tactic(auto, using(crate::proofs::Leads::has_append))]
fn is_value(book: &HeldBook, name: u32) -> bool
    ensures { result ≡ has name (values (book_of book.now)) }
{
    is_declared(book, DeclarationKind::Globals, name)
        || is_declared(book, DeclarationKind::Constants, name)
}

impl NameGroup {
    /// Is this one of them?
    fn has(self, book: &HeldBook, name: u32) -> bool
        ensures { result ≡ has name (names_in self book.now) }
    {
        match self {
            NameGroup::Nothing => false,
            NameGroup::Globals => is_declared(book, DeclarationKind::Globals, name),
            NameGroup::Values => is_value(book, name),
            NameGroup::ModifiedBy(procedure) => book.is_modified(procedure, name),
        }
    }

    /// How many of these come before the first that is none of the group's names.
    pub fn leading_members(self, book: &HeldBook, names: &[u32]) -> usize
        ensures { result ≡ prefix_len (λ n. has n (names_in self book.now)) names.now }
    {
        names.iter().take_while(|n| self.has(book, **n)).count()
    }

    /// Is this one of the group's names, or among those before it?
    fn repeats(self, book: &HeldBook, before: &[u32], name: u32) -> bool
        ensures { result ≡ (has name (names_in self book.now) || member name before.now) }
    {
        self.has(book, name) || is_member(before, name)
    }

    /// How many of these come before the first that is one of the group's names, or that stands among those before it.
    // A search by hand, since each name is compared with those before it.
    #[tactic(auto, using(crate::proofs::Leads::fresh_stops, crate::proofs::Leads::fresh_goes, crate::proofs::Leads::fresh_ends))]
    pub fn leading_fresh(self, book: &HeldBook, names: &[u32]) -> usize
        ensures { result ≡ fresh (names_in self book.now) [] names.now }
    {
        for (i, name) in names.iter().enumerate() {
            if self.repeats(book, &names[..i], *name) {
                return i;
            }
        }
        names.len()
    }
}
