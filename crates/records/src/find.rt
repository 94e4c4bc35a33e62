ghost use Rattle.std.specs.Prelude.{◌≡◌, ◌+◌, [], cond, length, take, drop, is_some};
ghost use Rattle.language.specs.Expressions.{type_of};
ghost use Rattle.records.specs.Book.{belongs, clauses_of, declared_as, modified, modified_by, of_kind, procedure_named};
ghost use Rattle.records.specs.Found.{numbered};
ghost use Rattle.records.specs.Held.{book_of, declared_in, stated_in};
ghost use Rattle.std.specs.Option.{option_map};

use crate::lists::{Clause, ClauseKind, Declaration, DeclarationKind, HeldBook, Procedure};
use language::ValueType;
use page::Entry;

/// The entries from `start` on, `count` of them or as many as there are.
fn part(entries: &[Entry], start: usize, count: usize) -> &[Entry]
    ensures { result.now ≡ take count (drop start entries.now) }
{
    let rest = &entries[entries.len().min(start)..];
    &rest[..rest.len().min(count)]
}

/// The type of the first of these entries that has the name.
pub fn find_type(entries: &[Entry], name: u32) -> Option<ValueType>
    ensures { result ≡ type_of name entries.now }
{
    // A search by hand and no `find`, which took up to half as long again over long tables.
    for entry in entries {
        if entry.left == name {
            return Some(ValueType {
                number: entry.right,
            });
        }
    }
    None
}

impl Declaration {
    /// How many entries it has.
    pub(crate) fn size(self) -> usize
        ensures { result ≡ self.a + self.b }
    {
        self.a as usize + self.b as usize
    }
}

impl<'a> HeldBook<'a> {
    /// The entries of a record where a test says so; else none.
    fn entries_if(&self, test: bool, start: u32, count: usize) -> &'a [Entry]
        ensures { result.now ≡ cond test (take count (drop start self.now.entries.now)) [] }
    {
        if test {
            part(self.entries, start as usize, count)
        } else {
            &[]
        }
    }

    /// The entries of a declaration, if it is of this kind; else none.
    fn declared_as(&self, declaration: Declaration, kind: DeclarationKind) -> &'a [Entry]
        ensures { result.now ≡ of_kind kind (declared_in self.now.entries.now declaration) }
    {
        self.entries_if(
            declaration.kind == kind,
            declaration.start,
            declaration.size(),
        )
    }

    /// The entries of a clause, if it is a modifies clause of that procedure; else none.
    fn modified_by(&self, clause: Clause, procedure: usize) -> &'a [Entry]
        ensures { result.now ≡ modified_by procedure (stated_in self.now.entries.now clause) }
    {
        self.entries_if(
            clause.belongs_to(ClauseKind::Modifies, procedure),
            clause.start,
            clause.count as usize,
        )
    }

    /// The type of the first constant, or global, of that name.
    pub fn find_declared(&self, kind: DeclarationKind, name: u32) -> Option<ValueType>
        ensures { result ≡ type_of name (declared_as kind (book_of self.now).declarations) }
    {
        self.declarations
            .iter()
            .map(|declaration| find_type(self.declared_as(*declaration, kind), name))
            .find(|found| found.is_some())
            .flatten()
    }

    /// The procedure of that name.
    pub fn find_procedure(&self, name: u32) -> Option<Procedure<'a>>
        ensures { option_map numbered result ≡ procedure_named name (book_of self.now) }
    {
        self.declarations
            .iter()
            .filter(|declaration| declaration.kind == DeclarationKind::Procedure)
            .enumerate()
            .find(|(_, declaration)| declaration.name == name)
            .map(|(number, declaration)| Procedure {
                number,
                ins: declaration.a,
                parameters: part(self.entries, declaration.start as usize, declaration.size()),
            })
    }

    /// How many clauses there are of the kind and of the procedure of that number, or how many axioms.
    pub fn count_clauses(&self, kind: ClauseKind, procedure: usize) -> usize
        ensures { result ≡ length (clauses_of kind procedure (book_of self.now)) }
    {
        // A loop and no `filter` and `count`, nor a sum: they take half as long again, since the compiler adds up several
        // clauses at a time only here.
        let mut count = 0;
        for clause in self.clauses {
            if clause.belongs_to(kind, procedure) {
                count += 1;
            }
        }
        count
    }

    /// Do the modifies clauses of the procedure of that number name this global?
    pub fn is_modified(&self, procedure: usize, name: u32) -> bool
        ensures { result ≡ is_some (type_of name (modified procedure (book_of self.now))) }
    {
        self.clauses.iter().any(|clause| find_type(
            self.modified_by(*clause, procedure),
            name,
        ).is_some())
    }
}

impl Clause {
    /// Is it of this kind, and of the procedure of that number where it is no axiom?
    fn belongs_to(self, kind: ClauseKind, procedure: usize) -> bool
        ensures { result ≡ belongs kind procedure self.kind self.procedure }
    {
        self.kind == kind && (kind == ClauseKind::Axiom || self.procedure as usize == procedure)
    }
}

impl<'a> Procedure<'a> {
    /// The in-parameters.
    pub fn in_parameters(self) -> &'a [Entry]
        ensures { result.now ≡ take self.entry.ins self.entry.parameters.now }
    {
        part(self.parameters, 0, self.ins as usize)
    }
}
