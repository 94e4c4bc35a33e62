ghost use Rattle.std.specs.Prelude.{◌≡◌, ◌+◌, ◌<◌, ◌≤◌, true, [], length};
ghost use Rattle.records.specs.Held.{clauses_fit, count_of, held_in, is_full, declaration_fits, sound_book, stored};
ghost use Rattle.records.specs.Sound.{shown};
ghost use Rattle.records.specs.Sizes.{Few, counting, few, has_row, lies, none, row_of, surveyed};
ghost use Rattle.std.specs.Option.{option_map};

use crate::lists::{
    Clause, ClauseKind, Counts, Declaration, DeclarationKind, HeldBook, Lists, Totals,
};
use crate::sound::SoundBook;
use page::Entry;

impl Declaration {
    /// Do the entries lie among the first `count` of the table, and are the parameters few enough?
    fn fits(self, count: usize) -> bool
        ensures { result ≡ declaration_fits count self }
    {
        let end = self.start as usize + self.size();
        if end > count {
            return false;
        }
        self.kind != DeclarationKind::Procedure || self.a <= 16 && self.b <= 16
    }
}

impl ClauseKind {
    /// May no more clauses of this kind be stated, where there are `count`?
    pub fn is_full(self, count: usize) -> bool
        ensures { result ≡ is_full self count }
    {
        match self {
            ClauseKind::Axiom => count >= 64,
            ClauseKind::Requires | ClauseKind::Ensures => count >= 8,
            ClauseKind::Modifies => false,
        }
    }
}

impl Totals {
    /// These totals with one record more.
    fn counting(self, declaration: Declaration) -> Totals
        requires { Few self }
        ensures { result ≡ counting declaration self }
    {
        let size = declaration.size();
        let mut totals = self;
        match declaration.kind {
            DeclarationKind::Constants => totals.constants += size,
            DeclarationKind::Globals => totals.globals += size,
            DeclarationKind::Procedure => totals.procedures += 1,
        }
        totals
    }

    /// Are these within the limits of a book?
    fn are_few(self) -> bool
        ensures { result ≡ few self }
    {
        self.constants <= 256 && self.globals <= 64 && self.procedures <= 64
    }
}

/// The totals of these records, or `None` where one points outside the table or is over a limit.
// A loop and no fold, here and for the clauses: it ends at the first record that is wrong, with totals so far that a
// closure would have to carry.
fn survey(declarations: &[Declaration], count: usize) -> Option<Totals>
    ensures { result ≡ surveyed count none declarations.now }
{
    let mut totals = Totals::default();
    for d in declarations {
        if !d.fits(count) {
            return None;
        }
        totals = totals.counting(*d);
        if !totals.are_few() {
            return None;
        }
    }
    Some(totals)
}

impl Clause {
    /// Does the clause lie in the table, in one page, and is its procedure one of so many?
    fn lies(self, count: usize, procedures: usize) -> bool
        ensures { result ≡ lies count procedures self }
    {
        if self.start as usize + self.count as usize > count || self.count > 1024 {
            return false;
        }
        self.kind == ClauseKind::Axiom || (self.procedure as usize) < procedures
    }

    /// The row in which the clause counts, of 193.
    fn row(self) -> usize
        requires { has_row self.kind self.procedure ≡ true }
        ensures is { result ≡ row_of self.kind self.procedure }
        ensures below { result < 193 }
    {
        let procedure = self.procedure as usize;
        match self.kind {
            ClauseKind::Axiom => 0,
            ClauseKind::Requires => 1 + procedure,
            ClauseKind::Ensures => 65 + procedure,
            ClauseKind::Modifies => 129 + procedure,
        }
    }
}

/// Does each clause lie where it may, with no more of its kind before it than a limit lets there be?
fn clauses_fit(clauses: &[Clause], count: usize, procedures: usize) -> bool
    requires { procedures ≤ 64 }
    ensures { result ≡ clauses_fit count procedures [] clauses.now }
{
    // An array with a row for each kind and procedure, and no map, since nothing here allocates.
    let mut tally = [0usize; 193];
    for clause in clauses {
        if !clause.lies(count, procedures) {
            return false;
        }
        let row = clause.row();
        if clause.kind.is_full(tally[row]) {
            return false;
        }
        tally[row] += 1;
    }
    true
}

/// The book in these records with its totals; `None` where one points outside its table or is over a limit.
fn sound_book<'a>(held: HeldBook<'a>) -> Option<SoundBook<'a>>
    ensures { option_map shown result ≡ sound_book (record { declarations = held.entry.declarations.now; clauses = held.entry.clauses.now; entries = held.entry.entries.now }) }
{
    let count = held.entries.len();
    let totals = survey(held.declarations, count)?;
    if !clauses_fit(held.clauses, count, totals.procedures) {
        return None;
    }
    Some(SoundBook { held, totals })
}

/// The book that the lists hold, where so many records of each are in use; `None` where they hold none.
pub fn held<'a>(lists: &'a Lists, counts: Counts) -> Option<SoundBook<'a>>
    ensures { option_map shown result ≡ held_in counts (stored lists.now) }
{
    let Counts {
        declarations,
        clauses,
        entries,
    } = counts;
    sound_book(HeldBook {
        declarations: lists.declarations.get(0..declarations)?,
        clauses: lists.clauses.get(0..clauses)?,
        entries: lists.entries.get(0..entries as usize)?,
    })
}
