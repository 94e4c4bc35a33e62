ghost use Rattle.book.specs.Declare.{ClauseRoom, DeclarationRoom, Ended, clause_verdict, declaration_verdict, declared, declared_as, name_for, new_book, no_clause_left, no_declaration_left, overfull, settled, sizes_suit};
ghost use Rattle.book.specs.declared.kinds.Kind.TheVariants.{Clause, Declaration};
ghost use Rattle.page.specs.Pages.{shown};
ghost use Rattle.records.specs.Held.{Same, stored};
ghost use Rattle.std.specs.Prelude.{◌≡◌, OnOk};

use crate::clauses::Stating;
use crate::kinds::Kind;
use crate::rules::{Declaring, Request};
use crate::states::{Open, Settled};
use fault::refuse::refuse_call;
use fault::{Cause, Fault, Ground};
use page::Page;
use records::guard::held;
use records::lists::{ClauseKind, Counts, DeclarationKind, Lists};

/// Do the page's sizes suit such a declaration?
fn sizes_suit(kind: DeclarationKind, page: Page) -> bool
    ensures { result ≡ sizes_suit kind (shown page.entry) }
{
    match kind {
        DeclarationKind::Constants | DeclarationKind::Globals => page.a > 0 && page.b == 0,
        DeclarationKind::Procedure => page.a <= 16 && page.b <= 16,
    }
}

impl Open {
    /// A book in which nothing is declared.
    pub fn new() -> Open
        ensures { result ≡ new_book }
    {
        Open {
            counts: Counts::default(),
        }
    }

    /// Do the page's entries not fit into the book, or not into the list?
    fn is_overfull(&self, lists: &Lists, page: Page) -> bool
        ensures { result ≡ overfull self.now.counts (stored lists.now) (shown page.entry) }
    {
        let end = self.counts.entries as usize + page.left.numbers.len();
        end > 65536 || end > lists.entries.len()
    }

    /// Is no declaration record left, or no room for the page's entries?
    fn lacks_declaration(&self, lists: &Lists, page: Page) -> bool
        ensures { result ≡ no_declaration_left self.now.counts (stored lists.now) (shown page.entry) }
    {
        lists.declarations.len() <= self.counts.declarations || self.is_overfull(lists, page)
    }

    /// Is no clause record left, or no room for the page's entries?
    // Apart from `lacks_declaration`, since it looks at another list and another count: what is the same is `is_overfull`.
    fn lacks_clause(&self, lists: &Lists, page: Page) -> bool
        ensures { result ≡ no_clause_left self.now.counts (stored lists.now) (shown page.entry) }
    {
        lists.clauses.len() <= self.counts.clauses || self.is_overfull(lists, page)
    }

    /// Judges constants, globals or a procedure.
    fn judge_declaration(
        &self,
        lists: &Lists,
        kind: DeclarationKind,
        request: Request,
    ) -> Result<usize, Cause>
        ensures is { result ≡ declaration_verdict kind request.entry.name (shown request.entry.page) self.now.counts (stored lists.now) }
        ensures named { OnOk result (name_for kind request.entry.name ≡ request.entry.name) }
        ensures room { OnOk result (DeclarationRoom self.now.counts (stored lists.now) (shown request.entry.page)) }
    {
        refuse_call(!sizes_suit(kind, request.page), Ground::Form)?;
        let declaring = Declaring {
            book: held(lists, self.counts).ok_or(Cause::Call(Ground::Lists))?,
            full: self.lacks_declaration(lists, request.page),
            request,
        };
        declaring.declaration(kind)
    }

    /// Judges a clause.
    // Apart from `judge_declaration`, as `declare_clause` is from `declare_names`: a number answers a declaration, and a clause
    // its procedure too. A trait for both would have a ghost member for each step and be longer than the two, and of a closure
    // for the rule contracts could state only what each call answers.
    fn judge_clause(
        &self,
        lists: &Lists,
        kind: ClauseKind,
        request: Request,
    ) -> Result<Stating, Cause>
        ensures is { result ≡ clause_verdict kind request.entry.name (shown request.entry.page) self.now.counts (stored lists.now) }
        ensures room { OnOk result (ClauseRoom self.now.counts (stored lists.now) (shown request.entry.page)) }
    {
        refuse_call(request.page.b != 0, Ground::Form)?;
        let declaring = Declaring {
            book: held(lists, self.counts).ok_or(Cause::Call(Ground::Lists))?,
            full: self.lacks_clause(lists, request.page),
            request,
        };
        declaring.clause(kind)
    }

    /// Constants, globals or a procedure.
    fn declare_names(
        &mut self,
        lists: &mut Lists,
        kind: DeclarationKind,
        request: Request,
    ) -> Result<usize, Fault>
        ensures does { record { answer = result; counts = self.new.counts; lists = stored lists.new } ≡ declared_as (Declaration kind) request.entry.name self.old.counts (stored lists.old) (shown request.entry.page) }
        ensures lent { Same lists.old lists.new }
    {
        let number = self.judge_declaration(lists, kind, request)?;
        self.add_declaration(lists, kind, request);
        Ok(number)
    }

    /// A clause.
    fn declare_clause(
        &mut self,
        lists: &mut Lists,
        kind: ClauseKind,
        request: Request,
    ) -> Result<usize, Fault>
        ensures does { record { answer = result; counts = self.new.counts; lists = stored lists.new } ≡ declared_as (Clause kind) request.entry.name self.old.counts (stored lists.old) (shown request.entry.page) }
        ensures lent { Same lists.old lists.new }
    {
        let Stating { procedure, number } = self.judge_clause(lists, kind, request)?;
        self.add_clause(lists, kind, procedure, request.page);
        Ok(number)
    }

    /// Declares what the kind, the name and the page say, or refuses it and leaves all as it was.
    ///
    /// Kinds: 3 constants, 4 globals, 6 a procedure, 7 an axiom, 8 a requires, 9 an ensures and 10 a modifies clause.
    /// The answer is the number of the first thing added, or the clause's number among those of its kind and procedure.
    // Plain numbers, as front ends hand them in: what they stand for is the call's to find out, or to refuse. The lists are a
    // parameter of each call, since the caller lends them anew. That they stay the caller's own (`lent`) is a clause of each:
    // it relates what is before to what is after, which no field could say.
    pub fn declare(
        &mut self,
        lists: &mut Lists,
        kind: u32,
        name: u32,
        numbers: &[u32],
    ) -> Result<usize, Fault>
        ensures does { record { answer = result; counts = self.new.counts; lists = stored lists.new } ≡ declared kind name numbers.now self.old.counts (stored lists.old) }
        ensures lent { Same lists.old lists.new }
    {
        let page = Page::read(numbers).ok_or(Cause::Call(Ground::Form))?;
        let request = Request { name, page };
        match Kind::try_from(kind)? {
            Kind::Declaration(kind) => self.declare_names(lists, kind, request),
            Kind::Clause(kind) => self.declare_clause(lists, kind, request),
        }
    }

    /// Closes the book to declarations.
    pub fn settle(self) -> Settled
        ensures { result ≡ settled self }
    {
        let Open { counts } = self;
        Settled { counts }
    }
}
