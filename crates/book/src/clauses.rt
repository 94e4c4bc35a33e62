ghost use Rattle.std.specs.Prelude.{◌≡◌, ◌<◌, ◌≤◌, false, length, OnOk};
ghost use Rattle.book.specs.Kinds.{clause_kind};
ghost use Rattle.book.specs.Declare.{accepting, clause_ruled, stating};
ghost use Rattle.names.specs.NameGroups.{names_in};
ghost use Rattle.book.specs.Rules.{axiom_rule, condition_rule, modified_so_far, modifies_rule, nobody, scope_for, stated_for};
ghost use Rattle.expression.specs.Scopes.{scope_of};
ghost use Rattle.language.specs.Checking.{checked};
ghost use Rattle.page.specs.Pages.{entries_of, shown};
ghost use Rattle.records.specs.Book.{clauses_of, procedure_named};
ghost use Rattle.records.specs.Found.{numbered};
ghost use Rattle.records.specs.Held.{book_of};
ghost use Rattle.records.specs.declared.lists.HeldBook.{HeldBook};
ghost use Rattle.records.specs.Sound.{shown as held_by};
ghost use Rattle.records.specs.declared.lists.ClauseKind.TheVariants.{Axiom, Modifies};
ghost use Rattle.std.specs.Option.{option_map};

use crate::kinds::ConditionKind;
use crate::rules::Declaring;
use expression::check::check_page;
use expression::scope::Scope;
use fault::refuse::{refuse_call, refuse_entry};
use fault::{Cause, Ground};
use names::{NameGroup, is_name, leading_bare_names};
use page::Page;
use records::lists::{ClauseKind, Procedure};

/// A clause that was accepted: the number of its procedure (0 for axioms), and its own among those of its kind.
// 0 and no `Option`, as the clause's record has it.
#[derive(Clone, Copy)]
pub(crate) struct Stating {
    pub(crate) procedure: u32,
    pub(crate) number: usize,
}

/// The names in the modifies clauses of the procedure, if there is one.
fn modified_so_far(found: Option<Procedure>) -> NameGroup
    ensures { (b : HeldBook) → names_in result b ≡ modified_so_far (option_map numbered found.entry) (book_of b) }
{
    found.map_or(NameGroup::Nothing, |procedure| {
        NameGroup::ModifiedBy(procedure.number)
    })
}

impl<'a> Declaring<'a> {
    /// What an axiom may speak of.
    fn axiom_scope(&self) -> Scope<'a>
        ensures { scope_of result ≡ scope_for Axiom nobody (held_by self.now.book) }
    {
        Scope {
            book: self.book.held,
            locals: &[],
            parameters: &[],
            globals: false,
            olds: false,
        }
    }

    /// What a requires or an ensures clause may speak of.
    fn condition_scope(&self, kind: ConditionKind, procedure: Procedure<'a>) -> Scope<'a>
        ensures { scope_of result ≡ scope_for (clause_kind kind) (numbered procedure.entry) (held_by self.now.book) }
    {
        let (parameters, olds) = match kind {
            ConditionKind::Requires => (procedure.in_parameters(), false),
            ConditionKind::Ensures => (procedure.parameters, true),
        };
        Scope {
            book: self.book.held,
            locals: &[],
            parameters,
            globals: true,
            olds,
        }
    }

    /// How many clauses of a kind the procedure has, if there is one.
    // A match and no `map_or`: with a closure that looks into the book the proof did not close.
    fn count_for(&self, kind: ClauseKind, found: Option<Procedure>) -> usize
        ensures { result ≡ stated_for kind (option_map numbered found.entry) (held_by self.now.book) }
    {
        match found {
            Some(procedure) => self.book.held.count_clauses(kind, procedure.number),
            None => 0,
        }
    }

    /// Checks the page as an expression.
    fn check_expression(&self, scope: &Scope) -> Result<(), Cause>
        ensures { result ≡ checked (scope_of scope.now) (entries_of (shown self.now.request.page)) }
    {
        let Page { left, right, .. } = self.request.page;
        check_page(scope, left.numbers, right.numbers)
    }

    /// The rule for an axiom.
    fn axiom(&self) -> Result<Stating, Cause>
        ensures { result ≡ accepting (axiom_rule self.now.request.name (shown self.now.request.page) self.now.full (held_by self.now.book)) (record { procedure = 0; number = length (clauses_of Axiom 0 (held_by self.now.book)) }) }
    {
        refuse_call(self.request.name != 0, Ground::Naming)?;
        let number = self.book.held.count_clauses(ClauseKind::Axiom, 0);
        refuse_call(
            ClauseKind::Axiom.is_full(number) || self.full,
            Ground::Limit,
        )?;
        self.check_expression(&self.axiom_scope())?;
        Ok(Stating {
            procedure: 0,
            number,
        })
    }

    /// The rule for a requires or an ensures clause.
    fn condition(&self, kind: ConditionKind) -> Result<Stating, Cause>
        ensures { result ≡ accepting (condition_rule (clause_kind kind) self.now.request.name (shown self.now.request.page) self.now.full (held_by self.now.book)) (stating (clause_kind kind) self.now.request.name (held_by self.now.book)) }
    {
        refuse_call(!is_name(self.request.name), Ground::Naming)?;
        let found = self.book.held.find_procedure(self.request.name);
        let clause = ClauseKind::from(kind);
        let number = self.count_for(clause, found);
        refuse_call(clause.is_full(number) || self.full, Ground::Limit)?;
        let procedure = found.ok_or(Cause::Call(Ground::UnknownProcedure))?;
        self.check_expression(&self.condition_scope(kind, procedure))?;
        Ok(Stating {
            procedure: procedure.number as u32,
            number,
        })
    }

    /// The rule for a modifies clause.
    fn modifies(&self) -> Result<Stating, Cause>
        ensures { result ≡ accepting (modifies_rule self.now.request.name (shown self.now.request.page) self.now.full (held_by self.now.book)) (stating Modifies self.now.request.name (held_by self.now.book)) }
    {
        let book = &self.book.held;
        let left = self.request.page.left.numbers;
        refuse_call(!is_name(self.request.name), Ground::Naming)?;
        refuse_entry(
            Ground::Naming,
            left,
            leading_bare_names(left, self.request.page.right.numbers),
        )?;
        refuse_call(self.full, Ground::Limit)?;
        let found = book.find_procedure(self.request.name);
        refuse_entry(
            Ground::Taken,
            left,
            modified_so_far(found).leading_fresh(book, left),
        )?;
        let procedure = found.ok_or(Cause::Call(Ground::UnknownProcedure))?;
        refuse_entry(
            Ground::NotUsable,
            left,
            NameGroup::Globals.leading_members(book, left),
        )?;
        Ok(Stating {
            procedure: procedure.number as u32,
            number: self.count_for(ClauseKind::Modifies, found),
        })
    }

    /// The rule for a clause.
    pub(crate) fn clause(&self, kind: ClauseKind) -> Result<Stating, Cause>
        ensures { result ≡ clause_ruled kind self.now.request.name (shown self.now.request.page) self.now.full (held_by self.now.book) }
    {
        match kind {
            ClauseKind::Axiom => self.axiom(),
            ClauseKind::Requires => self.condition(ConditionKind::Requires),
            ClauseKind::Ensures => self.condition(ConditionKind::Ensures),
            ClauseKind::Modifies => self.modifies(),
        }
    }
}
