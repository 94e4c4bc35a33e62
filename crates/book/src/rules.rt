ghost use Rattle.std.specs.Prelude.{◌≡◌, ◌≤◌, false, OnOk};
ghost use Rattle.book.specs.Declare.{accepting, declaration_ruled, name_for};
ghost use Rattle.book.specs.Rules.{count_of, most_of, passes, procedure_rule, values_rule};
ghost use Rattle.page.specs.Pages.{shown};
ghost use Rattle.records.specs.Sound.{shown as held_by};
ghost use Rattle.records.specs.declared.lists.DeclarationKind.TheVariants.{Procedure};

use fault::refuse::{refuse_call, refuse_entry};
use fault::{Cause, Ground};
use names::{NameGroup, is_name, leading_names, leading_types};
use page::Page;
use records::lists::DeclarationKind;
use records::sound::SoundBook;

/// What is to be declared: the name that the call was given (for a clause, its procedure's), and its page.
// Without the kind, which has one type for declarations and another for clauses.
#[derive(Clone, Copy)]
pub(crate) struct Request<'a> {
    pub(crate) name: u32,
    pub(crate) page: Page<'a>,
}

/// A request that is to be judged over a book.
#[derive(Clone, Copy)]
pub(crate) struct Declaring<'a> {
    pub(crate) book: SoundBook<'a>,
    /// Do the records or the entries that are left not suffice?
    // Asked beforehand and kept, since the rules, which know no lists, look at it in the midst of their grounds.
    pub(crate) full: bool,
    pub(crate) request: Request<'a>,
}

impl Declaring<'_> {
    /// How many there are of a kind.
    fn count_of(&self, kind: DeclarationKind) -> usize
        ensures { result ≡ count_of kind (held_by self.now.book) }
    {
        let totals = self.book.totals;
        match kind {
            DeclarationKind::Constants => totals.constants,
            DeclarationKind::Globals => totals.globals,
            DeclarationKind::Procedure => totals.procedures,
        }
    }

    /// Would so many more of a kind pass its limit?
    fn is_passed(&self, kind: DeclarationKind, more: usize) -> bool
        requires { more ≤ 1024 }
        ensures { result ≡ passes kind more (held_by self.now.book) }
    {
        let most = match kind {
            DeclarationKind::Constants => 256,
            DeclarationKind::Globals | DeclarationKind::Procedure => 64,
        };
        self.count_of(kind) + more > most
    }

    /// The rule for constants and globals.
    fn values(&self, kind: DeclarationKind) -> Result<usize, Cause>
        ensures { result ≡ accepting (values_rule kind self.now.request.name (shown self.now.request.page) self.now.full (held_by self.now.book)) (count_of kind (held_by self.now.book)) }
    {
        let Page { left, right, .. } = self.request.page;
        let (left, types) = (left.numbers, right.numbers);
        refuse_call(self.request.name != 0, Ground::Naming)?;
        refuse_entry(Ground::Naming, left, leading_names(left))?;
        refuse_call(self.is_passed(kind, left.len()) || self.full, Ground::Limit)?;
        refuse_entry(
            Ground::Taken,
            left,
            NameGroup::Values.leading_fresh(&self.book.held, left),
        )?;
        refuse_entry(Ground::UnknownType, left, leading_types(types))?;
        Ok(self.count_of(kind))
    }

    /// The rule for a procedure.
    // Beside `values`: its grounds are others, and come in another order.
    fn procedure(&self) -> Result<usize, Cause>
        ensures { result ≡ accepting (procedure_rule self.now.request.name (shown self.now.request.page) self.now.full (held_by self.now.book)) (count_of Procedure (held_by self.now.book)) }
    {
        let Page { left, right, .. } = self.request.page;
        let (left, types) = (left.numbers, right.numbers);
        refuse_call(!is_name(self.request.name), Ground::Naming)?;
        refuse_entry(Ground::Naming, left, leading_names(left))?;
        refuse_call(
            self.is_passed(DeclarationKind::Procedure, 1) || self.full,
            Ground::Limit,
        )?;
        refuse_call(
            self.book.held.find_procedure(self.request.name).is_some(),
            Ground::Taken,
        )?;
        refuse_entry(
            Ground::Taken,
            left,
            NameGroup::Nothing.leading_fresh(&self.book.held, left),
        )?;
        refuse_entry(Ground::UnknownType, left, leading_types(types))?;
        Ok(self.count_of(DeclarationKind::Procedure))
    }

    /// The rule for a declaration.
    pub(crate) fn declaration(&self, kind: DeclarationKind) -> Result<usize, Cause>
        ensures { result ≡ declaration_ruled kind self.now.request.name (shown self.now.request.page) self.now.full (held_by self.now.book) }
    {
        match kind {
            DeclarationKind::Constants | DeclarationKind::Globals => self.values(kind),
            DeclarationKind::Procedure => self.procedure(),
        }
    }
}
