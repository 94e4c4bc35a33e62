ghost use Rattle.book.specs.Kinds.{clause_kind, kind_of};
ghost use Rattle.std.specs.Prelude.{◌≡◌};

use fault::{Cause, Ground};
use records::lists::{ClauseKind, DeclarationKind};

/// The kinds that Declare takes.
#[derive(Clone, Copy)]
pub(crate) enum Kind {
    Declaration(DeclarationKind),
    Clause(ClauseKind),
}

/// The kinds of clauses of a procedure that are expressions.
#[derive(Clone, Copy)]
pub(crate) enum ConditionKind {
    Requires,
    Ensures,
}

/// The kind of a number.
impl TryFrom<u32> for Kind {
    type Error = Cause;

    ghost try_from_gives = { λ number kind. kind ≡ kind_of number };

    fn try_from(number: u32) -> Result<Kind, Cause> {
        match number {
            3 => Ok(Kind::Declaration(DeclarationKind::Constants)),
            4 => Ok(Kind::Declaration(DeclarationKind::Globals)),
            6 => Ok(Kind::Declaration(DeclarationKind::Procedure)),
            7 => Ok(Kind::Clause(ClauseKind::Axiom)),
            8 => Ok(Kind::Clause(ClauseKind::Requires)),
            9 => Ok(Kind::Clause(ClauseKind::Ensures)),
            10 => Ok(Kind::Clause(ClauseKind::Modifies)),
            _ => Err(Cause::Call(Ground::Form)),
        }
    }
}

impl From<ConditionKind> for ClauseKind {
    ghost from_gives = { λ kind clause. clause ≡ clause_kind kind };

    fn from(kind: ConditionKind) -> ClauseKind {
        match kind {
            ConditionKind::Requires => ClauseKind::Requires,
            ConditionKind::Ensures => ClauseKind::Ensures,
        }
    }
}
