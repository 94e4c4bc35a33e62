//! What a call came to, and the line that says it.
ghost use Rattle.console.specs.Trace.{outcome_text};
ghost use Rattle.std.specs.Prelude.{Some};

use fault::Report;
use lines::calls::CallKind;
use std::fmt;

/// What a call came to.
#[derive(Clone, Copy, Debug, PartialEq, Eq)]
pub enum Outcome {
    /// Declare was accepted, and answers this number.
    Declared { number: usize },
    /// Settle was accepted.
    Settled,
    /// The call was refused. The book is as it was.
    Refused { call: CallKind, report: Report },
}

impl fmt::Display for Outcome {
    ghost output = { λ o. Some (outcome_text o) };

    fn fmt<W: fmt::Write>(&self, f: &mut fmt::Formatter<W>) -> fmt::Result {
        match self {
            Outcome::Declared { number } => write!(f, "1 ok {number}"),
            Outcome::Settled => write!(f, "2 ok"),
            Outcome::Refused { call, report } => {
                write!(f, "{} refused {report}", u32::from(*call))
            }
        }
    }
}
