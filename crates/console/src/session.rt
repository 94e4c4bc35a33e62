//! A book from its first call to its last: the lines of the input, one after the other.
ghost use Rattle.lines.specs.Lines.{shown, the_error};
ghost use Rattle.console.specs.Phases.{after_declare, after_settle, phase, phase_after};
ghost use Rattle.std.specs.Result.{result_map_both};
ghost use Rattle.std.specs.Prelude.{◌≡◌};

use crate::errors::Failure;
use crate::numbers::parse_numbers;
use crate::outcomes::Outcome;
use book::{Open, Settled};
use fault::Report;
use lines::calls::{Call, CallKind, parse_call};
use lines::errors::LineError;
use page::Entry;
use records::lists::{Clause, ClauseKind, Declaration, DeclarationKind, Lists};
use std::alloc::Global;
use std::io::Write;

/// A book declares at most 256 constants, 64 globals and 64 procedures, and each declaration has one of these at least.
const MOST_DECLARATIONS: usize = 384;

/// The most page entries that a book keeps.
const MOST_ENTRIES: usize = 65_536;

// The records before their first use: the library reads none that it has not written. They have no default,
// since a record of zeros says nothing.
const BLANK_DECLARATION: Declaration = Declaration {
    kind: DeclarationKind::Constants,
    name: 0,
    start: 0,
    a: 0,
    b: 0,
};

const BLANK_CLAUSE: Clause = Clause {
    kind: ClauseKind::Axiom,
    procedure: 0,
    start: 0,
    count: 0,
};

const BLANK_ENTRY: Entry = Entry { left: 0, right: 0 };

/// The book, in the state that the calls so far have brought it to.
#[derive(Drop)]
pub enum Stage {
    Open(Open),
    Settled(Settled),
}

/// Makes the calls of all lines, and with `trace` writes a line for each.
pub(crate) fn answer_lines<W: Write>(
    heap: Global,
    text: &str,
    trace: bool,
    out: &mut W,
) -> Result<(), Failure> {
    let mut declarations = vec![in heap; BLANK_DECLARATION; MOST_DECLARATIONS]?;
    let mut entries = vec![in heap; BLANK_ENTRY; MOST_ENTRIES]?;
    // A line adds one clause at most.
    let mut clauses = vec![in heap; BLANK_CLAUSE; text.lines().count()]?;
    let mut lists = Lists {
        declarations: declarations.as_mut_slice(),
        clauses: clauses.as_mut_slice(),
        entries: entries.as_mut_slice(),
    };
    let mut stage = Stage::Open(Open::new());
    let mut numbers = Vec::new(heap);
    for (content, line) in text.lines().zip(1..) {
        numbers.clear();
        parse_numbers(line, content, &mut numbers)?;
        if !numbers.is_empty() {
            let answer = answer_line(stage, &mut lists, numbers.as_slice());
            let (next, outcome) = answer.map_err(|error| Failure::Line { line, error })?;
            stage = next;
            if trace {
                writeln!(out, "{outcome}").map_err(Failure::Output)?;
            }
        }
    }
    Ok(())
}

/// Makes the call of a line.
// The stage and the lists are not one struct, here and below: each call moves the stage on, and is only lent the lists.
fn answer_line(
    stage: Stage,
    lists: &mut Lists,
    numbers: &[u32],
) -> Result<(Stage, Outcome), LineError> {
    make_call(stage, lists, parse_call(numbers)?)
}

/// Makes a call, and answers the book's next state and what the call came to.
fn make_call(stage: Stage, lists: &mut Lists, call: Call) -> Result<(Stage, Outcome), LineError>
    ensures { result_map_both (λ p. phase p.0) the_error result ≡ phase_after (shown call.entry) (phase stage) }
{
    match call {
        Call::Declare { kind, name, page } => declare(stage, lists, kind, name, page),
        Call::Settle => settle(stage),
        Call::Begin { .. } | Call::Block { .. } | Call::Finish | Call::Write | Call::Shut => {
            Err(LineError::NotAvailable { call: call.kind() })
        }
    }
}

/// Declare, which only an open book takes.
fn declare(
    stage: Stage,
    lists: &mut Lists,
    kind: u32,
    name: u32,
    page: &[u32],
) -> Result<(Stage, Outcome), LineError>
    ensures { result_map_both (λ p. phase p.0) the_error result ≡ after_declare (phase stage) }
{
    let call = CallKind::Declare;
    let Stage::Open(mut open) = stage else {
        return Err(LineError::NotTaken { call });
    };
    let outcome = match open.declare(lists, kind, name, page) {
        Ok(number) => Outcome::Declared { number },
        Err(fault) => Outcome::Refused {
            call,
            report: Report::from(fault),
        },
    };
    Ok((Stage::Open(open), outcome))
}

/// Settle, which only an open book takes.
fn settle(stage: Stage) -> Result<(Stage, Outcome), LineError>
    ensures { result_map_both (λ p. phase p.0) the_error result ≡ after_settle (phase stage) }
{
    match stage {
        Stage::Open(open) => Ok((Stage::Settled(open.settle()), Outcome::Settled)),
        Stage::Settled(_) => Err(LineError::NotTaken {
            call: CallKind::Settle,
        }),
    }
}
