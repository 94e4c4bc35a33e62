//! Refusals: why a call was refused and where, and the four numbers that this gives.
#![tactic(auto)]

pub mod refuse;

ghost use Rattle.fault.specs.Faults.{given, number_of, report_text, without_block};
ghost use Rattle.std.specs.Prelude.{◌≡◌, Some};

use std::fmt;

/// The ground of a refusal.
#[derive(Clone, Copy, Debug, PartialEq, Eq)]
pub enum Ground {
    /// The kind is unknown, the page has not the form of one, or its sizes do not suit the call.
    Form = 1,
    /// A lent list is too short, or a record in use points outside its table or is over a limit.
    Lists = 2,
    /// A name is out of range, or a number that must be 0 is not.
    Naming = 3,
    /// A limit of the book or of the body, or the length of a list, would be passed.
    Limit = 4,
    /// A name is taken, or stands twice.
    Taken = 5,
    /// There is no such type.
    UnknownType = 6,
    /// There is no procedure of that name.
    UnknownProcedure = 7,
    /// The code does not belong here, or its right number should be 0.
    Code = 8,
    /// The identifier or the procedure may not be used here.
    NotUsable = 9,
    /// Too few values wait.
    TooFewWaiting = 10,
    /// More than 1,024 values wait.
    TooManyWaiting = 11,
    /// The waiting types do not suit the code.
    WrongTypes = 12,
    /// Values remain at a command or at the end, or receivers stand before no call.
    Remaining = 13,
    /// A changed name is a constant or an in-parameter.
    Unchangeable = 14,
    /// A changed global, or one that the callee modifies, is not in the procedure's modifies clauses.
    NotModified = 15,
    /// The receivers of a call repeat, or their number is wrong.
    Receivers = 16,
    /// The body has no block.
    NoBlock = 17,
    /// A target names no block of the body.
    UnknownTarget = 18,
    /// A target is its own block or an earlier one.
    EarlierTarget = 19,
    /// The work list is too short.
    WorkList = 20,
    /// The sink refused a tell.
    SinkRefused = 21,
}

/// Where in a page.
#[derive(Clone, Copy, Debug, PartialEq, Eq)]
pub enum Place {
    /// An entry: its index, and its left number.
    At { index: usize, item: u32 },
    /// The end of a page of so many entries.
    End { length: usize },
}

/// What was refused: the call as a whole, or an entry of its page.
#[derive(Clone, Copy, Debug, PartialEq, Eq)]
pub enum Cause {
    Call(Ground),
    Entry(Ground, Place),
}

/// A refusal: the block, counted from 1, where there is one, and the cause.
#[derive(Clone, Copy, Debug, PartialEq, Eq)]
pub struct Fault {
    pub block: Option<u32>,
    pub cause: Cause,
}

/// The four numbers of a refusal, plain as callers read them; those that are absent are 0.
#[derive(Clone, Copy, Debug, PartialEq, Eq)]
pub struct Report {
    pub number: u32,
    pub block: u32,
    pub entry: usize,
    pub item: u32,
}

/// The number by which callers know the ground.
impl From<Ground> for u32 {
    ghost from_gives = { λ g n. n ≡ number_of g };

    fn from(ground: Ground) -> u32 {
        ground as u32
    }
}

/// A refusal where there is no block.
impl From<Cause> for Fault {
    ghost from_gives = { λ c f. f ≡ without_block c };

    fn from(cause: Cause) -> Fault {
        Fault { block: None, cause }
    }
}

/// What a refusal gives its caller.
impl From<Fault> for Report {
    ghost from_gives = { λ f r. r ≡ given f };

    fn from(fault: Fault) -> Report {
        let Fault { block, cause } = fault;
        let (ground, entry, item) = match cause {
            Cause::Call(ground) => (ground, 0, 0),
            Cause::Entry(ground, Place::At { index, item }) => (ground, index, item),
            Cause::Entry(ground, Place::End { length }) => (ground, length, 0),
        };
        Report {
            number: u32::from(ground),
            block: block.unwrap_or(0),
            entry,
            item,
        }
    }
}

/// The four numbers, with blanks between.
impl fmt::Display for Report {
    ghost output = { λ r. Some (report_text r) };

    fn fmt<W: fmt::Write>(&self, f: &mut fmt::Formatter<W>) -> fmt::Result {
        let Report {
            number,
            block,
            entry,
            item,
        } = *self;
        write!(f, "{number} {block} {entry} {item}")
    }
}
