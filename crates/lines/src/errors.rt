//! Why a line is no call.
use crate::calls::CallKind;
use thiserror::Error;

/// What is wrong with a line. Words are counted from 1.
#[derive(Clone, Copy, Debug, PartialEq, Eq, Error)]
pub enum LineError {
    /// A word has something else than digits.
    #[error("word {word} is not a number")]
    NotNumber { word: usize },
    /// A word is a number above 4,294,967,295.
    #[error("word {word} is above 4294967295")]
    TooLarge { word: usize },
    /// The line has no number.
    #[error("no call")]
    NoCall,
    /// There is no call of this number.
    #[error("unknown call {number}")]
    UnknownCall { number: u32 },
    /// Numbers that the call takes are absent.
    #[error("{call}: missing arguments")]
    MissingArguments { call: CallKind },
    /// There are more numbers than the call takes.
    #[error("{call}: surplus arguments")]
    SurplusArguments { call: CallKind },
    /// The call's argument must be 0.
    #[error("{call}: the argument is not 0")]
    NotZero { call: CallKind },
    /// The book's state does not take the call.
    #[error("{call}: the book's state does not take it")]
    NotTaken { call: CallKind },
    /// The library does not have the call yet.
    #[error("{call} is not available yet")]
    NotAvailable { call: CallKind },
}
