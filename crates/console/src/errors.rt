//! Why the program ends early.
use arguments::ArgumentError;
use lines::errors::LineError;
use std::alloc::AllocError;
use std::io;
use thiserror::Error;

/// Why the program ends early.
#[derive(Debug, Drop, Error)]
pub enum Failure {
    /// The arguments are not those of the program.
    #[error(transparent)]
    Arguments(#[from] ArgumentError),
    /// The input cannot be read.
    #[error("cannot read the input: {0}")]
    Input(io::Error),
    /// A line is no call that the program can make. Lines are counted from 1.
    #[error("line {line}: {error}")]
    Line { line: usize, error: LineError },
    /// The answers cannot be written.
    #[error("cannot write the answers: {0}")]
    Output(io::Error),
    /// There is no memory.
    #[error("no memory")]
    Memory(#[from(alloc)] AllocError),
}
