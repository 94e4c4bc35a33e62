//! The command-line program: lines of numbers in, calls of the library, and lines of answers out.
#![tactic(auto)]

pub mod errors;
pub mod numbers;
pub mod outcomes;
pub mod program;
pub mod session;
