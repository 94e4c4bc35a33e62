//! The lines of the program: words of digits as numbers, and numbers as calls.
#![tactic(auto)]

pub mod calls;
pub mod errors;
#[cfg(test)]
mod tests;
pub mod words;
