//! The book while it is open: Declare takes declarations and clauses, and Settle closes it to more.
#![tactic(auto)]

mod add;
mod clauses;
mod declare;
mod kinds;
mod rules;
mod states;

pub use states::{Open, Settled};
