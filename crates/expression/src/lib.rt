//! The check of expression pages: entry by entry, types waiting in the holder.
#![tactic(auto)]

pub mod check;
pub mod scope;
mod waiting;
