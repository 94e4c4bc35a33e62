//! The book's records, which lie in lists that the caller lends to each call: what they hold, and how names are found there.
#![tactic(auto)]

pub mod find;
pub mod guard;
pub mod lists;
pub mod sound;
