//! Worlds and readings: what the codes of the language may mean.
#![tactic(auto)]

/// A type of values. Worlds are over a carrier, and any type at all may be one.
pub trait Carrier {
    ghost Value: { Type 0 };
}
