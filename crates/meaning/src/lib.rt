//! What a routine's formula means: it is false exactly where a run goes wrong.
#![tactic(auto)]

ghost use Rattle.meaning.specs.Examples.{Examples, NotVacuous};
ghost use Rattle.meaning.specs.Promise.{Promises};

use world::Carrier;

/// Whatever the values are, the formula of a sound routine is false exactly where a run of it goes
/// wrong, every run has a fitting reading, where the formula is true in all of them no run goes
/// wrong, its tells are lawful, and there are at most T of them.
pub fn formulas_mean_runs<C: Carrier>(carrier: &C)
    ensures { Promises C.Carrier.Value }
{}

/// Whatever the values are, there are a sound routine whose formula is false in every reading and
/// one whose formula is true in every reading.
pub fn formulas_differ<C: Carrier>(carrier: &C)
    ensures { Examples C.Carrier.Value }
{}

/// Over the truth values, every reading of some world fits every routine, and formulas differ.
pub fn nothing_is_vacuous()
    ensures { NotVacuous }
{}
