//! A routine's formula in a sink: what the entry that the sink answered says of the routine's runs.
#![tactic(auto)]

ghost use Rattle.formula.specs.InSinks.{Holds};

use sink::Sink;

/// In every sink, new or used, whose own steps keep the laws of a sink: the entry of a formula that was told along
/// those steps is false only where a run goes wrong, and false in every reading of a run that does; there are at most T
/// tells; and a sink that takes every code and has T to spare refuses none of them.
pub fn formulas_hold<S: Sink>(sink: &S)
    ensures { Holds S.Sink.watches S.Sink.entries S.Sink.value S.Sink.takes S.Sink.spare S.Sink.steps }
{}
