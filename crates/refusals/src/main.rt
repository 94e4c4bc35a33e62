//! The program `vcgen` on an input with every refusal that a declaration can get.
//! A crate has one input to be run on, so `vcgen` and `limits` have the same `main`, each with its own input.
#![tactic(auto)]

use std::process::ExitCode;

fn main(rt: HostRuntime) -> ExitCode {
    console::program::run(rt)
}
