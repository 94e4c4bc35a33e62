//! Checks declarations of BoogiePL that are handed in as lines of numbers.
//! A crate has one input to be run on, so `refusals` and `limits` have the same `main`, each with its own input.
#![tactic(auto)]

use std::process::ExitCode;

fn main(rt: HostRuntime) -> ExitCode {
    console::program::run(rt)
}
