//! The program `vcgen` on an input at each limit of a book, and one past it.
//! A crate has one input to be run on, so `vcgen` and `refusals` have the same `main`, each with its own input.
#![tactic(auto)]

use std::process::ExitCode;

fn main(rt: HostRuntime) -> ExitCode {
    console::program::run(rt)
}
