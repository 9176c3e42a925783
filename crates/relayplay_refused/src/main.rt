//! The program `relayplay` again, so that a second run of it is stored: one that ends with status 1.
#![tactic(auto)]

use player::standard_program;
use std::process::ExitCode;

fn main(rt: HostRuntime) -> ExitCode {
    standard_program(&rt)
}
