//! Plays a script from standard input, and writes its trace to standard output.
#![tactic(auto)]

use player::standard_program;
use std::process::ExitCode;

fn main(rt: HostRuntime) -> ExitCode {
    standard_program(&rt)
}
