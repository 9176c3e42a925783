//! Plays SDUs over one acknowledged hop whose air loses PDUs, to see what the hop costs, and whether it sends what a plain
//! one sends: bench/ compares the two.
//!
//! Its words are `12` or `18`, the bits of a sequence number; how many SDUs; their bytes; the octets of each grant; how many
//! of 1,000 PDUs are lost; how many SDUs may be outstanding; after how many grants the receiver's timers run out; and `sum`,
//! where a sum over all octets is wanted. The status is 0, or 1 where the hop did what it must not, 2 where a word is
//! wrong, 5 where memory was refused.
#![tactic(auto)]

mod case;
mod run;
mod tally;

use crate::case::case_of;
use crate::run::{Stop, play};
use crate::tally::Tally;
use std::env;
use std::process::ExitCode;

const WRONG: u8 = 1;

const WRONG_WORD: u8 = 2;

const NO_MEMORY: u8 = 5;

fn main(rt: HostRuntime) -> ExitCode {
    let alloc = rt.alloc();
    let mut words = Vec::new(alloc);
    if let Ok(args) = env::args(&rt) {
        for word in args.skip(1) {
            if words.push(word).is_err() {
                return ExitCode::from(NO_MEMORY);
            }
        }
    }
    let Some(case) = case_of(&words) else {
        let _ = eprintln!(rt; "words: 12|18 SDUS BYTES GRANT LOST OUTSTANDING TURN [sum]");
        return ExitCode::from(WRONG_WORD);
    };
    match play(alloc, case) {
        Ok(tally) => {
            print_tally(&rt, tally);
            ExitCode::from(0)
        }
        Err(Stop::Memory) => ExitCode::from(NO_MEMORY),
        Err(Stop::Wrong) => ExitCode::from(WRONG),
    }
}

fn print_tally(rt: &HostRuntime, tally: Tally) {
    let Tally {
        up,
        pdus,
        statuses,
        marks,
        sum,
    } = tally;
    let _ = print!(rt; "{up} SDUs up, {pdus} data PDUs, {statuses} STATUS PDUs, {marks} marks");
    match sum {
        Some(sum) => {
            let _ = println!(rt; ", sum {sum}");
        }
        None => {
            let _ = println!(rt; "");
        }
    }
}
