//! The laws of the book of a run: how what a history tells of a bearer, what was submitted, handed up and confirmed, agrees with
//! what the PDCP sender and the PDCP receiver of the chain hold. They hold on every path and of every line.
//!
//! A law has no code. It is the contract of a function with an empty body, over the definitions of chain_model; specs/ has its
//! statement.
#![tactic(auto)]

mod laws;

pub use laws::{
    an_honest_run_keeps_the_book, confirmations_have_a_cause, confirmed_numbers_are_told,
    hand_ups_are_told, receivers_have_what_was_heard, runs_pass_line_by_line,
    senders_keep_the_book,
};
