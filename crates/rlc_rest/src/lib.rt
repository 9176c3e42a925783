//! What keeps one hop of RLC in acknowledged mode (TS 38.322) going, and what it has still to do.
//!
//! A law has no code. It is the contract of a function with an empty body, over the definitions of rlc_model and rlc_law;
//! specs/ has its statement.
#![tactic(auto)]

mod laws;

pub use laws::{
    next_moves_end, poll_timer_runs, sdus_are_counted, transmitter_progresses, what_is_left_falls,
    what_is_left_is_bounded,
};
