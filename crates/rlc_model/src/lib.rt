//! One hop of RLC in acknowledged mode (TS 38.322): what its transmitter and its receiver hold, and what each step does.
//!
//! The definitions stand in specs/, where the contracts of the entities and the laws of a hop cite them. The types here
//! are what the calls of the entities answer.
#![tactic(auto)]

mod hop;
mod laws;
mod receiver;
mod transmitter;

pub use hop::{AirFault, HopGrant, HopHeard, Move, Pdu};
pub use laws::{a_lost_sdu_is_sent_again, segments_are_sent_and_heard};
pub use receiver::{Heard, Made};
pub use transmitter::{StatusHeard, TagList, TxGrant};
