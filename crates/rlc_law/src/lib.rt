//! The laws of one hop of RLC in acknowledged mode (TS 38.322), over every run of its transmitter and its receiver.
//!
//! A law has no code. It is the contract of a function with an empty body, over the definitions of rlc_model; specs/ has its
//! statement.
#![tactic(auto)]

mod hop_laws;
mod outcome_laws;
mod port_laws;
mod receiver_laws;
mod transmitter_laws;

pub use hop_laws::{
    hop_goes_on, hop_is_reliable, numbers_are_bounded, pdus_are_pieces, pdus_are_read_as_sent,
    sdus_are_kept_as_given, status_is_true, what_is_complete_was_heard,
};
pub use outcome_laws::{receiver_has_one_outcome, transmitter_has_one_outcome};
pub use port_laws::{
    air_passes_what_is_fresh, grant_moves_one_hop, hearing_moves_one_hop,
    open_sides_are_those_of_ports, port_goes_on, ports_go_on_apart, side_moves_one_hop,
};
pub use receiver_laws::{receiver_status_is_true, receiver_stays_sound};
pub use transmitter_laws::{
    transmitter_confirms_what_is_received, transmitter_sends_within_its_grant,
};
