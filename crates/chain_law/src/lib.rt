//! The laws of runs of the whole chain (TS 38.300 clause 16.12): its remotes, its relay and its gNB, over every script.
//!
//! A law has no code. It is the contract of a function that does nothing, over the definitions of node_model and chain_model;
//! specs/ has its statement. What a body calls are the laws on which its own law stands.
#![tactic(auto)]

mod call_laws;
mod foundations;
mod rlc_laws;

pub use call_laws::calls_keep_what_was_given;
pub use foundations::laws_of_ports;
pub use rlc_laws::{
    a_side_changes_alone, entities_are_those_of_ports, numbers_stay_within_tickets,
    sdus_can_be_taken, what_is_heard_was_given,
};
