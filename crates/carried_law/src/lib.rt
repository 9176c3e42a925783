//! The laws of what a run sends: its data PDUs are pieces of SDUs that its ends gave or its relay heard, and numbers begin in order.
//!
//! A law has no code. It is the contract of a function that does nothing, over the definitions of chain_model; specs/ has its
//! statement. What a body calls are the laws on which its own law stands.
#![tactic(auto)]

mod foundations;
mod laws;

pub use foundations::{laws_of_ends, laws_of_hops};
pub use laws::{runs_are_carried, sent_numbers_begin_in_order, sent_pdus_are_pieces};
