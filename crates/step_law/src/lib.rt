//! The law that a step of the chain has one outcome.
//!
//! A law has no code. It is the contract of a function over the definitions of chain_model; specs/ has its statement.
#![tactic(auto)]

mod laws;

pub use laws::{a_step_has_one_outcome, worked_chains_are_orderly};
