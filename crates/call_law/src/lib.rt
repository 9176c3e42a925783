//! The calls of the chain in a run: what they rely on is so behind every line of a script.
//!
//! A law has no code. It is the contract of a function that does nothing, over the definitions of chain_model and chain_core;
//! specs/ has its statement. What a body calls are the laws on which its own law stands.
#![tactic(auto)]

mod foundations;
mod laws;

pub use laws::{chains_can_be_opened, runs_have_declared_tables, steps_can_be_carried_out};
