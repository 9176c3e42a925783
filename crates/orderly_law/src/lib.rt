//! The laws of what each run keeps in order: the sides of ports that nodes have, the tables' rows, receivers and identities; so
//! a run has one outcome.
//!
//! A law has no code. It is the contract of a function that does nothing, over the definitions of chain_model; specs/ has its
//! statement. What a body calls are the laws on which its own law stands.
#![tactic(auto)]

mod laws;

pub use laws::{
    hand_ups_are_exact, runs_have_one_outcome, runs_keep_chains_orderly, sides_are_found,
};
