//! The tables that the lines of a script declare: their rows are in order, name what is declared, and map each bearer that may
//! go over the relay.
//!
//! A law has no code. It is the contract of a function that does nothing, over the definitions of chain_model; specs/ has its
//! statement. What a body calls are the laws on which its own law stands.
#![tactic(auto)]

mod laws;

pub use laws::{relayed_remotes_are_mapped, tables_are_mapped, tables_are_sound};
