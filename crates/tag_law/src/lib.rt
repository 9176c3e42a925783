//! Whose data PDUs the transmitters of direct ports keep, in every run of the chain (TS 38.323 clause 5.3).
//!
//! A law has no code. It is the contract of a function that does nothing, over the definitions of chain_model; specs/ has its
//! statement. What a body calls are the laws on which its own law stands.
#![tactic(auto)]

mod laws;

pub use laws::{
    direct_paths_are_open, direct_ports_keep_their_tags, direct_ports_keep_unconfirmed,
};
