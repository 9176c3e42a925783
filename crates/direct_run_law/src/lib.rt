//! Runs of the whole chain on direct ports alone (TS 38.300 clause 16.12): each such run is honest to each bearer, and so it
//! keeps the bearer's book.
//!
//! A law has no code. It is the contract of a function that does nothing, over the definitions of chain_model and book_law;
//! specs/ has its statement. What a body calls are the laws on which its own law stands.
#![tactic(auto)]

mod foundations;
mod laws;

pub use laws::{
    direct_ports_keep_their_own_tags, direct_runs_are_honest, the_book_is_kept_on_direct_ports,
};
