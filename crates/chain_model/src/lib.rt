//! The whole chain of a sidelink relay (TS 38.300 clause 16.12): its remotes, its relay and its gNB, what is on the air between
//! them, what each line of a script does, and what a history of lines says by itself.
//!
//! The definitions stand in specs/. The type here is the one of them that the calls of the chain hand over. The functions are
//! worked runs: contracts over the definitions, with no code.
#![tactic(auto)]

mod laws;
mod places;
mod plan;

pub use laws::{a_path_is_switched, an_sdu_goes_direct, an_sdu_goes_over_the_relay};
pub use places::{ends_are_set_by_key, nodes_are_set_by_name};
pub use plan::Plan;
