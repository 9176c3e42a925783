//! The chain of nodes refines the chain of items: behind each line stand items where the PDUs, slots, queues and ends of the
//! nodes say, and what the line did is what steps of items do (TS 38.300 clause 16.12, TS 38.351 clause 5.3).
//!
//! A ghost stands for a chain: a chain of items that steps reach, a layout of where they stand, the ports that were opened,
//! and the octets of each item. It refines a line where it goes on by steps to one that stands for the chain behind the line.
//!
//! A law has no code. It is the contract of a function with an empty body, over the definitions of this crate; specs/ has its
//! statement.
#![tactic(auto)]

mod fed_laws;
mod foundations;
mod laws;
mod run_laws;

pub use fed_laws::runs_are_fed;
pub use laws::{lines_go_by_item_steps, opened_chains_stand};
pub use run_laws::{reports_tell_all, runs_stand, steps_go_by_item_steps};
