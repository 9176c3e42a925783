//! Path switches of the remotes (TS 38.300 clause 16.12.6): each remote has one plan at a time, plans follow each other in their
//! epochs, and each of the three nodes applies a plan once.
#![tactic(auto)]

mod answers;
mod paths;
mod plans;
mod rows;

pub use answers::{Applied, ApplyFault, PlanFault};
pub use chain_model::Plan;
pub use plans::Plans;
