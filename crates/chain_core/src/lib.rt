//! The whole chain of a sidelink relay (TS 38.300 clause 16.12), carried out line by line: its nodes, what is on the air between
//! them, and what each line of a script does.
//!
//! The rules stand in the nodes. What is here finds the node that a line speaks of, and tells its answer in a script's words.
#![tactic(auto)]

mod chain;
mod confirming;
mod keys;
mod lines;
mod nodes;
mod telling;

pub use chain::Chain;
