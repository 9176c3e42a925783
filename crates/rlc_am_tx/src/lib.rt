//! The transmitting side of RLC in acknowledged mode (TS 38.322 clauses 5.2.3.1, 5.3.2 and 5.3.3).
#![tactic(auto)]

mod acknowledging;
mod am_tx;
mod beyond;
mod buffer;
mod elements;
mod kept_sdu;
mod naming;
mod pieces;
mod polling;
mod sending;

pub use am_tx::{AmTx, GiveFault};
pub use rlc_model::{StatusHeard, TagList, TxGrant};
