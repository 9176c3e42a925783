//! The receiving side of an RLC entity in acknowledged mode (TS 38.322 clauses 5.2.3.2, 5.3.4, 7.1, 7.2 and 7.3).
#![tactic(auto)]

mod assembly;
mod polling;
mod reassembly;
mod receiver;
mod status;

pub use receiver::AmRx;
pub use rlc_model::{Heard, Made};
