//! The receiving side of the PDCP entity of an AM DRB: in-order hand-up and status reports (TS 38.323 clauses 5.2.2.1, 5.4.1
//! and 7.1).
#![tactic(auto)]

mod receiver;
mod store;

pub use pdcp_model::PdcpHeard;
pub use receiver::PdcpRx;
