//! The transmitting side of the PDCP entity of an AM DRB (TS 38.323 clauses 5.1.2, 5.2.1, 5.3 and 5.4.2).
#![tactic(auto)]

mod kept_sdus;
mod pdcp_tx;
mod report;

pub use pdcp_model::{ReportBeyond, SubmitFault};
pub use pdcp_tx::PdcpTx;
