//! The gNB: the end of the bearers of all remotes (TS 38.300 clause 16.12.2.1).
#![tactic(auto)]

mod gnb_end;

pub use gnb_end::GnbEnd;
pub use node_end::{KeyList, NodeHeard, PortGrant};
