//! A remote: the end of its own bearers (TS 38.300 clause 16.12.2.1).
#![tactic(auto)]

mod remote_end;

pub use node_end::{KeyList, NodeHeard, PortGrant};
pub use remote_end::RemoteEnd;
