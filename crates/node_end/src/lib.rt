//! The end of bearers at a node, a remote or the gNB: its sides of ports, and the PDCP entities over them (TS 38.300 clause
//! 16.12.2.1). A bearer goes over its direct port, or with a SRAP header over the channels of the relay (TS 38.351).
#![tactic(auto)]

mod end;
mod feeding;
mod hearing;
mod node;
mod routing;
mod served;
mod to_feed;

pub use end::{End, KeyList};
pub use node_model::{NodeHeard, PortGrant};
