//! The U2N relay UE (TS 38.300 clause 16.12, TS 38.351): it hears SDUs on PC5 and Uu channels, reads their SRAP headers, and
//! sends them on over the next hop as they came.
#![tactic(auto)]

mod entering;
mod hearing;
mod opening;
mod ports;
mod pulling;
mod purging;
mod queue;
mod relay;
mod routing;
mod standing;
mod switching;

pub use node_model::{NodeHeard, Parcel, PortGrant, PullReply, PushReply};
pub use ports::{EgressPort, IngressPort};
pub use queue::ParcelQueue;
pub use relay::Relay;
