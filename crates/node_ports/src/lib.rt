//! The sides of ports that a node of a sidelink relay chain has (TS 38.300 clause 16.12), be it a remote, the relay
//! or the gNB. Each side that is open has an RLC entity in acknowledged mode (TS 38.322).
#![tactic(auto)]

mod discards;
mod entity;
mod ids;
mod opening;
mod order;
mod ports;
mod side;
mod switching;

pub use discards::{route_discard, srap_discard};
pub use ids::attached;
pub use order::{PortRow, row_of};
pub use ports::Ports;
