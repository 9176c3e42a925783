//! One hop of RLC in acknowledged mode (TS 38.322), as the two sides of a port have it: the PDUs between them, which of
//! these a side still hears, and what a side, a transmitter and a receiver together, sends and hears.
#![tactic(auto)]

mod air;
mod hop;
mod passing;

pub use air::Air;
pub use hop::{hop_expire, hop_grant, hop_hear};
pub use passing::{may_pass, side_fault};
pub use rlc_model::{AirFault, HopGrant, HopHeard, Pdu};
