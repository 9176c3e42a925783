//! The AMD PDU: the data PDU of RLC in acknowledged mode (TS 38.322 clause 6.2.2.4), with SNs of 12 and of 18 bits.
#![tactic(auto)]

mod amd;
mod laws;

pub use amd::{AmdFault, AmdView, Si, decode_amd, encode_amd};
pub use laws::{one_reading, one_spelling, pdu_or_fault, reads_back, reserved_bits_are_free};
