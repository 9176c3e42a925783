//! The STATUS PDU of RLC in acknowledged mode (TS 38.322 clause 6.2.2.5): its format, both ways, and what it says.
#![tactic(auto)]

mod decoding;
mod encoding;
mod fault;
mod laws;
mod length;
mod status;

pub use decoding::decode_status;
pub use encoding::encode_status;
pub use fault::StatusFault;
pub use laws::{
    no_fault, one_fault, one_reading, one_spelling, read_or_refused, spelt_fits, worked_status_says,
};
pub use length::status_len;
pub use status::{Nack, NackList, Status};
