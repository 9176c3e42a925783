//! Sets of places of bytes in an RLC SDU, as of those that a receiver holds (TS 38.322 clause 5.2.3.2) and of those
//! that a transmitter has to send again (clause 5.3.2).
#![tactic(auto)]

mod ranges;
mod spans;

pub use spans::{Spans, same_places_same_set};
