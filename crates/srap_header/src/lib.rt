//! The header of SRAP data PDUs between a U2N remote UE, its U2N relay UE and the gNB, after TS 38.351 clause 6.2.
#![tactic(auto)]

mod laws;
mod pdu;

pub use laws::{
    no_fault_where_read, one_reading, one_spelling_without_reserved_bits, what_is_read_fits,
};
pub use pdu::{SrapFault, SrapView, read, write};
