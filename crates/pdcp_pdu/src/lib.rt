//! The PDUs of PDCP: data PDUs of data radio bearers and status reports, after TS 38.323 clause 6.2.
#![tactic(auto)]

mod decode;
mod encode;
mod laws;
mod pdu;

pub use decode::decode_pdcp;
pub use encode::encode_pdcp;
pub use laws::{
    no_fault_where_read, one_reading, one_spelling_without_reserved_bits, what_is_read_fits,
    worked_report,
};
pub use pdu::{PdcpFault, PdcpView};
