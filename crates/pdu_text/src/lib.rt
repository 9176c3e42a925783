//! The fields of one PDU as text: AMD PDUs and STATUS PDUs of RLC (TS 38.322 clause 6.2.2), data PDUs and status reports of
//! PDCP (TS 38.323 clause 6.2), SRAP data PDUs (TS 38.351 clause 6.2.2).
#![tactic(auto)]

mod amd;
mod form;
mod laws;
mod pdcp;
mod shown;
mod srap;
mod status;
mod text;

pub use form::{Form, form_of};
pub use laws::{all_explained, one_explanation};
pub use shown::push_shown;
