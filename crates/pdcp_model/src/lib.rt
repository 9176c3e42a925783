//! One PDCP entity of an AM DRB, its transmitting and its receiving side (TS 38.323): what each holds, what each step
//! does, and what is handed up of all that was heard.
//!
//! The definitions stand in specs/, where the contracts of the entities, their laws and the definitions of the chain cite
//! them. The types here are what the calls of the entities answer.
#![tactic(auto)]

mod answers;

pub use answers::{PdcpHeard, ReportBeyond, SubmitFault};
