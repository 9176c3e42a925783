//! The bearers that end at a node, a remote or the gNB: of each the PDCP entity's transmitting side of one way and its
//! receiving side of the other, and which status reports are wanted (TS 38.323 clauses 5.2, 5.3 and 5.4).
#![tactic(auto)]

mod bearer;
mod bearers;
mod search;
mod switching;

pub use bearer::back;
pub use bearers::Bearers;
