//! One node of a sidelink relay chain (TS 38.300 clause 16.12), be it a remote, the relay or the gNB: what it holds, and what
//! each step at it does.
//!
//! The three kinds of nodes differ only in which of their lists are empty, so a rule stands once for all of them: a side of a
//! port sends and hears, an SDU is led to a bearer or on to the next hop, transmitters are fed, a plan is applied. The
//! definitions stand in specs/, where the contracts of the nodes and the definitions of the chain cite them. The types here are
//! what the calls of a node answer.
#![tactic(auto)]

mod answers;
mod laws;
mod parcel;
mod places;

pub use answers::{NodeHeard, PortGrant, PullReply, PushReply};
pub use laws::one_row_has_a_name;
pub use parcel::Parcel;
pub use places::{names_are_told_apart, rows_are_set_by_name};
