//! The laws of the receiving side of a PDCP entity, over every list of data PDUs that it hears (TS 38.323 clauses 5.2.2.1 and
//! 5.4.1).
//!
//! A law has no code. It is the contract of a function with an empty body, over the definitions of pdcp_model; specs/ has
//! its statement.
#![tactic(auto)]

mod hand_up_laws;
mod receiver_laws;

pub use hand_up_laws::{hand_up_has_one_list, what_was_submitted_goes_up};
pub use receiver_laws::{
    hearing_has_one_answer, reports_are_decided, reports_name_what_was_heard,
    what_goes_up_is_the_hand_up,
};
