//! The laws of one node: each of its steps has one outcome.
//!
//! A law has no code. It is the contract of a function over the definitions of node_model; specs/ has its statement.
#![tactic(auto)]

mod outcome_laws;

pub use outcome_laws::{
    a_pdcp_pdu_has_one_answer, a_port_has_one_outcome, an_sdu_leads_to_one_target,
    feeding_has_one_outcome, hearing_has_one_outcome, relaying_has_one_outcome,
};
