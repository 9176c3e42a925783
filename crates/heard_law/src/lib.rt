//! The laws of what a history tells of a chain: what is on the air and what of it is heard, what nodes attach, and in which epoch
//! the sides of ports are.
//!
//! A law has no code. It is the contract of a function with an empty body, over the definitions of chain_model; specs/ has its
//! statement.
#![tactic(auto)]

mod foundations;
mod laws;

pub use laws::{
    heard_tickets_are_told, histories_tell_the_chain, orderly_hand_ups_are_exact,
    receivers_have_what_was_delivered, reports_are_true, what_comes_is_delivered,
};
