//! Runs whose chains stand for items, on direct ports and over the relay, of several remotes that share its Uu channels (TS 38.300
//! clause 16.12): they keep the book of each bearer, no PDU is answered as one that is foreign, each COUNT has one copy whatever
//! paths are switched, and where the chain is quiet and no plan is open all was handed up.
//!
//! A law has no code. It is the contract of a function with an empty body, over the definitions of chain_model, book_law and
//! item_chain; specs/ has its statement. What a body calls are the laws on which its own law stands.
#![tactic(auto)]

mod foundations;
mod laws;
mod switching_laws;

pub use laws::{
    declared_tables_are_good, quiet_runs_hand_up_all, replies_that_never_come, runs_keep_the_book,
    standing_lines_are_honest,
};
pub use switching_laws::{
    applies_find_identities_free, counts_have_one_copy, discards_are_of_unattached_identities,
    numbers_are_within_windows, places_have_one_copy, plans_find_identities_free,
    settled_keys_hand_up_all,
};
