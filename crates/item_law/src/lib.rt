//! The law of one copy: of each COUNT of an acknowledged bearer there is one copy that may still arrive, or it was heard, or it
//! will be given again; over every order of losses, purges, path switches and reports (TS 38.300 clause 16.12.6, TS 38.323
//! clauses 5.1.2 and 5.4.1).
//!
//! The chain is seen from afar here. An item is a copy of an SDU under its COUNT, or of a status report, that an end gave to one
//! of its transmitters. It stands for the SDU in that transmitter and for all its PDUs together, and then in turn for what is in
//! a slot, in a queue and in the transmitter of the second hop. There are no octets, segments, timers and RLC STATUS PDUs: that
//! a hop hands on what it was given, once and as given, or loses it where its port closes, is the law of a hop.
//!
//! A remote is clean as long as nothing was injected on its PC5 links. The laws hold of clean remotes, and where they say so of
//! all remotes, whatever the others inject and whichever Uu channels fail.
//!
//! A law has no code. It is the contract of a function with an empty body, over the definitions of this crate; specs/ has its
//! statement.
#![tactic(auto)]

mod hand_up_laws;
mod identity_laws;
mod one_copy_laws;

pub use hand_up_laws::{
    counts_are_within_the_window, items_arrive_for_their_owner,
    only_unknown_identities_are_discarded, what_was_submitted_is_handed_up,
};
pub use identity_laws::{
    identities_are_apart, open_plans_have_given_nothing, planned_identities_are_free,
    what_is_held_is_its_owners,
};
pub use one_copy_laws::{
    a_purged_copy_is_given_again, confirmed_counts_were_heard, counts_have_one_live_copy,
    given_counts_arrive, places_are_next, waiting_senders_have_nothing_live,
};
