//! Where the items of a chain stand: the copies of SDUs and of status reports of item_law as what is in the hops, the slots and
//! the queues of a chain of sidelink relays (TS 38.300 clause 16.12, TS 38.351 clause 5.3).
//!
//! A station is the hop of a port in one way and one epoch, the slot of an ingress port of the relay, or the queue of an egress
//! port. Each has a box: the items that ever came there in order, and which of them went on. A layout has all boxes, and stands
//! for items at their spots. A hop's numbers are the positions of its box.
//!
//! A law has no code. It is the contract of a function with an empty body, over the definitions of this crate; specs/ has its
//! statement.
#![tactic(auto)]

mod laws;

pub use laws::{items_go_from_station_to_station, numbers_leave_as_they_complete};
