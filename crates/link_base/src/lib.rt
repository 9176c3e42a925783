//! What all layers share: names, byte strings and lists, want of memory, limits, and the number
//! that a sequence number stands for.
#![tactic(auto)]

mod bytes;
mod deduced;
mod discard;
mod item_list;
mod limits;
mod memory;
mod names;
mod rlc_words;

pub use bytes::{Bytes, copy_bytes};
pub use deduced::{near, one_number_is_near};
pub use discard::Discard;
pub use item_list::{ItemList, NumberList, SduList};
pub use limits::{COUNT_END, LONGEST_PDCP_SDU, LONGEST_RLC_SDU};
pub use memory::Memory;
pub use names::{
    Chan, Drb, Goal, Key, LocalId, Node, Place, PortName, Remote, Side, SnSize, Timer, Way,
};
pub use rlc_words::{Expired, Tag};
