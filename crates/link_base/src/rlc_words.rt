// What RLC entities and the nodes around them tell each other.
use crate::{Key, LocalId};

/// What an RLC transmitter keeps beside an SDU and gives back once the SDU is confirmed.
#[derive(Clone, Copy, Debug, PartialEq, Eq)]
pub struct Tag {
    /// The bearer, in the way of the SDU.
    pub key: Key,
    /// The COUNT of a PDCP data PDU at an end; None for a status report, and at the relay.
    pub count: Option<u32>,
    /// The local identity in the SDU's SRAP header; None on a direct path.
    pub ue: Option<LocalId>,
}

/// What the expiry of an RLC timer did.
#[derive(Clone, Copy, Debug, PartialEq, Eq)]
pub enum Expired {
    /// The timer ran, and its rules were carried out.
    Done,
    /// The same, and the retransmission count of this number came to its threshold.
    Marked(u64),
    /// The timer wasn't running, and nothing changed.
    Stopped,
}
