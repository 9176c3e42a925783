// What the calls of an RLC transmitter answer.
use link_base::{Bytes, ItemList, NumberList, Tag};

/// Tags in the order of their SDUs' numbers.
pub type TagList = ItemList<Tag>;

/// What a transmitter does that may send one PDU of so many octets (TS 38.322 clause 5.2.3.1).
#[derive(Debug, Drop)]
pub enum TxGrant {
    /// It sends the bytes of a data PDU, which has a piece of the SDU of this number.
    Sent { number: u64, bytes: Bytes },
    /// No byte waits for retransmission or for its first transmission; nothing changed.
    Idle,
    /// The PDU that is next has at least this many octets; nothing changed.
    Small { need: u32 },
}

/// What became of a STATUS PDU that a transmitter heard (TS 38.322 clauses 5.2.3.1 and 5.3.2).
#[derive(Debug, Drop)]
pub enum StatusHeard {
    /// It was carried out: the tags of the SDUs newly confirmed, and the numbers whose retransmission count came to its
    /// threshold, both rising by number.
    Acked { tags: TagList, marks: NumberList },
    /// The number that its ACK_SN stands for lies below TX_Next_Ack, which is `next`; nothing changed.
    Old { ack: u64, next: u64 },
    /// It speaks of what was never sent: its ACK_SN, and one more than the greatest number of which a byte was sent;
    /// nothing changed.
    Beyond { ack: u32, sent: u64 },
}
