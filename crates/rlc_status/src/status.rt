// What a STATUS PDU holds.
use link_base::ItemList;

/// An element of a STATUS PDU, which names SDUs of which something is missing (TS 38.322 clauses 6.2.2.5 and 6.2.3).
#[derive(Clone, Copy, Debug, PartialEq, Eq)]
pub struct Nack {
    /// NACK_SN: the sequence number of the first SDU named.
    pub sn: u32,
    /// SOstart and SOend: the places of the first and the last missing byte, with 65,535 as SOend for the SDU's end.
    /// None where all bytes are missing.
    pub part: Option<(u16, u16)>,
    /// NACK range: how many consecutive SDUs are named, from 1 to 255. None for one.
    pub range: Option<u8>,
}

/// Elements of a STATUS PDU in order.
pub type NackList = ItemList<Nack>;

/// The fields of a STATUS PDU (TS 38.322 clauses 6.2.2.5 and 6.2.3).
#[derive(Debug, Drop)]
pub struct Status {
    /// ACK_SN: the sequence number of the first SDU of which nothing is said.
    pub ack: u32,
    /// The elements.
    pub nacks: NackList,
}
