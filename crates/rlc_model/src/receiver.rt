// What the calls of an RLC receiver answer.
use link_base::Bytes;
use rlc_status::Status;

/// What became of a data PDU that a receiver heard (TS 38.322 clause 5.2.3.2.2).
#[derive(Debug, Drop)]
pub enum Heard {
    /// It brought something new of its SDU, which isn't complete yet.
    Stored,
    /// It made the SDU of this number complete.
    Complete(u64, Bytes),
    /// It brought nothing new.
    Repeat,
    /// No number near RX_Next has its sequence number.
    Outside,
    /// It disagrees with what is held about its SDU's end.
    Conflict,
}

/// What a receiver that was to make a STATUS PDU answers (TS 38.322 clause 5.3.4).
#[derive(Debug, Drop)]
pub enum Made {
    /// A STATUS PDU, and the number that its ACK_SN stands for.
    Full { status: Status, ack: u64 },
    /// Not even a STATUS PDU without elements has as few octets as were allowed; nothing changed.
    Small { need: u32 },
}
