// What goes over the air between the two sides of a port, and what the calls that join a transmitter and a receiver answer.
use crate::{Heard, StatusHeard};
use link_base::{Bytes, PortName, Side, Timer, Way};
use rlc_pdu::AmdFault;
use rlc_status::StatusFault;

/// An RLC PDU on its way from one side of a port to the other.
#[derive(Debug, Drop)]
pub struct Pdu {
    /// The port that it goes over.
    pub port: PortName,
    /// The way in which it goes.
    pub way: Way,
    /// How often the sender's entities of this port were made anew before it was sent.
    pub epoch: u32,
    /// Whether it is a STATUS PDU; else it is a data PDU.
    pub status: bool,
    /// The RLC number of a data PDU, or the number that a STATUS PDU's ACK_SN stands for.
    pub number: u64,
    /// Its octets.
    pub bytes: Bytes,
}

/// Why a PDU on the air isn't heard.
#[derive(Clone, Copy, Debug, PartialEq, Eq)]
pub enum AirFault {
    /// The side that it goes to is closed, or stands in another epoch than the PDU.
    Gone,
    /// Its number lies too far below `next`: RX_Next of the receiver that would hear a data PDU, or TX_Next_Ack of the
    /// transmitter that would hear a STATUS PDU.
    Stale { number: u64, next: u64 },
}

/// What one side of a port does that may send one PDU of so many octets (TS 38.322 clause 5.3.4: a STATUS PDU comes
/// before a data PDU).
#[derive(Debug, Drop)]
pub enum HopGrant {
    /// It sends these octets: a STATUS PDU whose ACK_SN stands for the number, or a data PDU of this number.
    Sent {
        status: bool,
        number: u64,
        bytes: Bytes,
    },
    /// No STATUS PDU is due, and no byte waits; nothing changed.
    Idle,
    /// The PDU that is next has at least this many octets; nothing changed.
    Small {
        need: u32,
    },
}

/// What became of octets that one side of a port heard.
#[derive(Debug, Drop)]
pub enum HopHeard {
    /// They are a data PDU, and its receiver answered this.
    Amd(Heard),
    /// They are a STATUS PDU, and its transmitter answered this.
    Status(StatusHeard),
    /// There is no octet, or D/C is 1 and they are no data PDU for this reason; nothing changed.
    BadAmd(AmdFault),
    /// D/C is 0 and they are no STATUS PDU for this reason, which is never want of memory; nothing changed.
    BadStatus(StatusFault),
}

/// What brings a port nearer to having nothing left to do.
#[derive(Clone, Copy, Debug, PartialEq, Eq)]
pub enum Move {
    /// The side that sends in this way is granted one PDU, and the other side hears it at once.
    Grant(Way),
    /// This timer of this side runs out.
    Expire(Side, Timer),
}
