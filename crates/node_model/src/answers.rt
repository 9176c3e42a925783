// What the calls of a node answer.
use link_base::{Discard, Key, PortName, SduList};
use rlc_model::{AirFault, HopGrant, HopHeard};

/// What became of a PDU that came to a node.
#[derive(Debug, Drop)]
pub enum NodeHeard {
    /// The tables give the node no such port; nothing changed.
    NoPort,
    /// The port is closed, or the PDU is of another epoch, or too old; nothing changed.
    Air(AirFault),
    /// It is a data PDU, and the ingress slot of its port is full; nothing changed.
    Held,
    /// It completed an SDU, which is now in the ingress slot and goes on over this port.
    Slot(PortName),
    /// It completed an SDU of this bearer, which is handed up, and behind it those that waited for it; there is at least one.
    Up { key: Key, sdus: SduList },
    /// It completed an SDU that waits for one with a lower COUNT.
    Waiting,
    /// It completed an SDU whose COUNT was handed up before.
    Old,
    /// It completed an SDU whose COUNT waits already.
    Twice,
    /// It completed an SDU with an SN that stands for no COUNT.
    NoCount,
    /// It completed a status report about this key, which the key's sender took; so many of its SDUs were confirmed
    /// before, the first ones without a gap.
    Report { key: Key, confirmed: u64 },
    /// It completed an SDU that goes no further.
    Discard(Discard),
    /// It completed no SDU: this is the answer of the port's entity. It is never `Amd` with `Complete`.
    Hop(HopHeard),
}

/// What a node did that was granted one PDU over a port.
#[derive(Debug, Drop)]
pub enum PortGrant {
    /// The port isn't open here.
    NoPort,
    /// The answer of the port's entity, and the epoch in which it stands.
    Hop { epoch: u32, grant: HopGrant },
}

/// What the relay did that was to move the SDU in an ingress slot into the queue of its egress.
#[derive(Clone, Copy, Debug, PartialEq, Eq)]
pub enum PushReply {
    /// It is at the back of the queue of this port.
    Done(PortName),
    /// The relay has no such port, or it isn't open; nothing changed.
    NoPort,
    /// The slot is empty.
    Nothing,
    /// The queue holds as many as it may; nothing changed.
    QueueFull,
}

/// What the relay did that was to give the SDU at the front of a queue to the transmitter of its port.
#[derive(Clone, Copy, Debug, PartialEq, Eq)]
pub enum PullReply {
    /// The transmitter has it under this number.
    Done(u64),
    /// The relay has no such port, or it isn't open; nothing changed.
    NoPort,
    /// The queue is empty.
    Empty,
    /// The transmitting window is full; nothing changed.
    Stalled,
}
