// What a line brings about, beside its reply.
use crate::Reply;
use link_base::{Bytes, ItemList, Key, PortName, Way};

/// Something that a line brought about.
#[derive(Debug, Drop)]
pub enum Event {
    /// `heard T REPLY`: a burst treated the PDU of a ticket.
    Heard {
        /// The ticket.
        ticket: u64,
        /// The reply that it got.
        reply: Reply,
    },
    /// `left T`: a burst left the PDU of a ticket on the air.
    Left {
        /// The ticket.
        ticket: u64,
    },
    /// `maxretx PORT WAY N`: an SDU's RETX_COUNT came to maxRetxThreshold (TS 38.322 clause 5.3.2); it goes on to be sent again.
    MaxRetx {
        /// The port whose transmitter sent it.
        port: PortName,
        /// The way in which it was sent.
        way: Way,
        /// The SDU's RLC number.
        number: u64,
    },
    /// `up R D WAY HEX`: an SDU was handed up at the receiving end of a key.
    Up {
        /// The bearer and the way.
        key: Key,
        /// The SDU.
        sdu: Bytes,
    },
    /// `conf R D WAY N`: the confirmed number of a key rose.
    Conf {
        /// The bearer and the way.
        key: Key,
        /// How many of its first SDUs are confirmed.
        confirmed: u64,
    },
    /// `rep R D WAY`: a report about a key was given to RLC.
    Rep {
        /// The bearer and the way.
        key: Key,
    },
}

/// The events of a line, in the order in which they are printed.
pub type EventList = ItemList<Event>;
