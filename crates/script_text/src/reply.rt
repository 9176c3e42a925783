// The replies to the lines of a script.
use link_base::{Bytes, Discard, Place, PortName, Remote};
use rlc_pdu::AmdFault;
use rlc_status::StatusFault;

/// The reply to a line.
#[derive(Debug, Drop)]
pub enum Reply {
    /// `ok`.
    Ok,
    /// `ok N`: the COUNT of an accepted SDU, an epoch, an RLC number, or how many SDUs were dropped.
    OkNumber(u64),
    /// `ok PORT`: the port to whose queue an SDU went.
    OkPort(PortName),
    /// `ok A B`: how many SDUs a burst pushed and pulled.
    OkTwo(u64, u64),
    /// `ok slot PORT`: the relay put an SDU with this egress into the slot.
    OkSlot(PortName),
    /// `ok up N`: so many SDUs were handed up.
    OkUp(u64),
    /// `ok acks N`: a STATUS confirmed so many more numbers.
    OkAcks(u64),
    /// `ok stored`: the RLC receiver stored a segment.
    OkStored,
    /// `ok repeat`: the PDU brought the RLC receiver nothing new.
    OkRepeat,
    /// `ok outside`: no number near RX_Next has the PDU's SN.
    OkOutside,
    /// `ok conflict`: the PDU contradicts what the RLC receiver holds.
    OkConflict,
    /// `ok waiting`: the SDU waits for one with a lower COUNT.
    OkWaiting,
    /// `ok old`: the SDU's COUNT was delivered before.
    OkOld,
    /// `ok twice`: the SDU is stored already.
    OkTwice,
    /// `ok nocount`: the SDU's sequence number stands for no COUNT.
    OkNoCount,
    /// `ok report`: the sender took a report.
    OkReport,
    /// `ok past`: the STATUS lies behind what is confirmed.
    OkPast,
    /// `ok beyond`: the STATUS speaks of what wasn't sent.
    OkBeyond,
    /// `nobearer`: the tables have no such bearer.
    NoBearer,
    /// `noremote`: the tables have no such remote.
    NoRemote,
    /// `noport`: there is no such port.
    NoPort,
    /// `noair`: no PDU with this ticket is on the air.
    NoAir,
    /// `notrelay`: the PDU's receiver isn't the relay.
    NotRelay,
    /// `notable`: a bearer of the remote has no channels on the relay path.
    NoTable,
    /// `noplan`: the remote has no open plan.
    NoPlan,
    /// `already`: the node has applied the plan.
    Already,
    /// `gone`: the receiving side is closed, or in another epoch than the PDU.
    Gone,
    /// `held`: the ingress slot of the relay is full.
    Held,
    /// `status`: the PDU is a STATUS PDU.
    IsStatus,
    /// `empty`: the SDU has no bytes, or the queue has no SDU.
    Empty,
    /// `long`: the SDU has more than 9,000 bytes.
    Long,
    /// `spent`: no COUNT is left.
    Spent,
    /// `full N`: as many SDUs as may be are unconfirmed; N of the key are confirmed.
    Full(u64),
    /// `airfull`: as many PDUs as may be are on the air.
    AirFull,
    /// `worn`: as many tickets as may be were made.
    Worn,
    /// `idle`: nothing is there to be sent.
    Idle,
    /// `small N`: the next PDU needs at least so many bytes.
    Small(u32),
    /// `air T data N HEX` or `air T status N HEX`: a PDU was sent.
    Air {
        /// The PDU's ticket, from 1.
        ticket: u64,
        /// Whether it is a STATUS PDU.
        status: bool,
        /// The RLC number of a data PDU, or the one that a STATUS PDU's ACK_SN stands for.
        number: u64,
        /// The PDU.
        bytes: Bytes,
    },
    /// `stale A B`: the PDU of number A lies too far behind B.
    Stale(u64, u64),
    /// `stopped`: the timer isn't running.
    Stopped,
    /// `nothing`: the slot is empty.
    Nothing,
    /// `queuefull`: the queue holds as many SDUs as it may.
    QueueFull,
    /// `stalled`: the transmitter has no room.
    Stalled,
    /// `open R`: a plan of this remote is open.
    PlanOpen(Remote),
    /// `idbusy PLACE`: the local identity is still in use there.
    IdBusy(Place),
    /// `bad FAULT`: the PDU is no AMD PDU.
    BadAmd(AmdFault),
    /// `bad FAULT`: the PDU is no STATUS PDU.
    BadStatus(StatusFault),
    /// `discard NAME`: an SDU was heard and goes no further.
    Discard(Discard),
}
