// What one side of a port, a transmitter and a receiver together, sends and hears.
ghost use Rattle.std.specs.Prelude.{◌≡◌, ◌<◌, ◌≤◌, ◌^◌, ◌↔◌, true, IfOk, OnErr, IsTrue};
ghost use Rattle.rlc_model.specs.Hop.{GrantsHop, HearsHop, ExpiresHop, IsControl};
ghost use Rattle.rlc_model.specs.Rx.{status_due, rx_next};
ghost use Rattle.rlc_model.specs.Tx.{tx_next};
ghost use Rattle.rlc_hop.specs.Side.{SendsStatus, SendsTruly, IsToSend, HearsData, HearsControl, ControlTakesMemory, DataTakesMemory, HearsNews, CompletesSdu};

use crate::{HopGrant, HopHeard};
use link_base::{Expired, Memory, Timer};
use rlc_am_rx::AmRx;
use rlc_am_tx::AmTx;
use rlc_model::{Made, TxGrant};
use rlc_pdu::decode_amd;
use rlc_status::{StatusFault, decode_status, encode_status};
use std::alloc::Global;

// D/C, bit 7 of the first octet, as a data PDU has it.
const DATA_PDU: u8 = 0x80;

/// Sends one PDU of at most `n` octets: a STATUS PDU where the receiver has one due, else what the transmitter sends (TS
/// 38.322 clauses 5.2.3.1.1 and 5.3.4).
///
/// `Idle` comes exactly where no STATUS is due and no byte waits, and `Small` exactly where the PDU that is next has more
/// than `n` octets.
///
/// A STATUS PDU that is sent is true of the receiver. An `Err` is want of memory. It comes only where a PDU is to be sent and
/// `n` octets are enough, and the transmitter and the receiver are then as they were.
pub fn hop_grant(alloc: Global, tx: &mut AmTx, rx: &mut AmRx, n: u32) -> Result<HopGrant, Memory>
    ensures ok { IfOk result (λ answer. GrantsHop tx.old rx.old n answer tx.new rx.new) }
    ensures truth { IfOk result (SendsTruly rx.old n) }
    ensures err { OnErr result ((tx.new ≡ tx.old) × (rx.new ≡ rx.old)) }
    ensures memory { OnErr result (IsToSend tx.old rx.old n) }
{
    if rx.status_due() {
        return send_status(alloc, rx, n);
    }
    match tx.grant(n)? {
        TxGrant::Sent { number, bytes } => Ok(HopGrant::Sent {
            status: false,
            number,
            bytes,
        }),
        TxGrant::Idle => Ok(HopGrant::Idle),
        TxGrant::Small { need } => Ok(HopGrant::Small { need }),
    }
}

// Sends a STATUS PDU that is due, where it has at most `n` octets.
fn send_status(alloc: Global, rx: &mut AmRx, n: u32) -> Result<HopGrant, Memory>
    requires { status_due rx.old ≡ true }
    ensures ok { IfOk result (λ answer. SendsStatus rx.old n answer rx.new) }
    ensures truth { IfOk result (SendsTruly rx.old n) }
    ensures err { OnErr result (rx.new ≡ rx.old) }
    ensures memory { OnErr result (3 ≤ n) }
{
    match rx.write_status(n)? {
        Made::Small { need } => Ok(HopGrant::Small { need }),
        Made::Full { status, ack } => {
            let bytes = encode_status(alloc, rx.size(), &status)?;
            rx.begin_prohibit();
            Ok(HopGrant::Sent {
                status: true,
                number: ack,
                bytes,
            })
        }
    }
}

/// Hears octets: the transmitter hears a STATUS PDU where there is an octet whose D/C is 0, else the receiver a data PDU
/// (TS 38.322 clauses 5.2.3.2.2, 5.3.2 and 6.2.3.6). It needs TX_Next below 2^62 and RX_Next at most 2^62.
///
/// An SDU that they make complete has at least one byte, and no more than the longest SDU. An `Err` is want of memory. It
/// comes only where the octets are a STATUS PDU with an element, or one that confirms an SDU or makes bytes pending, or a data
/// PDU that the receiver is to place. The transmitter and the receiver are then as they were.
pub fn hop_hear(
    alloc: Global,
    tx: &mut AmTx,
    rx: &mut AmRx,
    bytes: &[u8],
) -> Result<HopHeard, Memory>
    requires sent { tx_next tx.old < 2 ^ 62 }
    requires heard { rx_next rx.old ≤ 2 ^ 62 }
    ensures ok { IfOk result (λ answer. HearsHop tx.old rx.old bytes.now answer tx.new rx.new) }
    ensures length { IfOk result CompletesSdu }
    ensures err { OnErr result ((tx.new ≡ tx.old) × (rx.new ≡ rx.old)) }
    ensures memory { OnErr result (HearsNews tx.old rx.old bytes.now) }
{
    if is_control(bytes) {
        hear_control(alloc, tx, bytes)
    } else {
        hear_data(rx, bytes)
    }
}

// Whether octets are a control PDU.
fn is_control(bytes: &[u8]) -> bool
    ensures { IsTrue result ↔ IsControl bytes.now }
{
    match bytes.first() {
        Some(&first) => first < DATA_PDU,
        None => false,
    }
}

// The transmitter hears a control PDU.
fn hear_control(alloc: Global, tx: &mut AmTx, bytes: &[u8]) -> Result<HopHeard, Memory>
    requires { tx_next tx.old < 2 ^ 62 }
    ensures ok { IfOk result (λ answer. HearsControl tx.old bytes.now answer tx.new) }
    ensures length { IfOk result CompletesSdu }
    ensures err { OnErr result (tx.new ≡ tx.old) }
    ensures memory { OnErr result (ControlTakesMemory tx.old bytes.now) }
{
    match decode_status(alloc, tx.size(), bytes) {
        Ok(status) => {
            let answer = tx.hear_status(&status)?;
            Ok(HopHeard::Status(answer))
        }
        Err(StatusFault::Memory) => Err(Memory),
        Err(fault) => Ok(HopHeard::BadStatus(fault)),
    }
}

// The receiver hears octets that are no control PDU.
fn hear_data(rx: &mut AmRx, bytes: &[u8]) -> Result<HopHeard, Memory>
    requires { rx_next rx.old ≤ 2 ^ 62 }
    ensures ok { IfOk result (λ answer. HearsData rx.old bytes.now answer rx.new) }
    ensures length { IfOk result CompletesSdu }
    ensures err { OnErr result (rx.new ≡ rx.old) }
    ensures memory { OnErr result (DataTakesMemory rx.old bytes.now) }
{
    match decode_amd(rx.size(), bytes) {
        Ok(pdu) => {
            let answer = rx.hear(&pdu)?;
            Ok(HopHeard::Amd(answer))
        }
        Err(fault) => Ok(HopHeard::BadAmd(fault)),
    }
}

/// A timer of a side runs out: t-PollRetransmit is its transmitter's, the other two are its receiver's (TS 38.322 clause 7.3).
/// It takes no memory.
pub fn hop_expire(tx: &mut AmTx, rx: &mut AmRx, timer: Timer) -> Expired
    ensures { ExpiresHop tx.old rx.old timer result tx.new rx.new }
{
    match timer {
        Timer::Poll => tx.expire_poll(),
        Timer::Reasm => rx.expire_reassembly(),
        Timer::Prohibit => rx.expire_prohibit(),
    }
}
