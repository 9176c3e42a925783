// Which PDUs on the air a side still hears.
ghost use Rattle.std.specs.Prelude.{◌≡◌, IfErr, OnOk};
ghost use Rattle.std.specs.declared.option.Option.TheVariants.{Some, None};
ghost use Rattle.rlc_model.specs.Air.{is_stale};
ghost use Rattle.rlc_model.specs.Hop.{air_fault, side_fault};

use crate::{AirFault, Pdu};
use link_base::SnSize;
use rlc_am_rx::AmRx;
use rlc_am_tx::AmTx;

/// Whether a side hears a PDU from the air. The side stands in `epoch`, which is None where it is closed; `next` is RX_Next
/// of its receiver for a data PDU, and TX_Next_Ack of its transmitter for a STATUS PDU. This takes no memory.
///
/// `Gone` comes exactly where the epochs differ or the side is closed. Else `Stale` comes exactly where a data PDU's number
/// lies more than a window below `next`, or a STATUS PDU's number a window or more: there its sequence number would be
/// read as that of another number (TS 38.322 clause 7.2: a window is 2,048 numbers, or 131,072 with 18 bits).
pub fn may_pass(pdu: &Pdu, epoch: Option<u32>, next: u64, size: SnSize) -> Result<(), AirFault>
    ensures ok { OnOk result (air_fault size pdu.now epoch next ≡ None) }
    ensures fault { IfErr result (λ fault. air_fault size pdu.now epoch next ≡ Some fault) }
{
    if epoch != Some(pdu.epoch) {
        return Err(AirFault::Gone);
    }
    if is_stale(pdu, next, size) {
        return Err(AirFault::Stale {
            number: pdu.number,
            next,
        });
    }
    Ok(())
}

/// Why a side in this epoch doesn't hear a PDU from the air, whose transmitter would hear a STATUS PDU and whose receiver a
/// data PDU. None where it is heard. This takes no memory.
pub fn side_fault(pdu: &Pdu, epoch: u32, tx: &AmTx, rx: &AmRx) -> Option<AirFault>
    ensures { result ≡ side_fault pdu.now (Some epoch) tx.now rx.now }
{
    let passed = if pdu.status {
        may_pass(pdu, Some(epoch), tx.next_ack(), tx.size())
    } else {
        may_pass(pdu, Some(epoch), rx.next(), rx.size())
    };
    passed.err()
}

// Whether its sequence number would be read as that of another number.
fn is_stale(pdu: &Pdu, next: u64, size: SnSize) -> bool
    ensures { result ≡ is_stale size pdu.now.status pdu.now.number next }
{
    let window = size.window();
    let below = next.saturating_sub(pdu.number);
    if pdu.status {
        below >= window
    } else {
        below > window
    }
}
