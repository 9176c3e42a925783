// SDUs in a queue are given to the transmitter of their egress.
ghost use Rattle.std.specs.Prelude.{◌≡◌, ◌<◌, ◌≤◌, ◌^◌, Some, length, IfOk, OnErr, IfErr};
ghost use Rattle.std.specs.List.{AllByRecursion};
ghost use Rattle.link_base.specs.declared.limits.TheConstants.{LONGEST_RLC_SDU};
ghost use Rattle.rlc_model.specs.Tx.{Tx, tx_next, room, Gives};
ghost use Rattle.node_model.specs.Relaying.{parcel_tag};
ghost use Rattle.relay_core.specs.Ports.{IsQueued};
ghost use Rattle.relay_core.specs.Calls.{PullsAt, CanPull};

use crate::ports::EgressPort;
use link_base::{LocalId, Memory, Tag};
use node_model::{Parcel, PullReply};
use rlc_am_tx::{AmTx, GiveFault};

/// Gives the SDU at the front of a queue to the transmitter of its port, which needs TX_Next below 2^62.
///
/// An `Err` is want of memory. It comes only where an SDU can be pulled, and nothing changed then.
pub(crate) fn pull(egress: &mut EgressPort) -> Result<PullReply, Memory>
    requires sdus { AllByRecursion IsQueued egress.old.queue.parcels }
    requires small { (tx : Tx) → egress.old.tx ≡ Some tx → tx_next tx < 2 ^ 62 }
    ensures ok { IfOk result (λ reply. PullsAt egress.old reply egress.new) }
    ensures err { OnErr result (egress.new ≡ egress.old) }
    ensures memory { OnErr result (CanPull egress.old) }
{
    let Some(tx) = &mut egress.tx else {
        return Ok(PullReply::NoPort);
    };
    if egress.queue.is_empty() {
        return Ok(PullReply::Empty);
    }
    if tx.room() == 0 {
        return Ok(PullReply::Stalled);
    }
    let Some(parcel) = egress.queue.pop() else {
        unreachable!()
    };
    match give(tx, parcel) {
        Ok(number) => Ok(PullReply::Done(number)),
        Err(parcel) => {
            egress.queue.put_back(parcel);
            Err(Memory)
        }
    }
}

// Gives an SDU to a transmitter that has room. After an `Err`, which is want of memory, it comes back.
fn give(tx: &mut AmTx, parcel: Parcel) -> Result<u64, Parcel>
    requires header { 2 ≤ length parcel.sdu }
    requires long { length parcel.sdu ≤ LONGEST_RLC_SDU }
    requires small { tx_next tx.old < 2 ^ 62 }
    ensures ok { IfOk result (λ number. Gives tx.old (parcel_tag parcel) parcel.sdu number tx.new) }
    ensures err { OnErr result (tx.new ≡ tx.old) }
    ensures back { IfErr result (λ back. back ≡ parcel) }
{
    let Parcel { from, route, sdu } = parcel;
    let tag = Tag {
        key: route.key,
        count: None,
        ue: Some(LocalId(sdu.as_slice()[1])),
    };
    match tx.give(tag, sdu) {
        Ok(number) => Ok(number),
        Err(GiveFault::NoRoom(sdu) | GiveFault::Memory(sdu)) => Err(Parcel { from, route, sdu }),
    }
}
