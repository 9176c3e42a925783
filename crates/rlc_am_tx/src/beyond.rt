// STATUS PDUs that speak of what was not sent.
ghost use Rattle.std.specs.Prelude.{◌↔◌, ◌≤◌, ◌^◌, IsTrue};
ghost use Rattle.rlc_status.specs.Format.{NackFits, AllFit};
ghost use Rattle.rlc_status.specs.Says.{Some_has};
ghost use Rattle.rlc_model.specs.Retransmission.{SpeaksBeyond};
ghost use Rattle.rlc_am_tx.specs.Elements.{IsWrong};

use crate::buffer::TxBuffer;
use crate::elements::{TO_THE_END, count_of, greatest, names};
use link_base::SnSize;
use rlc_status::{Nack, Status};

/// Whether a STATUS PDU, whose ACK_SN stands for `ack`, speaks of what was not sent.
pub(crate) fn is_beyond(buffer: &TxBuffer, size: SnSize, ack: u64, status: &Status) -> bool
    requires fits { AllFit size status.now.nacks }
    requires small { ack ≤ 2 ^ 63 }
    ensures { IsTrue result ↔ SpeaksBeyond size buffer.now status.now ack }
{
    if ack > buffer.sent_count() {
        return true;
    }
    let nacks = status.nacks.as_slice();
    if any_wrong(buffer, size, ack, nacks) {
        return true;
    }
    let unsent = buffer.unsent();
    unsent < ack && !names(size, ack, nacks, unsent)
}

fn any_wrong(buffer: &TxBuffer, size: SnSize, ack: u64, nacks: &[Nack]) -> bool
    requires fits { AllFit size nacks.now }
    requires small { ack ≤ 2 ^ 62 }
    ensures { IsTrue result ↔ Some_has (IsWrong size buffer.now ack) nacks.now }
{
    for nack in nacks {
        if is_wrong(buffer, size, ack, nack) {
            return true;
        }
    }
    false
}

// Whether an element names a number below 0 or one that isn't below `ack`, or begins or ends behind an SDU.
fn is_wrong(buffer: &TxBuffer, size: SnSize, ack: u64, nack: &Nack) -> bool
    requires fits { NackFits size nack.now }
    requires small { ack ≤ 2 ^ 62 }
    ensures { IsTrue result ↔ IsWrong size buffer.now ack nack.now }
{
    let Some(first) = greatest(nack.sn, ack, size) else {
        return true;
    };
    let end = first + count_of(nack);
    if end > ack {
        return true;
    }
    let Some((start, last_place)) = nack.part else {
        return false;
    };
    if buffer.is_past(first, usize::from(start)) {
        return true;
    }
    last_place != TO_THE_END && buffer.is_past(end - 1, usize::from(last_place))
}
