// Pieces of SDUs that are next for transmission.
ghost use Rattle.std.specs.Prelude.{◌≡◌, ℕ, false, IfSome, IfNone};
ghost use Rattle.rlc_model.specs.Tx.{at, is_pending};
ghost use Rattle.rlc_am_tx.specs.Buffer.{kept_from};
ghost use Rattle.rlc_am_tx.specs.Pieces.{IsPendingAt};

use crate::kept_sdu::KeptSdu;
use std::collections::VecDeque;

/// Bytes of an SDU that are next for transmission: those from `from` up to but without `to` of the SDU of this number.
#[derive(Clone, Copy, Debug)]
pub(crate) struct Piece {
    pub(crate) number: u64,
    pub(crate) from: usize,
    pub(crate) to: usize,
}

/// The first maximal run of pending bytes of a number.
pub(crate) fn pending_piece(
    next_ack: u64,
    kept_sdus: &VecDeque<Option<KeptSdu>>,
    number: u64,
) -> Option<Piece>
    ensures some { IfSome result (IsPendingAt (kept_from next_ack kept_sdus.now.items) number) }
    ensures none { IfNone result
        ((p : ℕ) → is_pending (at (kept_from next_ack kept_sdus.now.items) number) p ≡ false) }
{
    if number < next_ack {
        return None;
    }
    let index = (number - next_ack) as usize;
    if index >= kept_sdus.len() {
        return None;
    }
    let Some(kept_sdu) = &kept_sdus[index] else {
        return None;
    };
    let Some((from, to)) = kept_sdu.first_pending() else {
        return None;
    };
    Some(Piece {
        number,
        from: from as usize,
        to: to as usize,
    })
}
