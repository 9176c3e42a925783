// Sending a piece of an SDU.
ghost use Rattle.std.specs.Prelude.{◌≡◌, ◌≢◌, ◌-◌, ◌<◌, ◌≤◌, None, Some, length, not, slice_index, IfOk, OnOk, OnErr};
ghost use Rattle.link_base.specs.declared.limits.TheConstants.{LONGEST_RLC_SDU};
ghost use Rattle.rlc_pdu.specs.Amd.{amd_bytes};
ghost use Rattle.rlc_model.specs.Pdu.{si_of};
ghost use Rattle.rlc_model.specs.Tx.{is_unsent};
ghost use Rattle.rlc_am_tx.specs.Buffer.{sdu_of, sent_of};
ghost use Rattle.rlc_am_tx.specs.Pieces.{MarksKept};
ghost use Rattle.rlc_am_tx.specs.Sending.{plain_piece, AddsPoll};

use crate::kept_sdu::KeptSdu;
use crate::pieces::Piece;
use link_base::{Bytes, Memory, SnSize};
use rlc_pdu::{AmdView, Si, encode_amd};
use std::alloc::Global;

/// A piece of an SDU that was sent.
#[derive(Debug, Drop)]
pub(crate) struct SentPiece {
    /// Its PDU, without a poll.
    pub(crate) bytes: Bytes,
    /// How many of its bytes were unsent.
    pub(crate) fresh: usize,
    /// Whether all bytes of its SDU are sent now.
    pub(crate) whole: bool,
}

/// Sends the bytes of a piece of an SDU before `end`. After an `Err` nothing changed.
pub(crate) fn send_piece(
    alloc: Global,
    size: SnSize,
    kept_sdu: &mut Option<KeptSdu>,
    piece: &Piece,
    end: usize,
) -> Result<SentPiece, Memory>
    requires some { kept_sdu.old ≢ None }
    requires order { piece.now.from < end }
    requires within { end ≤ length (sdu_of kept_sdu.old) }
    requires long { length (sdu_of kept_sdu.old) ≤ LONGEST_RLC_SDU }
    ensures ok { OnOk result (MarksKept kept_sdu.old piece.now.from end kept_sdu.new) }
    ensures spelt { IfOk result
        (λ sent. sent.bytes ≡ amd_bytes size (plain_piece size kept_sdu.old piece.now end)) }
    ensures fresh { IfOk result (λ sent. sent.fresh ≡ end - sent_of kept_sdu.old) }
    ensures whole { IfOk result (λ sent. sent.whole ≡ not (is_unsent kept_sdu.new)) }
    ensures err { OnErr result (kept_sdu.new ≡ kept_sdu.old) }
{
    let Some(kept_sdu) = kept_sdu else {
        unreachable!()
    };
    let bytes = encode(alloc, size, kept_sdu, piece, end)?;
    let fresh = end.saturating_sub(kept_sdu.sent_len());
    kept_sdu.mark_sent(piece.from as u32, end as u32)?;
    Ok(SentPiece {
        bytes,
        fresh,
        whole: !kept_sdu.is_unsent(),
    })
}

// The PDU of a piece of an SDU up to `end`, without a poll.
fn encode(
    alloc: Global,
    size: SnSize,
    kept_sdu: &KeptSdu,
    piece: &Piece,
    end: usize,
) -> Result<Bytes, Memory>
    requires order { piece.now.from < end }
    requires within { end ≤ length kept_sdu.now.sdu }
    requires long { length kept_sdu.now.sdu ≤ LONGEST_RLC_SDU }
    ensures { IfOk result
        (λ bytes. bytes ≡ amd_bytes size (plain_piece size (Some kept_sdu.now) piece.now end)) }
{
    let pdu = AmdView {
        sn: (piece.number % size.modulus()) as u32,
        poll: false,
        si: si_of(piece.from == 0, end == kept_sdu.sdu_len()),
        so: piece.from as u16,
        body: kept_sdu.bytes(piece.from, end),
    };
    let bytes = encode_amd(alloc, size, &pdu)?;
    Ok(bytes)
}

// The SI of a segment, by whether it has the first and whether it has the last byte of its SDU (TS 38.322 clause
// 6.2.3.4).
fn si_of(first: bool, last: bool) -> Si
    ensures { result ≡ si_of first last }
{
    match (first, last) {
        (true, true) => Si::Whole,
        (true, false) => Si::First,
        (false, true) => Si::Last,
        (false, false) => Si::Middle,
    }
}

/// The same PDU with a poll: P is bit 6 of the first octet (TS 38.322 clause 6.2.3.7).
pub(crate) fn with_poll(bytes: Bytes) -> Bytes
    requires some { 0 < length bytes }
    requires unset { slice_index bytes 0 < 192 }
    ensures { AddsPoll bytes result }
{
    let mut octets = bytes.into_vec();
    octets[0] += 0x40;
    Bytes::from_vec(octets)
}
