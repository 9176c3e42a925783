// The SDUs that are not confirmed, by number.
ghost use Rattle.std.specs.Prelude.{◌≡◌, ◌≢◌, ◌⊎◌, ◌↔◌, ◌-◌, ◌+◌, ◌*◌, ◌<◌, ◌≤◌, ◌^◌, ℕ, [], ◌∷◌, ◌++◌, None, Some, true, false, vec_capacity, not, length, count_by, is_some, IfSome, IfNone, IfOk, OnOk, OnErr, IfErr, IsTrue};
ghost use Rattle.std.specs.List.{prefix_len};
ghost use Rattle.std.specs.Option.{is_none};
ghost use Rattle.std.specs.Bool.{MatchBool};
ghost use Rattle.link_base.specs.declared.limits.TheConstants.{LONGEST_RLC_SDU};
ghost use Rattle.rlc_pdu.specs.Amd.{amd_bytes};
ghost use Rattle.rlc_status.specs.Format.{AllFit};
ghost use Rattle.rlc_status.specs.Says.{Some_has, NamesNumber};
ghost use Rattle.rlc_model.specs.Tx.{at, is_unsent, SomePending, SomeUnsent, IsBegunCount};
ghost use Rattle.rlc_model.specs.Calls.{Grows};
ghost use Rattle.rlc_am_tx.specs.Buffer.{BearsOne, BearsIn, NonePending, NoneUnsent, IsInOrder, EndsBy, all_sent, sdu_of, sent_of, IsIdleList};
ghost use Rattle.rlc_am_tx.specs.Retransmitting.{RetransmitsKept, RetransmitsLowestOf};
ghost use Rattle.rlc_am_tx.specs.Elements.{PassesAck};
ghost use Rattle.rlc_am_tx.specs.Acknowledging.{UpdatesAll};
ghost use Rattle.rlc_am_tx.specs.Pieces.{IsPendingPiece, IsUnsentPiece, IsNextPiece, IsInside, MarksSent, MovesUnsent};
ghost use Rattle.rlc_am_tx.specs.Sending.{plain_piece};

use crate::acknowledging::{Acknowledged, leave_all, leave_idle, plan, pop_confirmed, settle_all};
use crate::kept_sdu::KeptSdu;
use crate::naming::{Naming, forget_all, make_room};
use crate::pieces::{Piece, pending_piece};
use crate::sending::{SentPiece, send_piece};
use byte_spans::Spans;
use link_base::{Bytes, LocalId, Memory, SnSize, Tag};
use rlc_status::Status;
use std::alloc::Global;
use std::collections::{BTreeSet, VecDeque};
use std::marker::Model;

/// The SDUs that are not confirmed, by number.
#[derive(Drop)]
pub(crate) struct TxBuffer {
    alloc: Global,
    // TX_Next_Ack, the number of the first SDU.
    next_ack: u64,
    // None for an SDU that is confirmed.
    kept_sdus: VecDeque<Option<KeptSdu>>,
    unconfirmed: u64,
    // The lowest number with bytes that were never sent, or TX_Next. SDUs are sent in the order of their numbers.
    unsent: u64,
    // The numbers with pending bytes. The first SDU's may be missing: it becomes pending without taking memory.
    waiting: BTreeSet<u64>,
    // For each SDU, and maybe more, what a STATUS PDU names of its SDU. While none is carried out this is nothing.
    names: VecDeque<Naming>,
}

impl Model for TxBuffer {
    ghost use Rattle.std.specs.Prelude.{List, Option};
    ghost use Rattle.rlc_model.specs.Tx.{Kept};

    ghost Value = { List (Option Kept) };

    ghost use Rattle.rlc_am_tx.specs.Inside.{kept_of, IsBuffer};

    ghost view = { kept_of };

    ghost invariant = { IsBuffer };
}

impl TxBuffer {
    /// No SDU.
    pub(crate) fn new(alloc: Global) -> Self
        ensures { result ≡ [] }
    {
        TxBuffer {
            alloc,
            next_ack: 0,
            kept_sdus: VecDeque::new(alloc),
            unconfirmed: 0,
            unsent: 0,
            waiting: BTreeSet::new(alloc),
            names: VecDeque::new(alloc),
        }
    }

    /// TX_Next.
    pub(crate) fn next(&self) -> u64
        ensures value { result ≡ length self.now }
        ensures small { result ≤ 2 ^ 62 }
    {
        self.next_ack + self.kept_sdus.len() as u64
    }

    /// TX_Next_Ack.
    pub(crate) fn next_ack(&self) -> u64
        ensures value { result ≡ prefix_len is_none self.now }
        ensures small { result ≤ 2 ^ 62 }
    {
        self.next_ack
    }

    /// How many SDUs there are.
    pub(crate) fn unconfirmed(&self) -> u64
        ensures { result ≡ count_by is_some self.now }
    {
        self.unconfirmed
    }

    /// Whether an SDU's tag has this local identity.
    pub(crate) fn bears(&self, ue: LocalId) -> bool
        ensures { IsTrue result ↔ BearsIn self.now ue }
    {
        for index in 0..self.kept_sdus.len() {
            if bears_one(&self.kept_sdus[index], ue) {
                return true;
            }
        }
        false
    }

    /// Adds an SDU of TX_Next. For want of memory it gives the SDU back, and nothing changes.
    pub(crate) fn push(&mut self, tag: Tag, sdu: Bytes) -> Result<(), Bytes>
        requires some { 0 < length sdu }
        requires long { length sdu ≤ LONGEST_RLC_SDU }
        requires small { length self.old < 2 ^ 62 }
        ensures ok { OnOk result
            (self.new ≡ self.old ++ Some
            (record { tag = tag; sdu = sdu; flags = []; retx_count = None }) ∷ []) }
        ensures err { OnErr result (self.new ≡ self.old) }
        ensures back { IfErr result (λ back. back ≡ sdu) }
    {
        let Ok(pending) = Spans::new(self.alloc) else {
            return Err(sdu);
        };
        let Ok(()) = make_room(&mut self.names, self.kept_sdus.len() + 1) else {
            return Err(sdu);
        };
        if self.kept_sdus.reserve(1).is_err() {
            return Err(sdu);
        }
        let kept_sdu = KeptSdu::new(tag, sdu, pending);
        let Ok(()) = self.kept_sdus.push_back(Some(kept_sdu)) else {
            unreachable!()
        };
        self.unconfirmed += 1;
        Ok(())
    }

    /// The piece that is next for transmission (TS 38.322 clauses 5.2.3.1.1 and 5.3.2).
    pub(crate) fn next_piece(&self) -> Option<Piece>
        ensures next { IfSome result (IsNextPiece self.now) }
        ensures inside { IfSome result (IsInside self.now) }
        ensures no_pending { IfNone result (NonePending self.now) }
        ensures no_unsent { IfNone result (NoneUnsent self.now) }
    {
        let _ = &self.alloc;
        if let Some(piece) = self.lowest_pending() {
            return Some(piece);
        }
        self.unsent_piece()
    }

    /// Whether a byte waits, for retransmission or for its first transmission.
    pub(crate) fn waits(&self) -> bool
        ensures { IsTrue result ↔ SomePending self.now ⊎ SomeUnsent self.now }
    {
        self.unsent_waits() || self.pending_waits()
    }

    /// Whether a byte waits for retransmission.
    pub(crate) fn pending_waits(&self) -> bool
        ensures waits { MatchBool result (SomePending self.now) (NonePending self.now) }
    {
        self.lowest_pending().is_some()
    }

    /// Whether a byte waits for its first transmission.
    pub(crate) fn unsent_waits(&self) -> bool
        ensures { MatchBool result (SomeUnsent self.now) (NoneUnsent self.now) }
    {
        self.unsent < self.next()
    }

    /// One more than the greatest number of which a byte was sent, or 0.
    pub(crate) fn sent_count(&self) -> u64
        ensures count { IsBegunCount self.now result }
        ensures small { result ≤ 2 ^ 62 }
    {
        if self.sent_len(self.unsent) > 0 {
            self.unsent + 1
        } else {
            self.unsent
        }
    }

    /// How many bytes of an SDU were sent, or 0 where it is confirmed.
    pub(crate) fn sent_len(&self, number: u64) -> usize
        ensures { result ≡ sent_of (at self.now number) }
    {
        match self.kept_sdu(number) {
            Some(kept_sdu) => kept_sdu.sent_len(),
            None => 0,
        }
    }

    /// Sends the bytes of a piece before `end`. After an `Err` nothing changed.
    pub(crate) fn send(
        &mut self,
        size: SnSize,
        piece: &Piece,
        end: usize,
    ) -> Result<SentPiece, Memory>
        requires next { IsNextPiece self.old piece.now }
        requires inside { IsInside self.old piece.now }
        requires some { piece.now.from < end }
        requires within { end ≤ piece.now.to }
        ensures ok { OnOk result (MarksSent self.old piece.now.number piece.now.from end self.new) }
        ensures spelt { IfOk result (λ sent. sent.bytes
            ≡ amd_bytes size (plain_piece size (at self.old piece.now.number) piece.now end)) }
        ensures fresh { IfOk result
            (λ sent. sent.fresh ≡ end - sent_of (at self.old piece.now.number)) }
        ensures few { OnOk result (all_sent self.new ≤ LONGEST_RLC_SDU * 2 ^ 62) }
        ensures err { OnErr result (self.new ≡ self.old) }
    {
        let index = (piece.number - self.next_ack) as usize;
        let sent = send_piece(self.alloc, size, &mut self.kept_sdus[index], piece, end)?;
        self.unsent = unsent_behind(self.unsent, piece.number, sent.whole);
        leave_idle(&mut self.waiting, piece.number, &self.kept_sdus[index]);
        Ok(sent)
    }

    /// Where no byte waits and there is an SDU, all bytes of the lowest one become pending (TS 38.322 clause 5.3.3.4).
    /// It answers the SDU's number where its RETX_COUNT came to the threshold. It takes no memory.
    pub(crate) fn retransmit_lowest(&mut self, threshold: u8) -> Option<u64>
        ensures { RetransmitsLowestOf threshold self.old result self.new }
    {
        if self.unsent_waits() {
            return None;
        }
        if self.pending_waits() {
            return None;
        }
        if self.kept_sdus.is_empty() {
            return None;
        }
        let marked = retransmit_kept(&mut self.kept_sdus[0], threshold);
        marked.then_some(self.next_ack)
    }

    /// The lowest number with bytes that were never sent, or TX_Next.
    pub(crate) fn unsent(&self) -> u64
        ensures { IsInOrder self.now result }
    {
        self.unsent
    }

    /// Whether a number has an SDU that has no byte at this place.
    pub(crate) fn is_past(&self, number: u64, place: usize) -> bool
        ensures { IsTrue result ↔ EndsBy self.now number place }
    {
        match self.kept_sdu(number) {
            Some(kept_sdu) => kept_sdu.sdu_len() <= place,
            None => false,
        }
    }

    /// Carries out a STATUS PDU whose ACK_SN stands for `ack` (TS 38.322 clauses 5.2.3.1.1 and 5.3.2). All memory is
    /// taken before anything changes, also where a poll is owed that for the number that `retransmit_lowest` may answer
    /// behind it.
    pub(crate) fn acknowledge(
        &mut self,
        size: SnSize,
        ack: u64,
        status: &Status,
        threshold: u8,
        poll_owed: bool,
    ) -> Result<Acknowledged, Memory>
        requires fits { AllFit size status.now.nacks }
        requires from { prefix_len is_none self.old ≤ ack }
        requires within { ack ≤ length self.old }
        requires below { Some_has (PassesAck size ack) status.now.nacks → ⊥ }
        requires sent { (n : ℕ) → n < ack
            → (Some_has (λ e. NamesNumber size ack e n) status.now.nacks → ⊥)
            → is_unsent (at self.old n) ≡ false }
        ensures ok { IfOk result
            (λ told. UpdatesAll size threshold ack status.now self.old told.tags.items told.marks.items
            self.new) }
        ensures room { IfOk result
            (λ told. poll_owed ≡ true → NonePending self.new → NoneUnsent self.new
            → prefix_len is_none self.new < length self.new
            → length told.marks.items < vec_capacity told.marks) }
        ensures sent { OnOk result (all_sent self.old ≤ all_sent self.new) }
        ensures err { OnErr result (self.new ≡ self.old) }
        ensures memory { OnErr result (Grows size threshold poll_owed self.old status.now ack) }
    {
        let base = self.next_ack;
        let count = (ack - base) as usize;
        let may_wake = self.may_wake(poll_owed);
        let mut told = Acknowledged::new(self.alloc);
        if let Err(Memory) = plan(
            &self.kept_sdus,
            &mut self.names,
            &mut self.waiting,
            base,
            ack,
            size,
            status,
            threshold,
            poll_owed,
            may_wake,
            &mut told,
        ) {
            forget_all(&mut self.names, count);
            leave_all(&self.kept_sdus, count, base, &mut self.waiting);
            return Err(Memory);
        }
        settle_all(
            &mut self.kept_sdus,
            &mut self.names,
            base,
            count,
            threshold,
            &mut self.waiting,
        );
        self.unconfirmed -= told.tags.len() as u64;
        self.next_ack += pop_confirmed(&mut self.kept_sdus) as u64;
        Ok(told)
    }

    // Whether a poll is owed, there is an SDU, and no byte waits.
    fn may_wake(&self, poll_owed: bool) -> bool
        ensures { IsTrue result ↔ (poll_owed ≡ true) × IsIdleList self.now }
    {
        if !poll_owed {
            return false;
        }
        if self.kept_sdus.is_empty() {
            return false;
        }
        !self.waits()
    }

    // The first maximal run of pending bytes of the lowest number that has some.
    fn lowest_pending(&self) -> Option<Piece>
        ensures some { IfSome result (IsPendingPiece self.now) }
        ensures none { IfNone result (NonePending self.now) }
    {
        if let Some(piece) = pending_piece(self.next_ack, &self.kept_sdus, self.next_ack) {
            return Some(piece);
        }
        let number = self.waiting.first()?;
        pending_piece(self.next_ack, &self.kept_sdus, *number)
    }

    fn kept_sdu(&self, number: u64) -> Option<&KeptSdu>
        ensures some { IfSome result (λ kept_sdu. at self.now number ≡ Some kept_sdu.now) }
        ensures none { IfNone result (at self.now number ≡ None) }
    {
        if number < self.next_ack {
            return None;
        }
        let index = (number - self.next_ack) as usize;
        if index >= self.kept_sdus.len() {
            return None;
        }
        self.kept_sdus[index].as_ref()
    }

    // The unsent bytes of the lowest number that has some.
    fn unsent_piece(&self) -> Option<Piece>
        ensures some { IfSome result (IsUnsentPiece self.now) }
        ensures inside { IfSome result (IsInside self.now) }
        ensures none { IfNone result (NoneUnsent self.now) }
    {
        let kept_sdu = self.kept_sdu(self.unsent)?;
        Some(Piece {
            number: self.unsent,
            from: kept_sdu.sent_len(),
            to: kept_sdu.sdu_len(),
        })
    }
}

// Whether the tag of an SDU has this local identity.
fn bears_one(kept_sdu: &Option<KeptSdu>, ue: LocalId) -> bool
    ensures { IsTrue result ↔ BearsOne kept_sdu.now ue }
{
    let Some(kept_sdu) = kept_sdu else {
        return false;
    };
    kept_sdu.tag().ue == Some(ue)
}

// The lowest number with unsent bytes once an SDU was sent further, by whether all its bytes were sent.
fn unsent_behind(unsent: u64, number: u64, whole: bool) -> u64
    requires { unsent ≤ 2 ^ 62 }
    ensures { MovesUnsent unsent number whole result }
{
    if number == unsent && whole {
        return unsent + 1;
    }
    unsent
}

// All bytes of an SDU become pending. It answers whether its RETX_COUNT came to the threshold.
fn retransmit_kept(kept_sdu: &mut Option<KeptSdu>, threshold: u8) -> bool
    requires some { kept_sdu.old ≢ None }
    requires sent { 0 < sent_of kept_sdu.old }
    ensures { RetransmitsKept threshold kept_sdu.old result kept_sdu.new }
{
    let Some(kept_sdu) = kept_sdu else {
        unreachable!()
    };
    kept_sdu.renew_all(threshold)
}
