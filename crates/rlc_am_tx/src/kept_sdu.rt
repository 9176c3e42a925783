// An SDU that is not confirmed.
ghost use Rattle.std.specs.Prelude.{◌≡◌, ◌<◌, ◌≤◌, ◌-◌, ◌+◌, ℕ, [], false, None, Some, length, take, drop, slice_index_or, IfSome, IfNone, OnOk, OnErr};
ghost use Rattle.std.specs.Bool.{MatchBool};
ghost use Rattle.link_base.specs.declared.limits.TheConstants.{LONGEST_RLC_SDU};
ghost use Rattle.byte_spans.specs.Spans.{IsEmpty};
ghost use Rattle.rlc_model.specs.Numbers.{IsFirstRun};
ghost use Rattle.rlc_model.specs.Tx.{is_unsent, Clears};
ghost use Rattle.rlc_am_tx.specs.Buffer.{IsPending, IsIdle};
ghost use Rattle.rlc_am_tx.specs.Flags.{counted, comes_to, FitsSent};
ghost use Rattle.rlc_am_tx.specs.Acknowledging.{renewed};
ghost use Rattle.rlc_am_tx.specs.Naming.{IsNamingOf, NamesMore, CanName};
ghost use Rattle.rlc_am_tx.specs.Elements.{HasPlace};
ghost use Rattle.rlc_am_tx.specs.Retransmitting.{RetransmitsAll};

use crate::elements::Places;
use crate::naming::Naming;
use byte_spans::Spans;
use link_base::{Bytes, Memory, Tag};
use std::marker::Model;

/// An SDU that is not confirmed, of which at most the first 9,005 bytes are sent.
#[derive(Debug, Drop)]
pub(crate) struct KeptSdu {
    tag: Tag,
    sdu: Bytes,
    // How many bytes were sent.
    sent: u32,
    // Those of them that are pending for retransmission.
    pending: Spans,
    // RETX_COUNT, up to one above maxRetxThreshold.
    retx_count: Option<u16>,
}

impl Model for KeptSdu {
    ghost use Rattle.rlc_model.specs.Tx.{Kept};

    ghost Value = { Kept };

    ghost use Rattle.rlc_am_tx.specs.KeptSdus.{kept_inside, IsKeptSdu};

    ghost view = { kept_inside };

    ghost invariant = { IsKeptSdu };
}

impl KeptSdu {
    /// An SDU of which no byte was sent.
    pub(crate) fn new(tag: Tag, sdu: Bytes, pending: Spans) -> Self
        requires { IsEmpty pending }
        ensures { result ≡ record { tag = tag; sdu = sdu; flags = []; retx_count = None } }
    {
        KeptSdu {
            tag,
            sdu,
            sent: 0,
            pending,
            retx_count: None,
        }
    }

    pub(crate) fn tag(&self) -> Tag
        ensures { result ≡ self.now.tag }
    {
        self.tag
    }

    pub(crate) fn sdu_len(&self) -> usize
        ensures { result ≡ length self.now.sdu }
    {
        self.sdu.len()
    }

    /// How many bytes were sent.
    pub(crate) fn sent_len(&self) -> usize
        ensures { result ≡ length self.now.flags }
    {
        self.sent as usize
    }

    pub(crate) fn is_unsent(&self) -> bool
        ensures { result ≡ is_unsent (Some self.now) }
    {
        (self.sent as usize) < self.sdu.len()
    }

    /// The bytes from `from` up to but without `to`.
    pub(crate) fn bytes(&self, from: usize, to: usize) -> &[u8]
        requires order { from ≤ to }
        requires within { to ≤ length self.now.sdu }
        ensures { result.now ≡ take (to - from) (drop from self.now.sdu) }
    {
        &self.sdu.as_slice()[from..to]
    }

    /// The first maximal run of pending bytes, as its first place and the place behind its last.
    pub(crate) fn first_pending(&self) -> Option<(u32, u32)>
        ensures run { IfSome result (λ run. IsFirstRun self.now.flags run.0 run.1) }
        ensures within { IfSome result (λ run. run.1 ≤ length self.now.flags) }
        ensures none { IfNone result ((p : ℕ) → slice_index_or self.now.flags p false ≡ false) }
    {
        self.pending.first()
    }

    pub(crate) fn has_pending(&self) -> bool
        ensures { MatchBool result (IsPending (Some self.now)) (IsIdle (Some self.now)) }
    {
        self.first_pending().is_some()
    }

    /// The bytes from `from` up to but without `to` are sent now, and none of them is pending any more. After an `Err`
    /// nothing changed.
    pub(crate) fn mark_sent(&mut self, from: u32, to: u32) -> Result<(), Memory>
        requires some { from < to }
        requires long { to ≤ LONGEST_RLC_SDU }
        ensures clears { OnOk result (Clears self.old.flags from to self.new.flags) }
        ensures rest { OnOk result (self.new ≡ record self.old { flags = self.new.flags }) }
        ensures err { OnErr result (self.new ≡ self.old) }
    {
        if from < self.sent {
            self.pending.remove(from, to)?;
        }
        self.sent = self.sent.max(to);
        Ok(())
    }

    /// Has a STATUS PDU name the bytes at these places that were sent. An `Err` comes only where one of them, or of those
    /// that it named before, isn't pending.
    pub(crate) fn name(&self, naming: &mut Naming, places: &Places) -> Result<(), Memory>
        requires { IsNamingOf (Some self.now) naming.old }
        ensures fine { OnOk result (IsNamingOf (Some self.now) naming.new) }
        ensures names { OnOk result
            (NamesMore (Some self.now) (HasPlace places.now) naming.old naming.new) }
        ensures named { naming.new.named ≡ naming.old.named }
        ensures err { OnErr result (CanName (Some self.now) (HasPlace places.now) naming.old) }
    {
        let to = places.end_within(self.sent);
        if places.from >= to {
            return Ok(());
        }
        if let Some(pending) = &mut naming.pending {
            pending.add(places.from, to)?;
            return Ok(());
        }
        if self.pending.covers(places.from, to) {
            return Ok(());
        }
        let mut pending = self.pending.copy()?;
        pending.add(places.from, to)?;
        naming.pending = Some(pending);
        Ok(())
    }

    /// Whether RETX_COUNT comes to the threshold where the SDU is considered for retransmission (TS 38.322 clause 5.3.2),
    /// by whether a byte becomes pending that wasn't.
    pub(crate) fn is_mark(&self, fresh: bool, threshold: u8) -> bool
        ensures { result ≡ comes_to threshold self.now.retx_count fresh }
    {
        comes_to(self.retx_count, fresh, threshold)
    }

    /// The SDU is considered for retransmission (TS 38.322 clause 5.3.2): these bytes are pending from now on, where one of
    /// them wasn't.
    pub(crate) fn renew(&mut self, pending: Option<Spans>, threshold: u8)
        requires { FitsSent self.old pending }
        ensures { self.new ≡ renewed threshold self.old pending }
    {
        self.retx_count = counted(self.retx_count, pending.is_some(), threshold);
        if let Some(pending) = pending {
            self.pending = pending;
        }
    }

    /// All bytes that were sent become pending, which takes no memory. It answers whether RETX_COUNT came to the
    /// threshold.
    pub(crate) fn renew_all(&mut self, threshold: u8) -> bool
        requires { 0 < length self.old.flags }
        ensures { RetransmitsAll threshold self.old result self.new }
    {
        let fresh = !self.pending.covers(0, self.sent);
        let mark = comes_to(self.retx_count, fresh, threshold);
        self.retx_count = counted(self.retx_count, fresh, threshold);
        self.pending.only(0, self.sent);
        mark
    }
}

// Whether RETX_COUNT comes to the threshold, by whether a byte becomes pending that wasn't.
fn comes_to(retx_count: Option<u16>, fresh: bool, threshold: u8) -> bool
    requires { IfSome retx_count (λ count. count ≤ 256) }
    ensures { result ≡ comes_to threshold retx_count fresh }
{
    match retx_count {
        None => threshold == 0,
        Some(count) => fresh && u16::from(threshold) == count + 1,
    }
}

// RETX_COUNT behind that.
fn counted(retx_count: Option<u16>, fresh: bool, threshold: u8) -> Option<u16>
    requires { IfSome retx_count (λ count. count ≤ 256) }
    ensures value { result ≡ counted threshold retx_count fresh }
    ensures small { IfSome result (λ count. count ≤ 256) }
{
    match retx_count {
        None => Some(0),
        Some(count) if fresh => Some((count + 1).min(u16::from(threshold) + 1)),
        Some(count) => Some(count),
    }
}
