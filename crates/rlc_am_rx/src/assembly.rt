// One SDU while it is put together.
ghost use Rattle.std.specs.Prelude.{◌≡◌, ◌≢◌, ◌⊎◌, ◌<◌, ◌≤◌, ◌+◌, ◌-◌, ℕ, true, false, if◌then◌else◌, Some, None, OnOk, OnErr, IfOk, IfSome, IfNone, IsTrue, ◌↔◌, length, slice_index};
ghost use Rattle.std.specs.Bool.{MatchBool};
ghost use Rattle.link_base.specs.declared.limits.TheConstants.{LONGEST_RLC_SDU};
ghost use Rattle.rlc_pdu.specs.Amd.{amd_of};
ghost use Rattle.byte_spans.specs.Spans.{Has, Lacks, HasAll};
ghost use Rattle.rlc_model.specs.Pdu.{end_of, is_end};
ghost use Rattle.rlc_model.specs.Rx.{len_of, BringsNothing, HasGap, IsConflict, IsFull, Covers, Places};
ghost use Rattle.rlc_model.specs.Made.{last_place, HoldsNone, HoldsSome, IsWithin};
ghost use Rattle.rlc_am_rx.specs.Assembly.{got_of_pieces, HoldsFrom, LacksFrom, WritesBytes};
ghost use Rattle.rlc_am_rx.specs.Elements.{gap_of, AddsGaps, AddsInnerGaps, PlacesFit};

use byte_spans::Spans;
use link_base::{Bytes, Memory};
use rlc_pdu::{AmdView, Si};
use rlc_status::Nack;
use std::alloc::Global;
use std::marker::Model;

/// What is held of an SDU that isn't complete (TS 38.322 clause 5.2.3.2).
///
/// It takes a byte of memory for each place up to the last one held.
#[derive(Drop)]
pub(crate) struct Assembly {
    // A byte for each place up to the last one held; that of a place that isn't held means nothing.
    bytes: Vec<u8>,
    held: Spans,
    // The SDU's length, where it is known.
    length: Option<u32>,
}

impl Model for Assembly {
    ghost use Rattle.rlc_am_rx.specs.Assembly.{Pieces, pieces_of, IsAssembly};

    ghost Value = { Pieces };

    ghost view = { pieces_of };

    ghost invariant = { IsAssembly };
}

/// One more than the place of a PDU's last byte in its SDU.
fn end_of(pdu: &AmdView<'_>) -> u32
    requires { end_of (amd_of pdu.now) ≤ LONGEST_RLC_SDU }
    ensures { result ≡ end_of (amd_of pdu.now) }
{
    u32::from(pdu.so) + pdu.body.len() as u32
}

/// The length of an SDU once a part of it that reaches up to `to` is placed.
fn length_with(length: Option<u32>, si: Si, to: u32) -> Option<u32>
    ensures { result ≡ (if is_end si then Some to else length) }
{
    if is_end(si) { Some(to) } else { length }
}

/// Whether a part of an SDU has its last byte.
fn is_end(si: Si) -> bool
    ensures { result ≡ is_end si }
{
    matches!(si, Si::Whole | Si::Last)
}

impl Assembly {
    /// Nothing of an SDU.
    pub(crate) fn new(alloc: Global) -> Result<Self, Memory>
        ensures held { IfOk result (λ assembly. HoldsNone (got_of_pieces assembly)) }
        ensures len { IfOk result (λ assembly. assembly.len ≡ None) }
    {
        Ok(Assembly {
            bytes: Vec::new(alloc),
            held: Spans::new(alloc)?,
            length: None,
        })
    }

    /// Whether a byte is missing before the last byte held.
    pub(crate) fn has_gap(&self) -> bool
        ensures { IsTrue result ↔ HasGap (got_of_pieces self.now) }
    {
        match self.held.first() {
            Some((start, stop)) => start > 0 || stop < self.held.end(),
            None => false,
        }
    }

    /// Whether a byte is held.
    pub(crate) fn holds_some(&self) -> bool
        ensures { MatchBool result (HoldsSome (got_of_pieces self.now))
            (HoldsNone (got_of_pieces self.now)) }
    {
        self.held.end() > 0
    }

    /// Whether a PDU brings nothing new.
    pub(crate) fn is_repeat(&self, pdu: &AmdView<'_>) -> bool
        requires { end_of (amd_of pdu.now) ≤ LONGEST_RLC_SDU }
        ensures { IsTrue result ↔ BringsNothing (got_of_pieces self.now) (amd_of pdu.now) }
    {
        if self.lacks_length(pdu.si) {
            return false;
        }
        self.held.covers(u32::from(pdu.so), end_of(pdu))
    }

    // Whether a part of the SDU tells its length, which isn't known.
    fn lacks_length(&self, si: Si) -> bool
        ensures { MatchBool result ((is_end si ≡ true) × (self.now.len ≡ None))
            (is_end si ≡ false ⊎ self.now.len ≢ None) }
    {
        is_end(si) && self.length.is_none()
    }

    /// Whether a PDU disagrees with what is held about the SDU's end.
    pub(crate) fn conflicts(&self, pdu: &AmdView<'_>) -> bool
        requires { end_of (amd_of pdu.now) ≤ LONGEST_RLC_SDU }
        ensures { IsTrue result ↔ IsConflict (got_of_pieces self.now) (amd_of pdu.now) }
    {
        let to = end_of(pdu);
        if self.holds_past(pdu.si, to) {
            return true;
        }
        match self.length {
            None => false,
            Some(length) => {
                if is_end(pdu.si) {
                    length != to
                } else {
                    length <= to
                }
            }
        }
    }

    // Whether a part ends the SDU at `to`, and a place from there on is held.
    fn holds_past(&self, si: Si, to: u32) -> bool
        ensures { MatchBool result ((is_end si ≡ true) × HoldsFrom (got_of_pieces self.now) to)
            (is_end si ≡ true → LacksFrom (got_of_pieces self.now) to) }
    {
        is_end(si) && to < self.held.end()
    }

    /// Places a PDU; of a byte that is held the first copy stays.
    ///
    /// After an `Err` what is held is as it was.
    pub(crate) fn place(&mut self, pdu: &AmdView<'_>) -> Result<(), Memory>
        requires some { 0 < length pdu.now.body.now }
        requires short { end_of (amd_of pdu.now) ≤ LONGEST_RLC_SDU }
        ensures ok { OnOk result
            (Places (got_of_pieces self.old) (amd_of pdu.now) self.new.held self.new.len) }
        ensures err { OnErr result (self.new ≡ self.old) }
    {
        let to = end_of(pdu);
        write(&mut self.bytes, &self.held, usize::from(pdu.so), pdu.body)?;
        self.held.add(u32::from(pdu.so), to)?;
        self.length = length_with(self.length, pdu.si, to);
        Ok(())
    }

    /// The SDU's length, where it is known and all its bytes are held.
    pub(crate) fn whole(&self) -> Option<u32>
        ensures some { IfSome result
            (λ length. (self.now.len ≡ Some length) × IsFull self.now.held self.now.len) }
        ensures none { IfNone result (IsFull self.now.held self.now.len → ⊥) }
    {
        let length = self.length?;
        if self.held.covers(0, length) {
            Some(length)
        } else {
            None
        }
    }

    /// The SDU, all of which is held.
    pub(crate) fn into_sdu(self, length: u32) -> Bytes
        requires known { self.len ≡ Some length }
        requires full { IsFull self.held self.len }
        ensures { Covers self.held self.len result }
    {
        let Assembly { mut bytes, .. } = self;
        bytes.truncate(length as usize);
        Bytes::from_vec(bytes)
    }

    /// Adds an element for each gap, all with the same NACK_SN.
    pub(crate) fn add_gaps(&self, nacks: &mut Vec<Nack>, sn: u32) -> Result<(), Memory>
        requires { PlacesFit (got_of_pieces self.now) }
        ensures { OnOk result
            (AddsGaps sn (got_of_pieces self.now) nacks.old.items nacks.new.items) }
    {
        let end = self.add_inner_gaps(nacks, sn)?;
        if let Some(last) = self.last_missing(end) {
            nacks.push(gap(sn, end, last))?;
        }
        Ok(())
    }

    // Adds an element for each gap before the last byte held, and answers the place behind that byte.
    fn add_inner_gaps(&self, nacks: &mut Vec<Nack>, sn: u32) -> Result<u32, Memory>
        requires { PlacesFit (got_of_pieces self.now) }
        ensures { IfOk result
            (λ end. AddsInnerGaps sn (got_of_pieces self.now) end nacks.old.items nacks.new.items) }
    {
        let end = self.held.end();
        let mut from = 0;
        while let Some((start, stop)) = self.held.next_gap(from, end) {
            nacks.push(gap(sn, start, (stop - 1) as u16))?;
            from = stop;
        }
        Ok(end)
    }

    // SOend of the gap from `end` up to the SDU's end, where there is one (TS 38.322 clause 6.2.3.15).
    fn last_missing(&self, end: u32) -> Option<u16>
        requires { PlacesFit (got_of_pieces self.now) }
        ensures some { IfSome result
            (λ last. IsWithin (got_of_pieces self.now) end × (last ≡ last_place self.now.len)) }
        ensures none { IfNone result ((p : ℕ) → end ≤ p → IsWithin (got_of_pieces self.now) p → ⊥) }
    {
        match self.length {
            None => Some(u16::MAX),
            Some(length) if length > end => Some((length - 1) as u16),
            Some(_) => None,
        }
    }
}

// Copies a body to the places from `from` on that aren't held. The bytes of those that are stay.
fn write(bytes: &mut Vec<u8>, held: &Spans, from: usize, body: &[u8]) -> Result<(), Memory>
    requires { from + length body.now ≤ LONGEST_RLC_SDU }
    ensures placed { OnOk result
        (WritesBytes held.now from body.now bytes.old.items bytes.new.items) }
    ensures kept { (p : ℕ) → Has held.now p → p < length bytes.old.items
        → slice_index bytes.new.items p ≡ slice_index bytes.old.items p }
    ensures long { length bytes.old.items ≤ length bytes.new.items }
{
    if from > bytes.len() {
        bytes.resize(from, 0)?;
    }
    let known = body.len().min(bytes.len() - from);
    write_gaps(bytes, held, from, &body[..known]);
    bytes.extend_from_slice(&body[known..])?;
    Ok(())
}

// The same, where there is a byte for each of these places.
fn write_gaps(bytes: &mut [u8], held: &Spans, from: usize, body: &[u8])
    requires inside { from + length body.now ≤ length bytes.old }
    requires short { from + length body.now ≤ LONGEST_RLC_SDU }
    ensures placed { (p : ℕ) → from ≤ p → p < from + length body.now → Lacks held.now p
        → slice_index bytes.new p ≡ slice_index body.now (p - from) }
    ensures kept { (p : ℕ) → Has held.now p → slice_index bytes.new p ≡ slice_index bytes.old p }
    ensures long { length bytes.new ≡ length bytes.old }
{
    let until = (from + body.len()) as u32;
    let mut at = from as u32;
    while let Some((start, stop)) = held.next_gap(at, until) {
        let (start, stop) = (start as usize, stop as usize);
        bytes[start..stop].copy_from_slice(&body[start - from..stop - from]);
        at = stop as u32;
    }
}

// The element for a gap from one place to another.
fn gap(sn: u32, from: u32, to: u16) -> Nack
    requires { from < 65536 }
    ensures { result ≡ gap_of sn from to }
{
    Nack {
        sn,
        part: Some((from as u16, to)),
        range: None,
    }
}
