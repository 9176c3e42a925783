// What is got of the SDUs from RX_Next on, and when t-Reassembly runs.
ghost use Rattle.std.specs.Prelude.{◌≡◌, ◌≢◌, ◌<◌, ◌≤◌, ◌+◌, ◌^◌, ℕ, true, length, max, Option, Some, None, OnOk, OnErr, IfOk, IsTrue, ◌↔◌};
ghost use Rattle.std.specs.Bool.{MatchBool};
ghost use Rattle.link_base.specs.declared.names.SnSize.{SnSize};
ghost use Rattle.rlc_pdu.specs.Amd.{amd_of, AmdFits};
ghost use Rattle.rlc_model.specs.Rx.{HasGap, HasToRunBelow, IsConflict, RunsOnFrom, TriggerMoves};
ghost use Rattle.rlc_model.specs.Rx.Got.{Done};
ghost use Rattle.rlc_model.specs.Made.{HoldsNone, HoldsSome};
ghost use Rattle.rlc_am_rx.specs.Reassembly.{got_at, got_of, MovesStatus, PlacesSdu, StartsFrom};

use crate::assembly::Assembly;
use link_base::{Bytes, Memory, SnSize, copy_bytes};
use rlc_pdu::{AmdView, Si};
use std::alloc::Global;
use std::collections::VecDeque;
use std::mem;

/// What is got of an SDU (TS 38.322 clause 5.2.3.2).
#[derive(Drop)]
pub(crate) enum Entry {
    /// Nothing.
    Untouched,
    /// Some of its bytes, but not all.
    Partly(Box<Assembly>),
    /// All of it, and it went up.
    Done,
}

impl Entry {
    /// Places a PDU of an SDU that isn't complete, and answers the SDU where that makes it complete.
    ///
    /// After an `Err` what is got is as it was.
    pub(crate) fn place(
        &mut self,
        alloc: Global,
        pdu: &AmdView<'_>,
        size: SnSize,
    ) -> Result<Option<Bytes>, Memory>
        requires fits { AmdFits size (amd_of pdu.now) }
        requires undone { got_of self.old ≢ Done }
        requires agrees { IsConflict (got_of self.old) (amd_of pdu.now) → ⊥ }
        ensures ok { IfOk result
            (λ sdu. PlacesSdu (got_of self.old) (amd_of pdu.now) sdu (got_of self.new)) }
        ensures err { OnErr result (got_of self.new ≡ got_of self.old) }
    {
        match self {
            Entry::Untouched if matches!(pdu.si, Si::Whole) => {
                let sdu = copy_bytes(alloc, pdu.body)?;
                *self = Entry::Done;
                Ok(Some(sdu))
            }
            Entry::Untouched => {
                let mut assembly = Assembly::new(alloc)?;
                assembly.place(pdu)?;
                *self = Entry::Partly(Box::new(alloc, assembly)?);
                Ok(None)
            }
            Entry::Partly(assembly) => {
                assembly.place(pdu)?;
                let Some(length) = assembly.whole() else {
                    return Ok(None);
                };
                let Entry::Partly(whole) = mem::replace(self, Entry::Done) else {
                    unreachable!()
                };
                Ok(Some(Box::into_inner(whole).into_sdu(length)))
            }
            Entry::Done => unreachable!(),
        }
    }
}

/// Adds numbers of which nothing is got until there are `len`.
pub(crate) fn grow(entries: &mut VecDeque<Entry>, len: usize) -> Result<(), Memory>
    ensures same { (i : ℕ) → got_at entries.new.items i ≡ got_at entries.old.items i }
    ensures long { length entries.old.items ≤ length entries.new.items }
    ensures ok { OnOk result (len ≤ length entries.new.items) }
{
    while entries.len() < len {
        entries.push_back(Entry::Untouched)?;
    }
    Ok(())
}

/// Whether the SDU at a place is complete.
fn is_done(entries: &VecDeque<Entry>, at: usize) -> bool
    ensures { MatchBool result (got_at entries.now.items at ≡ Done)
        (got_at entries.now.items at ≢ Done) }
{
    matches!(entries.get(at), Some(Entry::Done))
}

/// The first place from `from` on whose SDU isn't complete, which may be one behind the list.
pub(crate) fn first_open(entries: &VecDeque<Entry>, from: usize) -> usize
    ensures after { from ≤ result }
    ensures within { result ≤ max from (length entries.now.items) }
    ensures before { (i : ℕ) → from ≤ i → i < result → got_at entries.now.items i ≡ Done }
    ensures here { got_at entries.now.items result ≢ Done }
{
    for at in from..entries.len() {
        if !is_done(entries, at) {
            return at;
        }
    }
    from.max(entries.len())
}

/// Takes the complete SDUs at the front away, and answers how many there were.
pub(crate) fn pop_done(entries: &mut VecDeque<Entry>) -> usize
    ensures long { length entries.new.items + result ≡ length entries.old.items }
    ensures done { (i : ℕ) → i < result → got_at entries.old.items i ≡ Done }
    ensures rest { (i : ℕ) → got_at entries.new.items i ≡ got_at entries.old.items (result + i) }
    ensures front { got_at entries.new.items 0 ≢ Done }
{
    let mut count = 0;
    while is_done(entries, 0) {
        entries.pop_front();
        count += 1;
    }
    count
}

/// RX_Highest_Status once a PDU of a number was placed, by whether its SDU is complete now; `next` is the number of the first
/// entry (TS 38.322 clause 5.2.3.2.3).
pub(crate) fn status_after(
    entries: &VecDeque<Entry>,
    next: u64,
    highest_status: u64,
    number: u64,
    complete: bool,
) -> u64
    requires from { next ≤ number }
    requires small { number < 2 ^ 63 }
    ensures { MovesStatus next entries.now.items number complete highest_status result }
{
    if complete && number == highest_status {
        next + first_open(entries, (number - next) as usize + 1) as u64
    } else {
        highest_status
    }
}

// Whether the SDU at a place has a byte missing before its last byte held.
fn has_gap(entries: &VecDeque<Entry>, at: usize) -> bool
    ensures { IsTrue result ↔ HasGap (got_at entries.now.items at) }
{
    match entries.get(at) {
        Some(Entry::Partly(assembly)) => assembly.has_gap(),
        _ => false,
    }
}

// Whether t-Reassembly has to run for a number whose entry stands at a place, by RX_Next_Highest (TS 38.322 clauses
// 5.2.3.2.3 and 5.2.3.2.4).
fn has_to_run(entries: &VecDeque<Entry>, at: usize, number: u64, highest: u64) -> bool
    ensures { IsTrue result
        ↔ HasToRunBelow highest number (HasGap (got_at entries.now.items at)) }
{
    match highest.saturating_sub(number) {
        0 => false,
        1 => has_gap(entries, at),
        _ => true,
    }
}

/// RX_Next_Status_Trigger where t-Reassembly starts if it has to run for this number, whose entry stands at a place, and
/// doesn't run if not.
pub(crate) fn trigger_from(
    entries: &VecDeque<Entry>,
    at: usize,
    number: u64,
    highest: u64,
) -> Option<u64>
    ensures { StartsFrom (HasToRunBelow highest number (HasGap (got_at entries.now.items at)))
        highest result }
{
    if has_to_run(entries, at, number, highest) {
        Some(highest)
    } else {
        None
    }
}

// Whether t-Reassembly runs on with this trigger, where the first entry is RX_Next's (TS 38.322 clause 5.2.3.2.3).
fn runs_on(entries: &VecDeque<Entry>, next: u64, trigger: u64, size: SnSize) -> bool
    ensures { IsTrue result
        ↔ RunsOnFrom next size (HasGap (got_at entries.now.items 0)) trigger }
{
    match trigger.saturating_sub(next) {
        0 => false,
        1 => has_gap(entries, 0),
        ahead => ahead <= size.window(),
    }
}

/// RX_Next_Status_Trigger once a PDU was placed, where it was `trigger` before and the first entry is RX_Next's.
pub(crate) fn trigger_after(
    entries: &VecDeque<Entry>,
    next: u64,
    highest: u64,
    trigger: Option<u64>,
    size: SnSize,
) -> Option<u64>
    ensures { TriggerMoves trigger (RunsOnFrom next size (HasGap (got_at entries.now.items 0)))
        (HasToRunBelow highest next (HasGap (got_at entries.now.items 0))) highest result }
{
    match trigger {
        Some(trigger) if runs_on(entries, next, trigger, size) => Some(trigger),
        _ => trigger_from(entries, 0, next, highest),
    }
}
