// The SDUs that are not confirmed, by number.
ghost use Rattle.std.specs.Prelude.{◌≡◌, ◌+◌, ◌<◌, ◌≤◌, ◌^◌, [], ◌∷◌, ◌++◌, None, Some, true, false, if◌then◌else◌, length, drop, replicate, slice_index_or, slice_set, IfSome, IfNone, OnOk, OnErr};
ghost use Rattle.std.specs.List.{prefix_len};
ghost use Rattle.std.specs.Option.{is_none};
ghost use Rattle.std.specs.Bool.{MatchBool};
ghost use Rattle.pdcp_model.specs.Sender.{is_reported, still_kept};

use crate::report::is_reported;
use link_base::{Bytes, Memory, copy_bytes};
use std::alloc::Global;
use std::collections::VecDeque;
use std::marker::Model;

/// The SDUs that are not confirmed, by number. A number is a COUNT less the first one.
#[derive(Drop)]
pub(crate) struct KeptSdus {
    alloc: Global,
    // How many of the SDUs accepted first are all confirmed: the number of the first SDU here.
    confirmed: u64,
    // None for an SDU that is confirmed. The first one isn't.
    sdus: VecDeque<Option<Bytes>>,
}

impl Model for KeptSdus {
    ghost use Rattle.std.specs.Prelude.{List, ℕ, Option};

    ghost Value = { List (Option (List ℕ)) };

    ghost use Rattle.pdcp_tx.specs.Kept.{kept_of, IsKept};

    ghost view = { kept_of };

    ghost invariant = { IsKept };
}

impl KeptSdus {
    /// No SDU.
    pub(crate) fn new(alloc: Global) -> Self
        ensures { result ≡ [] }
    {
        KeptSdus {
            alloc,
            confirmed: 0,
            sdus: VecDeque::new(alloc),
        }
    }

    /// How many SDUs were accepted.
    pub(crate) fn submitted(&self) -> u64
        ensures value { result ≡ length self.now }
        ensures small { result < 2 ^ 32 }
    {
        self.confirmed + self.sdus.len() as u64
    }

    /// How many of the SDUs accepted first are all confirmed.
    pub(crate) fn confirmed(&self) -> u64
        ensures value { result ≡ prefix_len is_none self.now }
        ensures within { result ≤ length self.now }
    {
        self.confirmed
    }

    /// The SDU of a number, or None where it is confirmed or was not accepted.
    pub(crate) fn sdu(&self, number: u64) -> Option<&Bytes>
        ensures some { IfSome result (λ sdu. slice_index_or self.now number None ≡ Some sdu.now) }
        ensures none { IfNone result (slice_index_or self.now number None ≡ None) }
    {
        if number < self.confirmed {
            return None;
        }
        let index = (number - self.confirmed) as usize;
        if index >= self.sdus.len() {
            return None;
        }
        self.sdus[index].as_ref()
    }

    /// The first number from `number` on whose SDU is not confirmed, or the number of the next SDU accepted.
    pub(crate) fn next_from(&self, number: u64) -> u64
        requires { number ≤ length self.now }
        ensures { result ≡ number + prefix_len is_none (drop number self.now) }
    {
        if number < self.confirmed {
            return self.confirmed;
        }
        let index = first_from(&self.sdus, (number - self.confirmed) as usize);
        self.confirmed + index as u64
    }

    /// Adds a copy of an SDU. After an `Err` nothing changed.
    pub(crate) fn push(&mut self, sdu: &[u8]) -> Result<(), Memory>
        requires { length self.old + 1 < 2 ^ 32 }
        ensures ok { OnOk result (self.new ≡ self.old ++ Some sdu.now ∷ []) }
        ensures err { OnErr result (self.new ≡ self.old) }
    {
        let copy = copy_bytes(self.alloc, sdu)?;
        self.sdus.push_back(Some(copy))?;
        Ok(())
    }

    /// Delivery of an SDU is confirmed, and the SDU is discarded (TS 38.323 clause 5.3).
    pub(crate) fn confirm(&mut self, number: u64)
        requires { number < length self.old }
        ensures { self.new ≡ slice_set self.old number None }
    {
        if number < self.confirmed {
            return;
        }
        let index = (number - self.confirmed) as usize;
        self.sdus[index] = None;
        self.confirmed += pop_confirmed(&mut self.sdus) as u64;
    }

    /// Delivery of each SDU that a status report says was received is confirmed, where `first` is the COUNT of number 0
    /// (TS 38.323 clause 5.4.2).
    pub(crate) fn confirm_reported(&mut self, first: u32, fmc: u32, map: &[u8])
        requires { first + length self.old < 2 ^ 32 }
        ensures { self.new ≡ still_kept (is_reported fmc map.now) first self.old }
    {
        discard_reported(&mut self.sdus, first + self.confirmed as u32, fmc, map);
        self.confirmed += pop_confirmed(&mut self.sdus) as u64;
    }
}

// The place of the first SDU from `from` on, or the length.
fn first_from(sdus: &VecDeque<Option<Bytes>>, from: usize) -> usize
    requires { from ≤ length sdus.now.items }
    ensures value { result ≡ from + prefix_len is_none (drop from sdus.now.items) }
    ensures within { result ≤ length sdus.now.items }
{
    let mut index = from;
    while is_confirmed(sdus, index) {
        index += 1;
    }
    index
}

// Discards the SDUs that a status report says were received, where `count` is the COUNT of the first.
fn discard_reported(sdus: &mut VecDeque<Option<Bytes>>, count: u32, fmc: u32, map: &[u8])
    requires { count + length sdus.old.items < 2 ^ 32 }
    ensures { sdus.new.items ≡ still_kept (is_reported fmc map.now) count sdus.old.items }
{
    for index in 0..sdus.len() {
        discard_if(
            &mut sdus[index],
            is_reported(fmc, map, count + index as u32),
        );
    }
}

// Discards an SDU where it is confirmed.
fn discard_if(sdu: &mut Option<Bytes>, confirmed: bool)
    ensures { sdu.new ≡ (if confirmed then None else sdu.old) }
{
    if confirmed {
        *sdu = None;
    }
}

// Takes the confirmed SDUs at the front away, and answers how many there were.
fn pop_confirmed(sdus: &mut VecDeque<Option<Bytes>>) -> usize
    ensures kept { replicate result None ++ sdus.new.items ≡ sdus.old.items }
    ensures front { prefix_len is_none sdus.new.items ≡ 0 }
{
    let mut count = 0;
    while is_confirmed(sdus, 0) {
        sdus.pop_front();
        count += 1;
    }
    count
}

// Whether a confirmed SDU stands at a place.
fn is_confirmed(sdus: &VecDeque<Option<Bytes>>, index: usize) -> bool
    ensures { MatchBool result
        ((index < length sdus.now.items)
        × (is_none (slice_index_or sdus.now.items index None) ≡ true))
        (index < length sdus.now.items
        → is_none (slice_index_or sdus.now.items index None) ≡ false) }
{
    index < sdus.len() && sdus[index].is_none()
}
