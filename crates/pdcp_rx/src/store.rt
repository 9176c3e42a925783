// The SDUs that wait for one with a lower COUNT. The place of an SDU is how far its COUNT is above RX_DELIV.
ghost use Rattle.std.specs.Prelude.{◌≡◌, ◌+◌, ◌-◌, ◌<◌, ◌≤◌, ◌^◌, ◌++◌, length, drop, replicate, vec_len, vec_capacity, Some, None, OnOk, OnErr, IfOk};
ghost use Rattle.pdcp_model.specs.Receiver.{run, with_sdu};
ghost use Rattle.pdcp_rx.specs.Store.{waits, bits_from, IsBitmap, TakesFront};

use link_base::{Bytes, Memory};
use std::alloc::Global;
use std::collections::VecDeque;

/// Whether an SDU waits at a place.
pub(crate) fn waits(stored: &VecDeque<Option<Bytes>>, at: usize) -> bool
    ensures { result ≡ waits stored.now.items at }
{
    matches!(stored.get(at), Some(Some(_)))
}

/// How many SDUs wait from a place on up to the first gap.
pub(crate) fn run_len(stored: &VecDeque<Option<Bytes>>, from: usize) -> usize
    ensures { result ≡ length (run (drop from stored.now.items)) }
{
    let mut end = from;
    while waits(stored, end) {
        end += 1;
    }
    end - from
}

// Takes the SDU at the front off, where one waits there.
fn take_front(stored: &mut VecDeque<Option<Bytes>>) -> Option<Bytes>
    ensures { TakesFront stored.old.items result stored.new.items }
{
    if waits(stored, 0) {
        stored.pop_front().flatten()
    } else {
        None
    }
}

/// Takes the SDUs at the front up to the first gap off, and adds them to a list that has room for them.
pub(crate) fn take_run(stored: &mut VecDeque<Option<Bytes>>, sdus: &mut Vec<Bytes>)
    requires { vec_len sdus.old + length (run stored.old.items) ≤ vec_capacity sdus.old }
    ensures sdus { sdus.new.items ≡ sdus.old.items ++ run stored.old.items }
    ensures rest { stored.new.items ≡ drop (length (run stored.old.items)) stored.old.items }
{
    while let Some(sdu) = take_front(stored) {
        sdus.push_reserved(sdu);
    }
}

// Adds gaps at the end until there are `len` places. After an `Err` there are as many as before.
fn grow(stored: &mut VecDeque<Option<Bytes>>, len: usize) -> Result<(), Memory>
    ensures ok { OnOk result (stored.new.items ≡
        stored.old.items ++ replicate (len - length stored.old.items) None) }
    ensures err { OnErr result (stored.new.items ≡ stored.old.items) }
{
    stored.reserve(len.saturating_sub(stored.len()))?;
    while stored.len() < len {
        stored.push_back_reserved(None);
    }
    Ok(())
}

/// Puts an SDU at a place. After an `Err` nothing changed.
pub(crate) fn put(stored: &mut VecDeque<Option<Bytes>>, at: usize, sdu: Bytes) -> Result<(), Memory>
    requires { at < 2 ^ 63 }
    ensures ok { OnOk result (stored.new.items ≡ with_sdu at sdu stored.old.items) }
    ensures err { OnErr result (stored.new.items ≡ stored.old.items) }
{
    grow(stored, at + 1)?;
    stored[at] = Some(sdu);
    Ok(())
}

// The octet whose bits are 1 where an SDU waits, from bit 7 and a place on.
fn octet_from(stored: &VecDeque<Option<Bytes>>, from: usize) -> u8
    requires { from < 2 ^ 63 }
    ensures { result ≡ bits_from stored.now.items from 8 }
{
    let mut octet = 0;
    for at in 0..8 {
        octet = 2 * octet + u8::from(waits(stored, from + at));
    }
    octet
}

/// The bitmap of a status report: a bit for each place behind the first one, 1 where an SDU waits, up to the octet of the
/// last one (TS 38.323 clause 6.3.10).
pub(crate) fn bitmap(alloc: Global, stored: &VecDeque<Option<Bytes>>) -> Result<Vec<u8>, Memory>
    ensures { IfOk result (λ map. IsBitmap stored.now.items map.items) }
{
    let octets = stored.len().saturating_sub(1).div_ceil(8);
    let mut map = Vec::with_capacity(alloc, octets)?;
    for octet in 0..octets {
        map.push_reserved(octet_from(stored, 8 * octet + 1));
    }
    Ok(map)
}
