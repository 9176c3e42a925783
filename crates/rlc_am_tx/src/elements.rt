// What the elements of a STATUS PDU name.
ghost use Rattle.std.specs.Prelude.{◌≡◌, ◌↔◌, ◌+◌, ◌<◌, ◌≤◌, ◌^◌, ℕ, IfSome, IfNone, IsTrue};
ghost use Rattle.link_base.specs.SequenceNumbers.{modulus};
ghost use Rattle.rlc_status.specs.Format.{NackFits, AllFit};
ghost use Rattle.rlc_status.specs.Says.{IsGreatest, count, starts_by, ends_behind, Some_has, NamesNumber};
ghost use Rattle.rlc_am_tx.specs.Flags.{IsBefore};
ghost use Rattle.rlc_am_tx.specs.Elements.{HasPlace, HoldsPlace};

use link_base::SnSize;
use rlc_status::Nack;

// SOend for the end of an SDU (TS 38.322 clause 6.2.3.15).
pub(crate) const TO_THE_END: u16 = 65_535;

/// Places of bytes of an SDU that an element names: those from `from` up to but without `until`, or from `from` on.
#[derive(Clone, Copy, Debug)]
pub(crate) struct Places {
    pub(crate) from: u32,
    pub(crate) until: Option<u32>,
}

impl Places {
    /// The end of so many places that lie before `until`.
    pub(crate) fn end_within(&self, len: u32) -> u32
        ensures within { result ≤ len }
        ensures before { (p : ℕ) → p < len → IsBefore self.now.until p ↔ p < result }
    {
        match self.until {
            Some(until) => until.min(len),
            None => len,
        }
    }
}

/// The greatest number below `ack` with this sequence number.
pub(crate) fn greatest(sn: u32, ack: u64, size: SnSize) -> Option<u64>
    requires sn { sn < modulus size }
    requires small { ack ≤ 2 ^ 63 }
    ensures some { IfSome result (IsGreatest size ack sn) }
    ensures none { IfNone result ((m : ℕ) → IsGreatest size ack sn m → ⊥) }
{
    let sn = u64::from(sn);
    let cycle = size.modulus();
    let same_cycle = ack - ack % cycle + sn;
    if same_cycle < ack {
        Some(same_cycle)
    } else {
        same_cycle.checked_sub(cycle)
    }
}

/// How many numbers an element names.
pub(crate) fn count_of(nack: &Nack) -> u64
    ensures value { result ≡ count nack.now }
    ensures small { result < 256 }
{
    match nack.range {
        Some(range) => u64::from(range),
        None => 1,
    }
}

/// Whether an element names a number below `ack`.
pub(crate) fn names(size: SnSize, ack: u64, nacks: &[Nack], number: u64) -> bool
    requires fits { AllFit size nacks.now }
    requires small { ack ≤ 2 ^ 62 }
    ensures { IsTrue result ↔ Some_has (λ e. NamesNumber size ack e number) nacks.now }
{
    for nack in nacks {
        if names_number(size, ack, nack, number) {
            return true;
        }
    }
    false
}

fn names_number(size: SnSize, ack: u64, nack: &Nack, number: u64) -> bool
    requires fits { NackFits size nack.now }
    requires small { ack ≤ 2 ^ 62 }
    ensures { IsTrue result ↔ NamesNumber size ack nack.now number }
{
    match greatest(nack.sn, ack, size) {
        Some(first) => first <= number && number < first + count_of(nack),
        None => false,
    }
}

/// The places that an element names of a number, where `first` is its first one.
pub(crate) fn places_of(nack: &Nack, first: u64, number: u64) -> Places
    requires small { number < 2 ^ 63 }
    requires first { first ≤ 2 ^ 62 }
    ensures { (p : ℕ) → HasPlace result p ↔ HoldsPlace nack.now first number p }
{
    let from = if number == first { start_of(nack) } else { 0 };
    let until = if number + 1 == first + count_of(nack) {
        end_of(nack)
    } else {
        None
    };
    Places { from, until }
}

// The first place that an element names of its first number.
fn start_of(nack: &Nack) -> u32
    ensures { (p : ℕ) → result ≤ p ↔ starts_by nack.now.part p }
{
    match nack.part {
        Some((start, _)) => u32::from(start),
        None => 0,
    }
}

// The place behind the last one that an element names of its last number, or None for the SDU's end.
fn end_of(nack: &Nack) -> Option<u32>
    ensures { (p : ℕ) → IsBefore result p ↔ ends_behind nack.now.part p }
{
    match nack.part {
        Some((_, end)) if end != TO_THE_END => Some(u32::from(end) + 1),
        _ => None,
    }
}
