// The receiving side of an RLC entity in acknowledged mode.
ghost use Rattle.std.specs.Prelude.{◌≡◌, ◌≢◌, true, ◌<◌, ◌≤◌, ◌+◌, ◌^◌, ◌||◌, [], None, IfOk, OnOk, OnErr, IfSome, IfNone, IsTrue, ◌↔◌};
ghost use Rattle.std.specs.Option.{is_some};
ghost use Rattle.std.specs.Bool.{MatchBool};
ghost use Rattle.link_base.specs.SequenceNumbers.{Near};
ghost use Rattle.rlc_pdu.specs.Amd.{amd_of, AmdFits};
ghost use Rattle.rlc_law.specs.Receiver.{IsSound};
ghost use Rattle.rlc_model.specs.Calls.{HearsAs, ExpiresReassemblyAs, ExpiresProhibitAs};
ghost use Rattle.rlc_model.specs.Made.{prohibited, HoldsNone, HoldsSome, IsMissing, IsTouched, Makes};
ghost use Rattle.rlc_model.specs.Numbers.{IsFirst};
ghost use Rattle.rlc_model.specs.Rx.{empty_rx, got, rx_next, status_due, IsRepeat, IsConflict, IsToBePlaced};
ghost use Rattle.rlc_model.specs.Rx.Got.{Done, Part};
ghost use Rattle.rlc_am_rx.specs.Elements.{AddsGaps, PlacesFit};
ghost use Rattle.rlc_am_rx.specs.Reassembly.{got_of};
ghost use Rattle.rlc_am_rx.specs.StatusMaking.{left_by, IsTrueStatusOf, IsMissingRun, NeedsElements};
ghost use Rattle.rlc_am_rx.specs.Hearing.{heard_of, with_triggered, HasSduLength, PlacesAs};

use crate::polling::DelayedPolls;
use crate::reassembly::{
    Entry, first_open, grow, pop_done, status_after, trigger_after, trigger_from,
};
use crate::status::sn_of;
use link_base::{Bytes, Expired, Memory, SnSize, near};
use rlc_model::{Heard, Made};
use rlc_pdu::AmdView;
use rlc_status::{Nack, Status};
use std::alloc::Global;
use std::collections::VecDeque;
use std::marker::Model;

/// The receiving side of an RLC entity in acknowledged mode (TS 38.322 clause 5.2.3.2). It speaks of numbers, which are
/// not cut to the bits of a sequence number.
#[derive(Drop)]
pub struct AmRx {
    alloc: Global,
    size: SnSize,
    rx_next: u64,
    rx_next_highest: u64,
    rx_highest_status: u64,
    // It is there while t-Reassembly runs.
    rx_next_status_trigger: Option<u64>,
    // What is got of RX_Next and the numbers behind it; of those from RX_Next_Highest on it is nothing.
    entries: VecDeque<Entry>,
    status_triggered: bool,
    delayed_polls: DelayedPolls,
    status_prohibit_runs: bool,
}

impl Model for AmRx {
    ghost use Rattle.rlc_model.specs.Rx.{Rx};

    ghost Value = { Rx };

    ghost use Rattle.rlc_am_rx.specs.Receiver.{receiver_of, IsReceiver};

    ghost view = { receiver_of };

    ghost invariant = { IsReceiver };
}

// The answer to a PDU of this number that was placed, by the SDU that it made complete.
fn answer_of(number: u64, sdu: Option<Bytes>) -> Heard
    ensures { result ≡ heard_of number sdu }
{
    match sdu {
        Some(sdu) => Heard::Complete(number, sdu),
        None => Heard::Stored,
    }
}

impl AmRx {
    /// A receiver that has heard nothing.
    pub fn new(alloc: Global, size: SnSize) -> Result<Self, Memory>
        ensures { IfOk result (λ rx. rx ≡ empty_rx size) }
    {
        Ok(AmRx {
            alloc,
            size,
            rx_next: 0,
            rx_next_highest: 0,
            rx_highest_status: 0,
            rx_next_status_trigger: None,
            entries: VecDeque::new(alloc),
            status_triggered: false,
            delayed_polls: DelayedPolls::new(alloc),
            status_prohibit_runs: false,
        })
    }

    /// Hears a data PDU that the format of this receiver's size can hold, where RX_Next is at most 2^62 (TS 38.322 clause
    /// 5.2.3.2.2).
    ///
    /// An SDU that it makes complete has at least one byte, and no more than the longest SDU. An `Err` is want of memory. It
    /// comes only where the PDU is to be placed, and the receiver is as it was.
    pub fn hear(&mut self, pdu: &AmdView<'_>) -> Result<Heard, Memory>
        requires fits { AmdFits self.old.size (amd_of pdu.now) }
        requires small { rx_next self.old ≤ 2 ^ 62 }
        ensures ok { IfOk result (λ answer. HearsAs self.old pdu.now answer self.new) }
        ensures length { IfOk result HasSduLength }
        ensures err { OnErr result (self.new ≡ self.old) }
        ensures memory { OnErr result (IsToBePlaced self.old (amd_of pdu.now)) }
    {
        let Some(number) = near(pdu.sn, self.next(), self.size()) else {
            self.poll_at_once(pdu.poll);
            return Ok(Heard::Outside);
        };
        if self.is_repeat(number, pdu) {
            self.poll_at_once(pdu.poll);
            return Ok(Heard::Repeat);
        }
        if self.conflicts(number, pdu) {
            self.poll_at_once(pdu.poll);
            return Ok(Heard::Conflict);
        }
        self.place(number, pdu)
    }

    fn poll_at_once(&mut self, poll: bool)
        ensures { self.new ≡ with_triggered self.old (self.old.status_triggered || poll) }
    {
        self.status_triggered |= poll;
    }

    // What is got of a number from RX_Next on; None where it has no entry, and nothing is.
    fn entry(&self, number: u64) -> Option<&Entry>
        requires { rx_next self.now ≤ number }
        ensures some { IfSome result (λ entry. got self.now number ≡ got_of entry.now) }
        ensures none { IfNone result (got self.now number ≡ Part [] None) }
    {
        self.entries.get((number - self.rx_next) as usize)
    }

    // Whether a PDU of this number brings nothing new.
    fn is_repeat(&self, number: u64, pdu: &AmdView<'_>) -> bool
        requires { AmdFits self.now.size (amd_of pdu.now) }
        ensures { IsTrue result ↔ IsRepeat self.now number (amd_of pdu.now) }
    {
        if number < self.rx_next {
            return true;
        }
        let Some(entry) = self.entry(number) else {
            return false;
        };
        match entry {
            Entry::Untouched => false,
            Entry::Partly(assembly) => assembly.is_repeat(pdu),
            Entry::Done => true,
        }
    }

    // Whether a PDU of this number disagrees with what is held about its SDU's end.
    fn conflicts(&self, number: u64, pdu: &AmdView<'_>) -> bool
        requires from { rx_next self.now ≤ number }
        requires fits { AmdFits self.now.size (amd_of pdu.now) }
        ensures { IsTrue result ↔ IsConflict (got self.now number) (amd_of pdu.now) }
    {
        match self.entry(number) {
            Some(Entry::Partly(assembly)) => assembly.conflicts(pdu),
            _ => false,
        }
    }

    // Places a PDU of this number. All memory is taken before anything changes.
    fn place(&mut self, number: u64, pdu: &AmdView<'_>) -> Result<Heard, Memory>
        requires fits { AmdFits self.old.size (amd_of pdu.now) }
        requires near { Near self.old.size pdu.now.sn (rx_next self.old) number }
        requires base { rx_next self.old ≤ 2 ^ 62 }
        requires news { IsRepeat self.old number (amd_of pdu.now) → ⊥ }
        requires agrees { IsConflict (got self.old number) (amd_of pdu.now) → ⊥ }
        ensures ok { IfOk result
            (λ answer. PlacesAs self.old number (amd_of pdu.now) answer self.new) }
        ensures length { IfOk result HasSduLength }
        ensures err { OnErr result (self.new ≡ self.old) }
    {
        let at = (number - self.rx_next) as usize;
        // An entry of which nothing is got tells the same as none, so those added here may stay behind an `Err`.
        grow(&mut self.entries, at + 1)?;
        let fresh = self.delayed_polls.add_if(pdu.poll, number)?;
        let Ok(sdu) = self.entries[at].place(self.alloc, pdu, self.size) else {
            self.delayed_polls.take_back(fresh, number);
            return Err(Memory);
        };
        // In the order of TS 38.322 clause 5.2.3.2.3: RX_Highest_Status and RX_Next move before t-Reassembly, whose rules
        // speak of RX_Next as it is then.
        self.rx_next_highest = self.rx_next_highest.max(number + 1);
        self.rx_highest_status = status_after(
            &self.entries,
            self.rx_next,
            self.rx_highest_status,
            number,
            sdu.is_some(),
        );
        self.rx_next += pop_done(&mut self.entries) as u64;
        self.rx_next_status_trigger = trigger_after(
            &self.entries,
            self.rx_next,
            self.rx_next_highest,
            self.rx_next_status_trigger,
            self.size,
        );
        // A poll also triggers from RX_Next and a window on (clause 5.3.4), but no number that is placed lies there.
        self.status_triggered |= self.delayed_polls.take_below(self.rx_highest_status);
        Ok(answer_of(number, sdu))
    }

    /// t-Reassembly runs out (TS 38.322 clause 5.2.3.2.4).
    pub fn expire_reassembly(&mut self) -> Expired
        ensures { ExpiresReassemblyAs self.old result self.new }
    {
        let Some(trigger) = self.rx_next_status_trigger else {
            return Expired::Stopped;
        };
        let at = first_open(&self.entries, (trigger - self.rx_next) as usize);
        self.rx_highest_status = self.rx_next + at as u64;
        self.rx_next_status_trigger = trigger_from(
            &self.entries,
            at,
            self.rx_highest_status,
            self.rx_next_highest,
        );
        self.delayed_polls.take_below(self.rx_highest_status);
        self.status_triggered = true;
        Expired::Done
    }

    /// t-StatusProhibit runs out (TS 38.322 clause 5.3.4).
    pub fn expire_prohibit(&mut self) -> Expired
        ensures { ExpiresProhibitAs self.old result self.new }
    {
        if !self.status_prohibit_runs {
            return Expired::Stopped;
        }
        self.status_prohibit_runs = false;
        Expired::Done
    }

    /// How many bits its sequence numbers have.
    pub fn size(&self) -> SnSize
        ensures { result ≡ self.now.size }
    {
        self.size
    }

    /// Whether a STATUS is triggered and t-StatusProhibit isn't running (TS 38.322 clause 5.3.4).
    pub fn status_due(&self) -> bool
        ensures { result ≡ status_due self.now }
    {
        self.status_triggered && !self.status_prohibit_runs
    }

    /// RX_Next: the first number whose SDU isn't complete (TS 38.322 clause 7.1).
    pub fn next(&self) -> u64
        ensures { result ≡ rx_next self.now }
    {
        self.rx_next
    }

    /// RX_Highest_Status: the highest number that the ACK_SN of a STATUS can stand for (TS 38.322 clause 7.1). It isn't
    /// complete, and a receiver is sound whatever it heard.
    pub fn highest_status(&self) -> u64
        ensures value { result ≡ self.now.rx_highest_status }
        ensures sound { IsSound self.now }
    {
        self.rx_highest_status
    }

    /// Whether t-Reassembly runs (TS 38.322 clause 7.3).
    pub fn reasm_running(&self) -> bool
        ensures { result ≡ is_some self.now.rx_next_status_trigger }
    {
        self.rx_next_status_trigger.is_some()
    }

    /// Whether a STATUS is triggered, prohibited or not (TS 38.322 clause 5.3.4).
    pub fn triggered(&self) -> bool
        ensures { result ≡ self.now.status_triggered }
    {
        self.status_triggered
    }

    /// Makes a STATUS PDU of at most `n` octets, where one is due: what `write_status` writes, and t-StatusProhibit starts
    /// where that is one (TS 38.322 clause 5.3.4).
    ///
    /// An `Err` is want of memory, as of `write_status`, and the receiver is as it was.
    pub fn make_status(&mut self, n: u32) -> Result<Made, Memory>
        requires { status_due self.old ≡ true }
        ensures ok { IfOk result (λ made. Makes self.old n made self.new) }
        ensures truth { IfOk result (λ made. IsTrueStatusOf self.old n made) }
        ensures err { OnErr result (self.new ≡ self.old) }
        ensures memory { OnErr result (NeedsElements self.old n) }
    {
        let made = self.write_status(n)?;
        if let Made::Full { .. } = &made {
            self.begin_prohibit();
        }
        Ok(made)
    }

    /// Writes a STATUS PDU of at most `n` octets, where one is due. It names the missing numbers below RX_Highest_Status in
    /// order, as far as there is room. Nothing changes; once it is sent, `begin_prohibit` is to be called (TS 38.322 clause
    /// 5.3.4).
    ///
    /// The time is in proportion to the numbers from RX_Next up to RX_Highest_Status and to the elements written. An `Err`
    /// is want of memory, and comes only where at least 3 octets are allowed and a number is missing.
    pub fn write_status(&self, n: u32) -> Result<Made, Memory>
        requires { status_due self.now ≡ true }
        ensures ok { IfOk result (λ made. Makes self.now n made (left_by made self.now)) }
        ensures truth { IfOk result (λ made. IsTrueStatusOf self.now n made) }
        ensures memory { OnErr result (NeedsElements self.now n) }
    {
        let Some(octets) = n.checked_sub(3) else {
            return Ok(Made::Small { need: 3 });
        };
        let written = self.write(self.alloc, octets)?;
        let status = Status {
            ack: sn_of(self.size, written.ack),
            nacks: written.nacks,
        };
        Ok(Made::Full {
            status,
            ack: written.ack,
        })
    }

    /// A STATUS was sent: none is triggered any more, and t-StatusProhibit starts (TS 38.322 clause 5.3.4).
    pub fn begin_prohibit(&mut self)
        ensures { self.new ≡ prohibited self.old }
    {
        self.status_triggered = false;
        self.status_prohibit_runs = true;
    }

    // The first number from this one on whose SDU isn't complete.
    pub(crate) fn first_open(&self, number: u64) -> u64
        requires { rx_next self.now ≤ number }
        ensures { IsFirst (λ n. got self.now n ≢ Done) number result }
    {
        self.rx_next + first_open(&self.entries, (number - self.rx_next) as usize) as u64
    }

    // Whether a byte of the number's SDU is held.
    pub(crate) fn holds_some(&self, number: u64) -> bool
        requires { rx_next self.now ≤ number }
        ensures { MatchBool result (HoldsSome (got self.now number))
            (HoldsNone (got self.now number)) }
    {
        match self.entry(number) {
            Some(Entry::Partly(assembly)) => assembly.holds_some(),
            _ => false,
        }
    }

    // Adds an element for each gap of the number's SDU.
    pub(crate) fn add_gaps(&self, number: u64, nacks: &mut Vec<Nack>, sn: u32) -> Result<(), Memory>
        requires from { rx_next self.now ≤ number }
        requires some { HoldsSome (got self.now number) }
        requires fit { PlacesFit (got self.now number) }
        ensures { OnOk result (AddsGaps sn (got self.now number) nacks.old.items nacks.new.items) }
    {
        match self.entry(number) {
            Some(Entry::Partly(assembly)) => assembly.add_gaps(nacks, sn),
            _ => unreachable!(),
        }
    }

    // Whether the number's SDU is complete, or a byte of it is held.
    fn is_touched(&self, number: u64) -> bool
        requires { rx_next self.now ≤ number }
        ensures { IsTrue result ↔ IsTouched (got self.now number) }
    {
        match self.entry(number) {
            Some(Entry::Partly(assembly)) => assembly.holds_some(),
            Some(Entry::Done) => true,
            _ => false,
        }
    }

    // The number behind the run of missing numbers of which nothing is held that begins with this one, or behind its first
    // 255 numbers.
    pub(crate) fn run_end(&self, number: u64) -> u64
        requires from { rx_next self.now ≤ number }
        requires missing { IsMissing self.now number }
        requires untouched { HoldsNone (got self.now number) }
        ensures { IsMissingRun self.now number result }
    {
        let last = self.rx_highest_status.min(number.saturating_add(255));
        for end in number + 1..last {
            if self.is_touched(end) {
                return end;
            }
        }
        last
    }
}
