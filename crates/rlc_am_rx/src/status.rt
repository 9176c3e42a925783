// The elements of a STATUS.
ghost use Rattle.std.specs.Prelude.{◌≡◌, ◌≢◌, ◌+◌, ◌%◌, ◌<◌, ◌≤◌, ◌^◌, ◌==◌, if◌then◌else◌, Some, None, IfOk, OnErr, IfSome, IfNone};
ghost use Rattle.link_base.specs.SequenceNumbers.{modulus};
ghost use Rattle.rlc_status.specs.Format as format;
ghost use Rattle.rlc_model.specs.Rx.{got, rx_next};
ghost use Rattle.rlc_model.specs.Made.{IsMissing, WritesNacks};
ghost use Rattle.rlc_am_rx.specs.Elements.{PlacesFit};
ghost use Rattle.rlc_am_rx.specs.StatusMaking.{AddsGroup, HasMissing};

use crate::AmRx;
use link_base::{Memory, SnSize};
use rlc_status::{Nack, NackList};
use std::alloc::Global;

/// The elements of a STATUS, and the number that its ACK_SN stands for.
#[derive(Drop)]
pub(crate) struct Written {
    pub(crate) nacks: NackList,
    pub(crate) ack: u64,
}

/// The sequence number of a number.
pub(crate) fn sn_of(size: SnSize, number: u64) -> u32
    ensures { result ≡ number % modulus size }
{
    (number % size.modulus()) as u32
}

// How many octets an element has (TS 38.322 clause 6.2.2.5).
fn nack_len(size: SnSize, nack: &Nack) -> u32
    ensures { result ≡ format.nack_len size nack.now }
{
    let head = match size {
        SnSize::S12 => 2,
        SnSize::S18 => 3,
    };
    head + 4 * u32::from(nack.part.is_some()) + u32::from(nack.range.is_some())
}

// How many of so many octets are left behind elements; None where these have more.
fn left_behind(size: SnSize, nacks: &[Nack], octets: u32) -> Option<u32>
    ensures some { IfSome result (λ left. left + format.nacks_len size nacks.now ≡ octets) }
    ensures none { IfNone result (octets < format.nacks_len size nacks.now) }
{
    let mut left = octets;
    for nack in nacks {
        left = left.checked_sub(nack_len(size, nack))?;
    }
    Some(left)
}

// The NACK range of an element for so many numbers, which is left out for one.
fn range_of(count: u64) -> Option<u8>
    requires { count < 256 }
    ensures { result ≡ (if count == 1 then None else Some count) }
{
    if count == 1 { None } else { Some(count as u8) }
}

impl AmRx {
    // Writes the elements of the missing numbers, as far as they have at most so many octets.
    pub(crate) fn write(&self, alloc: Global, octets: u32) -> Result<Written, Memory>
        ensures ok { IfOk result
            (λ written. WritesNacks self.now octets (rx_next self.now) written.nacks written.ack) }
        ensures memory { OnErr result (HasMissing self.now) }
    {
        let mut nacks = Vec::new(alloc);
        let mut left = octets;
        let mut number = self.next();
        while number < self.highest_status() {
            let len = nacks.len();
            let end = self.add_group(&mut nacks, number)?;
            let Some(rest) = left_behind(self.size(), &nacks[len..], left) else {
                nacks.truncate(len);
                return Ok(Written {
                    nacks: NackList::from_vec(nacks),
                    ack: number,
                });
            };
            left = rest;
            number = self.first_open(end);
        }
        Ok(Written {
            nacks: NackList::from_vec(nacks),
            ack: self.highest_status(),
        })
    }

    // Adds the elements that speak of a missing number, and of those behind it that share its element; answers the number
    // behind these.
    fn add_group(&self, nacks: &mut Vec<Nack>, number: u64) -> Result<u64, Memory>
        requires from { rx_next self.now ≤ number }
        requires small { number + 1 < 2 ^ 64 }
        requires missing { IsMissing self.now number }
        requires fit { PlacesFit (got self.now number) }
        ensures { IfOk result
            (λ end. AddsGroup self.now number end nacks.old.items nacks.new.items) }
    {
        let sn = sn_of(self.size(), number);
        if self.holds_some(number) {
            self.add_gaps(number, nacks, sn)?;
            return Ok(number + 1);
        }
        let end = self.run_end(number);
        nacks.push(Nack {
            sn,
            part: None,
            range: range_of(end - number),
        })?;
        Ok(end)
    }
}
