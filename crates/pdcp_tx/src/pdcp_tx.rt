// The transmitting side of a PDCP entity.
ghost use Rattle.std.specs.Prelude.{◌≡◌, ◌==◌, ◌+◌, ◌<◌, ◌≤◌, true, IfOk, IfErr, IsOk, OnOk, OnErr};
ghost use Rattle.link_base.specs.declared.limits.TheConstants.{COUNT_END};
ghost use Rattle.pdcp_model.specs.Sender.{new_sender, submitted, confirmed, tx_next, has_next, confirms, IsBeyond, goes_on, hears_report, begins_wait};
ghost use Rattle.pdcp_tx.specs.Sound.{IsSender};
ghost use Rattle.pdcp_tx.specs.Calls.{Accepts, Refuses, GivesNext, IsDataPdu, TellsBeyond};

use crate::kept_sdus::KeptSdus;
use crate::report::speaks_from;
use crate::{ReportBeyond, SubmitFault};
use link_base::{Bytes, COUNT_END, LONGEST_PDCP_SDU, Memory, SnSize};
use pdcp_pdu::{PdcpView, encode_pdcp};
use std::alloc::Global;
use std::marker::Model;

/// The transmitting side of the PDCP entity of an AM DRB (TS 38.323 clause 5.2.1). It gives each SDU a COUNT, and keeps it
/// until its delivery is confirmed.
#[derive(Drop)]
pub struct PdcpTx {
    alloc: Global,
    size: SnSize,
    // The COUNT of number 0.
    first: u32,
    kept: KeptSdus,
    // How many SDUs had their turn to be given to RLC since the entity was last re-established.
    place: u64,
    // The first number from `place` on whose SDU is kept, or the number of the next SDU accepted.
    next: u64,
    // Whether it waits for a status report.
    waits: bool,
}

impl Model for PdcpTx {
    ghost use Rattle.pdcp_model.specs.Sender.{Sender};

    ghost Value = { Sender };

    ghost use Rattle.pdcp_tx.specs.Inside.{sender_of, KnowsNext};

    ghost view = { sender_of };

    ghost invariant = { KnowsNext };
}

impl PdcpTx {
    /// A transmitting side that has accepted nothing, with sequence numbers of this size and its first COUNT, from 0 to
    /// 2^32 - 2. It takes no memory, so no `Err` comes.
    pub fn new(alloc: Global, size: SnSize, first: u32) -> Result<Self, Memory>
        requires { first < COUNT_END }
        ensures ok { IfOk result (λ tx. tx ≡ new_sender size first) }
        ensures sure { IsOk result }
    {
        Ok(PdcpTx {
            alloc,
            size,
            first,
            kept: KeptSdus::new(alloc),
            place: 0,
            next: 0,
            waits: false,
        })
    }

    /// How many bits its sequence numbers have.
    pub fn size(&self) -> SnSize
        ensures { result ≡ self.now.size }
    {
        self.size
    }

    /// The COUNT of the first SDU accepted.
    pub fn first(&self) -> u32
        ensures { result ≡ self.now.first }
    {
        self.first
    }

    /// TX_NEXT: the COUNT of the next SDU accepted, or 2^32 - 1 where no COUNT is left (TS 38.323 clause 7.1).
    pub fn tx_next(&self) -> u32
        ensures { result ≡ tx_next self.now }
    {
        self.first + self.kept.submitted() as u32
    }

    /// How many SDUs were accepted.
    ///
    /// It also tells what holds at all times: TX_NEXT is at most 2^32 - 1; from the first SDU on that is not confirmed at
    /// most 2,048 were accepted, or 65,536 with 18-bit sequence numbers; no more had their turn to be given to RLC than
    /// were accepted; and each one that is kept has 1 to 9,000 bytes.
    pub fn submitted(&self) -> u64
        ensures value { result ≡ submitted self.now }
        ensures sound { IsSender self.now }
    {
        self.kept.submitted()
    }

    /// The confirmed number: how many of the SDUs accepted first are all confirmed.
    pub fn confirmed(&self) -> u64
        ensures { result ≡ confirmed self.now }
    {
        self.kept.confirmed()
    }

    /// Whether it waits for a status report, and gives nothing to RLC before it hears one.
    pub fn awaits(&self) -> bool
        ensures { result ≡ self.now.waits }
    {
        self.waits
    }

    /// Whether `next_pdu` has a PDU to give: it doesn't wait, and an SDU that is kept didn't have its turn yet.
    pub fn has_next(&self) -> bool
        ensures { result ≡ has_next self.now }
    {
        !self.waits && self.next < self.kept.submitted()
    }

    /// Accepts an SDU of 1 to 9,000 bytes, of which it keeps a copy, and answers its COUNT (TS 38.323 clause 5.2.1).
    ///
    /// An `Err` tells the first reason that holds, of `Empty`, `Long`, `Spent` and `Full`. `Memory` comes only where none
    /// of these holds. The transmitting side is then as it was.
    pub fn submit(&mut self, sdu: &[u8]) -> Result<u32, SubmitFault>
        ensures ok { IfOk result (λ count. Accepts self.old sdu.now count self.new) }
        ensures err { OnErr result (self.new ≡ self.old) }
        ensures fault { IfErr result (Refuses self.old sdu.now) }
    {
        if sdu.is_empty() {
            return Err(SubmitFault::Empty);
        }
        if sdu.len() > LONGEST_PDCP_SDU as usize {
            return Err(SubmitFault::Long);
        }
        let count = self.tx_next();
        if count >= COUNT_END {
            return Err(SubmitFault::Spent);
        }
        let confirmed = self.kept.confirmed();
        if self.kept.submitted() - confirmed == self.size.most_unconfirmed() {
            return Err(SubmitFault::Full { confirmed });
        }
        if let Err(Memory) = self.kept.push(sdu) {
            return Err(SubmitFault::Memory);
        }
        Ok(count)
    }

    /// The COUNT and the PDCP data PDU of the SDU that is next to be given to RLC, which has had its turn then (TS 38.323
    /// clause 5.2.1), of at most 9,003 octets. None comes exactly where `has_next` is false.
    ///
    /// An `Err` is want of memory, and comes only where there is a PDU to give. The transmitting side is then as it was.
    pub fn next_pdu(&mut self) -> Result<Option<(u32, Bytes)>, Memory>
        ensures ok { IfOk result (λ given. GivesNext self.old given self.new) }
        ensures octets { IfOk result IsDataPdu }
        ensures err { OnErr result (self.new ≡ self.old) }
        ensures memory { OnErr result (has_next self.old ≡ true) }
    {
        if self.waits {
            return Ok(None);
        }
        let Some(sdu) = self.kept.sdu(self.next) else {
            return Ok(None);
        };
        let count = self.first + self.next as u32;
        let pdu = PdcpView::Sdu {
            sn: count % self.size.modulus() as u32,
            body: sdu.as_slice(),
        };
        let bytes = encode_pdcp(self.alloc, self.size, &pdu)?;
        self.place = self.next + 1;
        self.next = self.kept.next_from(self.place);
        Ok(Some((count, bytes)))
    }

    /// Delivery of the SDU with this COUNT, which was accepted, is confirmed, and the SDU is discarded (TS 38.323 clause
    /// 5.3). It takes no memory.
    pub fn confirm(&mut self, count: u32)
        requires from { self.old.first ≤ count }
        requires within { count < tx_next self.old }
        ensures { self.new ≡ confirms self.old (λ c. c == count) }
    {
        self.kept.confirm(u64::from(count - self.first));
        self.next = self.kept.next_from(self.next);
    }

    /// Hears a status report: delivery of each SDU that it says was received is confirmed, a wait ends, and after one what
    /// is kept has its turn again (TS 38.323 clauses 5.1.2 and 5.4.2). It takes no memory.
    ///
    /// An `Err` comes exactly where FMC is above TX_NEXT, or a 1 stands for a COUNT not below it. The transmitting side is
    /// then as it was.
    pub fn hear_report(&mut self, fmc: u32, map: &[u8]) -> Result<(), ReportBeyond>
        ensures ok { OnOk result (self.new ≡ hears_report self.old fmc map.now) }
        ensures within { OnOk result (IsBeyond self.old fmc map.now → ⊥) }
        ensures err { OnErr result (self.new ≡ self.old) }
        ensures beyond { IfErr result (TellsBeyond self.old fmc map.now) }
    {
        let next = self.tx_next();
        if speaks_from(fmc, map, next) {
            return Err(ReportBeyond {
                fmc,
                next: u64::from(next),
            });
        }
        self.kept.confirm_reported(self.first, fmc, map);
        self.next = self.kept.next_from(self.next);
        self.go_on();
        Ok(())
    }

    /// The entity is re-established: it gives nothing to RLC before it hears a status report (TS 38.323 clause 5.1.2).
    pub fn begin_wait(&mut self)
        ensures { self.new ≡ begins_wait self.old }
    {
        self.waits = true;
    }

    // A wait ends, and what is kept has its turn again.
    fn go_on(&mut self)
        ensures { self.new ≡ goes_on self.old }
    {
        if self.waits {
            self.waits = false;
            self.place = self.kept.confirmed();
            self.next = self.place;
        }
    }
}
