// The receiving side of a PDCP entity.
ghost use Rattle.std.specs.Prelude.{◌≡◌, ◌≢◌, ◌+◌, ◌<◌, true, None, All, IfOk, IsOk, OnErr, OnOk};
ghost use Rattle.std.specs.Bool.{MatchBool};
ghost use Rattle.link_base.specs.declared.limits.TheConstants.{COUNT_END};
ghost use Rattle.link_base.specs.SequenceNumbers.{modulus};
ghost use Rattle.pdcp_pdu.specs.Pdcp.{IsBody};
ghost use Rattle.pdcp_model.specs.Receiver.{new_receiver, rx_deliv, stored_at, stores, can_report, Hears};
ghost use Rattle.pdcp_rx.specs.Receiver.{HandsUp, HandsUpBodies, IsNew, IsSound};
ghost use Rattle.pdcp_rx.specs.Reporting.{SpellsReport};

use crate::store::{bitmap, put, run_len, take_run, waits};
use link_base::{Bytes, COUNT_END, Memory, SduList, SnSize, copy_bytes, near};
use pdcp_model::PdcpHeard;
use pdcp_pdu::{PdcpView, encode_pdcp};
use std::alloc::Global;
use std::collections::VecDeque;
use std::marker::Model;

// How many COUNTs from RX_DELIV on a status report can speak of.
const REPORTABLE: usize = 65_536;

/// The receiving side of the PDCP entity of an AM DRB (TS 38.323 clause 5.2.2.1). It hands SDUs up in order of COUNT, each
/// once, and stores those that come before their turn.
///
/// It takes memory for the COUNTs from RX_DELIV up to the highest one that is stored, and for no others.
#[derive(Drop)]
pub struct PdcpRx {
    alloc: Global,
    size: SnSize,
    first: u32,
    handed: u64,
    // In order of COUNT from RX_DELIV on; the last one is there.
    stored: VecDeque<Option<Bytes>>,
}

impl Model for PdcpRx {
    ghost use Rattle.pdcp_model.specs.Receiver.{Receiver};

    ghost Value = { Receiver };

    ghost use Rattle.pdcp_rx.specs.Receiver.{receiver_of, IsReceiver};

    ghost view = { receiver_of };

    ghost invariant = { IsReceiver };
}

impl PdcpRx {
    /// A receiving side that has heard nothing, of a bearer whose first COUNT this is, with SNs of this size. It takes no
    /// memory.
    pub fn new(alloc: Global, size: SnSize, first: u32) -> Result<Self, Memory>
        requires { first < COUNT_END }
        ensures ok { IfOk result (λ rx. rx ≡ new_receiver size first) }
        ensures made { IsOk result }
    {
        Ok(PdcpRx {
            alloc,
            size,
            first,
            handed: 0,
            stored: VecDeque::new(alloc),
        })
    }

    /// Hears a data PDU: its SN, and its SDU of 1 to 9,000 bytes (TS 38.323 clause 5.2.2.1).
    ///
    /// Each SDU that goes up has 1 to 9,000 bytes. An `Err` is want of memory. It comes only of an SDU that has a COUNT and
    /// is neither handed up nor stored, and the receiver is as it was.
    pub fn hear(&mut self, sn: u32, body: &[u8]) -> Result<PdcpHeard, Memory>
        requires sn { sn < modulus self.old.size }
        requires body { IsBody body.now }
        ensures ok { IfOk result (λ answer. Hears self.old sn body.now answer self.new) }
        ensures bodies { IfOk result HandsUpBodies }
        ensures err { OnErr result (self.new ≡ self.old) }
        ensures memory { OnErr result (IsNew self.old sn) }
    {
        let deliv = self.deliv();
        let Some(count) = near(sn, deliv, self.size()) else {
            return Ok(PdcpHeard::BeforeStart);
        };
        if count >= u64::from(COUNT_END) {
            return Ok(PdcpHeard::PastEnd);
        }
        if count < deliv {
            return Ok(PdcpHeard::Old);
        }
        if count == deliv {
            let sdus = self.hand_up(body)?;
            return Ok(PdcpHeard::Up(sdus));
        }
        let ahead = (count - deliv) as usize;
        if self.waits(ahead) {
            return Ok(PdcpHeard::Repeat);
        }
        self.store(ahead, body)?;
        Ok(PdcpHeard::Stored)
    }

    // Whether an SDU is stored, by how far its COUNT is above RX_DELIV.
    fn waits(&self, ahead: usize) -> bool
        ensures { MatchBool result (stored_at self.now ahead ≢ None)
            (stored_at self.now ahead ≡ None) }
    {
        waits(&self.stored, ahead)
    }

    // Stores an SDU whose COUNT is so far above RX_DELIV. All memory is taken before anything changes.
    fn store(&mut self, ahead: usize, body: &[u8]) -> Result<(), Memory>
        requires above { 0 < ahead }
        requires within { rx_deliv self.old + ahead < COUNT_END }
        requires body { IsBody body.now }
        ensures ok { OnOk result (self.new ≡ stores self.old ahead body.now) }
        ensures err { OnErr result (self.new ≡ self.old) }
    {
        let sdu = copy_bytes(self.alloc, body)?;
        put(&mut self.stored, ahead, sdu)?;
        Ok(())
    }

    // Hands up the SDU of RX_DELIV, and those behind it that wait for it. All memory is taken before anything changes.
    fn hand_up(&mut self, body: &[u8]) -> Result<SduList, Memory>
        requires within { rx_deliv self.old < COUNT_END }
        requires body { IsBody body.now }
        ensures ok { IfOk result (λ sdus. HandsUp self.old body.now sdus self.new) }
        ensures bodies { IfOk result (All IsBody) }
        ensures err { OnErr result (self.new ≡ self.old) }
    {
        let next = copy_bytes(self.alloc, body)?;
        let behind = run_len(&self.stored, 1);
        let mut sdus = Vec::with_capacity(self.alloc, 1 + behind)?;
        sdus.push_reserved(next);
        self.stored.pop_front();
        take_run(&mut self.stored, &mut sdus);
        self.handed += 1 + behind as u64;
        Ok(SduList::from_vec(sdus))
    }

    /// Whether a status report can tell of all that is stored: each COUNT lies below RX_DELIV + 65,536.
    pub fn can_report(&self) -> bool
        ensures { result ≡ can_report self.now }
    {
        self.stored.len() <= REPORTABLE
    }

    /// The octets of a status report, where one can tell of all that is stored (TS 38.323 clauses 5.4.1 and 6.2.3.1): FMC is
    /// RX_DELIV, and the bitmap ends with the octet of the last SDU that is stored.
    ///
    /// They are at most 8,197. The time is in proportion to them. An `Err` is want of memory.
    pub fn make_report(&self) -> Result<Bytes, Memory>
        requires { can_report self.now ≡ true }
        ensures { IfOk result (SpellsReport self.now) }
    {
        let map = bitmap(self.alloc, &self.stored)?;
        let report = PdcpView::Report {
            fmc: self.deliv() as u32,
            map: &map,
        };
        let octets = encode_pdcp(self.alloc, self.size, &report)?;
        Ok(octets)
    }

    /// How many bits its sequence numbers have.
    pub fn size(&self) -> SnSize
        ensures { result ≡ self.now.size }
    {
        self.size
    }

    /// How many SDUs were handed up.
    pub fn handed(&self) -> u64
        ensures { result ≡ self.now.handed }
    {
        self.handed
    }

    /// RX_DELIV: the COUNT that is handed up next, from 0 to 2^32 - 1 (TS 38.323 clause 7.1). A receiving side is sound,
    /// whatever it heard.
    pub fn deliv(&self) -> u64
        ensures value { result ≡ rx_deliv self.now }
        ensures sound { IsSound self.now }
    {
        u64::from(self.first) + self.handed
    }
}
