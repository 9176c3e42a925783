// One bearer at an end.
ghost use Rattle.std.specs.Prelude.{◌≡◌, ◌<◌, IfOk, OnErr};
ghost use Rattle.link_base.specs.declared.limits.TheConstants.{COUNT_END};
ghost use Rattle.link_base.specs.declared.names.Way.{Way};
ghost use Rattle.node_model.specs.Names.{back};
ghost use Rattle.node_model.specs.Ends.{pdcp_discard, heard_as};
ghost use Rattle.node_model.specs.Feeding.{is_enough};
ghost use Rattle.node_bearers.specs.Calls.{is_wanted};

use bearer_map::BearerRow;
use link_base::{Discard, Drb, Key, Memory, Remote, Way};
use node_model::NodeHeard;
use pdcp_pdu::{PdcpFault, PdcpView, decode_pdcp};
use pdcp_rx::{PdcpHeard, PdcpRx};
use pdcp_tx::PdcpTx;
use std::alloc::Global;

/// A bearer at an end: the transmitting side of the way in which this end sends, and the receiving side of the other.
#[derive(Drop)]
pub(crate) struct Bearer {
    pub(crate) remote: Remote,
    pub(crate) drb: Drb,
    pub(crate) tx: PdcpTx,
    pub(crate) rx: PdcpRx,
    // Whether a status report about what is received is wanted.
    pub(crate) wanted: bool,
    // Whether reports are held back until all nodes have applied the plan.
    pub(crate) held_back: bool,
    // How many SDUs had been handed up when the last report was given to RLC.
    pub(crate) reported: u64,
}

impl Bearer {
    ghost use Rattle.node_bearers.specs.Bearer.{new_bearer, incoming_of, confirms_count};
    ghost use Rattle.node_bearers.specs.Hearing.{HearsAt, IsNews};
    ghost use Rattle.node_bearers.specs.Switching.{bearer_after, bearer_closed};

    /// A bearer of which nothing was sent or received, at the end that sends in this way.
    pub(crate) fn new(alloc: Global, row: BearerRow, sends: Way) -> Result<Self, Memory>
        requires ul { row.first_ul < COUNT_END }
        requires dl { row.first_dl < COUNT_END }
        ensures value { IfOk result (λ bearer. bearer ≡ new_bearer sends row) }
        ensures octet { row.drb.0 < 256 }
    {
        let (first_sent, first_received) = match sends {
            Way::Ul => (row.first_ul, row.first_dl),
            Way::Dl => (row.first_dl, row.first_ul),
        };
        Ok(Bearer {
            remote: row.remote,
            drb: row.drb,
            tx: PdcpTx::new(alloc, row.pdcp, first_sent)?,
            rx: PdcpRx::new(alloc, row.pdcp, first_received)?,
            wanted: false,
            held_back: false,
            reported: 0,
        })
    }

    /// Hears a PDCP PDU for the key that is received here.
    ///
    /// An `Err` is want of memory, and the bearer is as it was.
    pub(crate) fn hear(&mut self, key: Key, pdu: &[u8]) -> Result<NodeHeard, Memory>
        ensures ok { IfOk result (λ answer. HearsAt self.old key pdu.now answer self.new) }
        ensures err { OnErr result (self.new ≡ self.old) }
        ensures memory { OnErr result (IsNews self.old.rx pdu.now) }
    {
        match decode_pdcp(self.rx.size(), pdu) {
            Ok(PdcpView::Sdu { sn, body }) => {
                let heard = self.rx.hear(sn, body)?;
                Ok(heard_as(key, heard))
            }
            Ok(PdcpView::Report { fmc, map }) => {
                let confirmed = self.tx.confirmed();
                match self.tx.hear_report(fmc, map) {
                    Ok(()) => Ok(NodeHeard::Report {
                        key: back(key),
                        confirmed,
                    }),
                    Err(_) => Ok(NodeHeard::Discard(Discard::ReportBeyond)),
                }
            }
            Err(fault) => Ok(NodeHeard::Discard(discard_of(fault))),
        }
    }

    /// Delivery of the SDU of this COUNT is confirmed, where one was accepted.
    pub(crate) fn confirm(&mut self, count: u32)
        ensures { self.new ≡ confirms_count self.old count }
    {
        if self.tx.first() <= count && count < self.tx.tx_next() {
            self.tx.confirm(count);
        }
    }

    /// This end has applied a plan of a remote. Where the bearer is the remote's, its sender waits for a status report, and
    /// reports are held back (TS 38.323 clause 5.1.2).
    pub(crate) fn apply(&mut self, remote: Remote)
        ensures { self.new ≡ bearer_after remote self.old }
    {
        if self.remote.0 == remote.0 {
            self.tx.begin_wait();
            self.wanted = false;
            self.held_back = true;
        }
    }

    /// All nodes have applied a plan of a remote. Where the bearer is the remote's, a status report is wanted.
    pub(crate) fn finish(&mut self, remote: Remote)
        ensures { self.new ≡ bearer_closed remote self.old }
    {
        if self.remote.0 == remote.0 {
            self.wanted = true;
            self.held_back = false;
        }
    }

    /// Whether a status report is to be given, where this many SDUs handed up over the relay call for one, or 0 for never.
    pub(crate) fn wants_report(&self, every: u32, on_relay: bool) -> bool
        ensures { (way : Way) → result ≡ is_wanted every on_relay (incoming_of way self.now) }
    {
        !self.held_back && (self.wanted || self.is_enough(every, on_relay))
    }

    // Whether as many SDUs were handed up over the relay since the last report as call for one.
    fn is_enough(&self, every: u32, on_relay: bool) -> bool
        ensures { (way : Way) → result ≡ is_enough every on_relay (incoming_of way self.now) }
    {
        every > 0 && on_relay && self.rx.handed().saturating_sub(self.reported) >= u64::from(every)
    }
}

/// The key of a bearer's other way.
pub fn back(key: Key) -> Key
    ensures { result ≡ back key }
{
    let way = match key.way {
        Way::Ul => Way::Dl,
        Way::Dl => Way::Ul,
    };
    Key { way, ..key }
}

/// The answer of a node to a PDU with which the receiver of a key answers this.
fn heard_as(key: Key, heard: PdcpHeard) -> NodeHeard
    ensures { result ≡ heard_as key heard }
{
    match heard {
        PdcpHeard::Up(sdus) => NodeHeard::Up { key, sdus },
        PdcpHeard::Stored => NodeHeard::Waiting,
        PdcpHeard::Old => NodeHeard::Old,
        PdcpHeard::Repeat => NodeHeard::Twice,
        PdcpHeard::BeforeStart | PdcpHeard::PastEnd => NodeHeard::NoCount,
    }
}

/// Why an SDU that is no PDCP PDU is discarded.
fn discard_of(fault: PdcpFault) -> Discard
    ensures { result ≡ pdcp_discard fault }
{
    match fault {
        PdcpFault::Short => Discard::PdcpShort,
        PdcpFault::ReservedType => Discard::PdcpType,
        PdcpFault::Empty => Discard::PdcpEmpty,
        PdcpFault::Long => Discard::PdcpLong,
    }
}
