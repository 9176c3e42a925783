// All bearers at an end.
ghost use Rattle.std.specs.Prelude.{◌≡◌, ℕ, ◌<◌, ◌==◌, Some, length, map, filter, true, false, All, IfOk, IfErr, OnErr, IsSome, IfSome, IfNone};
ghost use Rattle.bearer_map.specs.declared.rows.RemoteRow.{RemoteRow};
ghost use Rattle.bearer_map.specs.Contents.{bearer_rank};
ghost use Rattle.bearer_map.specs.Order.{IsAscending};
ghost use Rattle.link_base.specs.declared.names.Key.{Key};
ghost use Rattle.rlc_model.specs.Sides.{flip};
ghost use Rattle.pdcp_model.specs.Sender.{confirmed, submitted, has_next};
ghost use Rattle.pdcp_model.specs.Receiver.{can_report};
ghost use Rattle.pdcp_tx.specs.Calls.{IsDataPdu, Refuses};
ghost use Rattle.pdcp_rx.specs.Reporting.{SpellsReport};
ghost use Rattle.node_model.specs.Names.{back, is_remote};
ghost use Rattle.node_model.specs.State.{outgoing, incoming, outgoing_at, incoming_at, set_incoming, no_outgoing, no_incoming};
ghost use Rattle.node_model.specs.Ends.{HearsPdcp, confirm_count};
ghost use Rattle.node_model.specs.Feeding.{in_key, out_key};
ghost use Rattle.node_model.specs.Opening.{new_remote, new_gnb};
ghost use Rattle.node_model.specs.Switching.{node_closed};
ghost use Rattle.node_bearers.specs.Switching.{ends_after};
ghost use Rattle.node_bearers.specs.Calls.{ends_alone, HasCounts, HaveCounts, Submits, confirm_each, is_wanted, is_of_bearer, Sends, Receives, Gives, gave_report};

use crate::bearer::Bearer;
use crate::search::{place_of, place_with, rank_of};
use crate::switching;
use bearer_map::{BearerRow, Tables};
use link_base::{Bytes, Drb, Key, Memory, Remote, Tag, Way};
use node_model::NodeHeard;
use pdcp_tx::SubmitFault;
use std::alloc::Global;
use std::marker::Model;

/// The bearers that end at a node, in the order of their keys. Contracts see them as a node of which only the ends of bearers
/// are known.
///
/// A call with a key finds its bearer in logarithmic time, one with a place in constant time.
#[derive(Drop)]
pub struct Bearers {
    // The way in which this end sends.
    sends: Way,
    rows: Vec<Bearer>,
}

impl Model for Bearers {
    ghost use Rattle.node_model.specs.State.{Node};
    ghost use Rattle.node_bearers.specs.Table.{node_of, AreBearers};

    ghost Value = { Node };

    ghost view = { node_of };

    ghost invariant = { AreBearers };
}

impl Bearers {
    ghost use Rattle.node_bearers.specs.Hearing.{IsNews};
    ghost use Rattle.node_bearers.specs.Table.{node_with};
    ghost use Rattle.node_bearers.specs.Bearer.{new_bearer, incoming_of};

    /// The bearers of a remote, at the remote.
    pub fn of_remote(alloc: Global, tables: &Tables, remote: Remote) -> Result<Self, Memory>
        requires { HaveCounts tables.now }
        ensures { (row : RemoteRow) → row.remote ≡ remote
            → IfOk result (λ bearers. bearers ≡ ends_alone (new_remote tables.now row)) }
    {
        let own = rows_of(alloc, tables.bearers(), remote)?;
        Self::open(alloc, Way::Ul, &own)
    }

    /// All bearers, at the gNB.
    pub fn of_gnb(alloc: Global, tables: &Tables) -> Result<Self, Memory>
        requires { HaveCounts tables.now }
        ensures { IfOk result (λ bearers. bearers ≡ ends_alone (new_gnb tables.now)) }
    {
        Self::open(alloc, Way::Dl, tables.bearers())
    }

    // These bearers, at the end that sends in this way.
    fn open(alloc: Global, sends: Way, table: &[BearerRow]) -> Result<Self, Memory>
        requires order { IsAscending bearer_rank table.now }
        requires counts { All HasCounts table.now }
        ensures { IfOk result (λ bearers. bearers ≡ node_with sends (map (new_bearer sends) table.now)) }
    {
        let mut rows = Vec::with_capacity(alloc, table.len())?;
        for row in table {
            rows.push(Bearer::new(alloc, *row, sends)?)?;
        }
        Ok(Bearers { sends, rows })
    }

    /// Accepts an SDU of 1 to 9,000 bytes of a key that is sent here, of which it keeps a copy, and answers its COUNT (TS
    /// 38.323 clause 5.2.1).
    ///
    /// An `Err` tells the first reason that holds, of `Empty`, `Long`, `Spent` and `Full`. `Memory` comes only where none
    /// of these holds. All is then as it was.
    pub fn submit(&mut self, key: Key, sdu: &[u8]) -> Result<u32, SubmitFault>
        requires { IsSome (outgoing_at self.old key) }
        ensures ok { IfOk result (λ count. Submits self.old key sdu.now count self.new) }
        ensures err { OnErr result (self.new ≡ self.old) }
        ensures fault { IfErr result (Refuses (outgoing self.old key).sender sdu.now) }
    {
        let Some(place) = place_of(&self.rows, self.sends, key) else {
            unreachable!();
        };
        let bearer = &mut self.rows[place];
        let count = bearer.tx.submit(sdu)?;
        Ok(count)
    }

    /// Hears a PDCP PDU for a key that is received here (TS 38.323 clauses 5.2.2 and 5.4.2). The receiver of the key hears a
    /// data PDU; a status report is about the bearer's other way, whose sender hears it.
    ///
    /// An `Err` is want of memory, and all is as it was. It comes only of a data PDU whose SDU has a COUNT and is neither
    /// handed up nor stored.
    pub fn hear(&mut self, key: Key, pdu: &[u8]) -> Result<NodeHeard, Memory>
        requires { IsSome (incoming_at self.old key) }
        ensures ok { IfOk result (λ answer. HearsPdcp self.old key pdu.now answer self.new) }
        ensures err { OnErr result (self.new ≡ self.old) }
        ensures memory { OnErr result (IsNews (incoming self.old key).receiver pdu.now) }
    {
        let Some(place) = place_of(&self.rows, other(self.sends), key) else {
            unreachable!();
        };
        let bearer = &mut self.rows[place];
        let answer = bearer.hear(key, pdu)?;
        Ok(answer)
    }

    /// RLC confirms SDUs on direct ports: delivery of each data PDU's SDU is confirmed, and the SDU is discarded (TS 38.323
    /// clause 5.3). A tag changes nothing whose key isn't sent here, or whose COUNT no SDU accepted has. This takes no memory.
    pub fn confirm(&mut self, tags: &[Tag])
        ensures { self.new ≡ confirm_each self.old tags.now }
    {
        for tag in tags {
            self.confirm_tag(tag);
        }
    }

    // RLC confirms an SDU.
    fn confirm_tag(&mut self, tag: &Tag)
        ensures { self.new ≡ confirm_count self.old tag.now.key tag.now.count }
    {
        let Some(count) = tag.count else {
            return;
        };
        let Some(place) = place_of(&self.rows, self.sends, tag.key) else {
            return;
        };
        let bearer = &mut self.rows[place];
        bearer.confirm(count);
    }

    /// A status report about a key that is received here is wanted (TS 38.323 clause 5.4.1). Of another key nothing changes.
    pub fn want_report(&mut self, key: Key)
        ensures { self.new ≡ set_incoming self.old
            (record (incoming self.old key) { wanted = true }) }
    {
        let Some(place) = place_of(&self.rows, other(self.sends), key) else {
            return;
        };
        let bearer = &mut self.rows[place];
        bearer.wanted = true;
    }

    /// This end has applied a plan of a remote. The senders of the remote's bearers wait for a status report, and no report
    /// about them is given until all nodes have applied the plan (TS 38.323 clause 5.1.2). It takes no memory.
    pub fn apply(&mut self, remote: Remote)
        ensures { self.new ≡ ends_after remote self.old }
    {
        switching::apply(&mut self.rows, remote);
    }

    /// All nodes have applied a plan of a remote: status reports about the remote's bearers are wanted. It takes no memory.
    pub fn finish(&mut self, remote: Remote)
        ensures { self.new ≡ node_closed remote self.old }
    {
        switching::finish(&mut self.rows, remote);
    }

    /// How many SDUs of a key that is sent here were accepted first and are all confirmed.
    pub fn confirmed(&self, key: Key) -> u64
        ensures { result ≡ confirmed (outgoing self.now key).sender }
    {
        match self.sending(key) {
            Some(bearer) => bearer.tx.confirmed(),
            None => 0,
        }
    }

    /// How many SDUs of a key that is sent here were accepted.
    pub fn submitted(&self, key: Key) -> u64
        ensures { result ≡ submitted (outgoing self.now key).sender }
    {
        match self.sending(key) {
            Some(bearer) => bearer.tx.submitted(),
            None => 0,
        }
    }

    /// Whether the sender of a key waits for a status report.
    pub fn awaits(&self, key: Key) -> bool
        ensures { result ≡ (outgoing self.now key).sender.waits }
    {
        match self.sending(key) {
            Some(bearer) => bearer.tx.awaits(),
            None => false,
        }
    }

    /// Whether the sender of a key has an SDU to give to RLC.
    pub fn has_next(&self, key: Key) -> bool
        ensures { result ≡ has_next (outgoing self.now key).sender }
    {
        match self.sending(key) {
            Some(bearer) => bearer.tx.has_next(),
            None => false,
        }
    }

    /// How many SDUs of a key that is received here were handed up.
    pub fn handed(&self, key: Key) -> u64
        ensures { result ≡ (incoming self.now key).receiver.handed }
    {
        match self.receiving(key) {
            Some(bearer) => bearer.rx.handed(),
            None => 0,
        }
    }

    /// Whether a status report about a key is to be given, where this many SDUs handed up over the relay call for one, or 0
    /// for never.
    pub fn wants_report(&self, key: Key, every: u32, on_relay: bool) -> bool
        ensures { result ≡ is_wanted every on_relay (incoming self.now key) }
    {
        match self.receiving(key) {
            Some(bearer) => bearer.wants_report(every, on_relay),
            None => false,
        }
    }

    // The bearer of a key that is sent here.
    fn sending(&self, key: Key) -> Option<&Bearer>
        ensures some { IfSome result (λ bearer. (outgoing self.now key).sender ≡ bearer.now.tx) }
        ensures none { IfNone result (outgoing self.now key ≡ no_outgoing key) }
    {
        let place = place_of(&self.rows, self.sends, key)?;
        Some(&self.rows[place])
    }

    // The bearer of a key that is received here.
    fn receiving(&self, key: Key) -> Option<&Bearer>
        ensures some { IfSome result (λ bearer. incoming self.now key ≡ incoming_of key.way bearer.now) }
        ensures none { IfNone result (incoming self.now key ≡ no_incoming key) }
    {
        let place = place_of(&self.rows, other(self.sends), key)?;
        Some(&self.rows[place])
    }

    /// How many bearers there are. Their places are the numbers below it.
    pub fn len(&self) -> usize
        ensures sent { result ≡ length self.now.outgoing }
        ensures received { result ≡ length self.now.incoming }
    {
        self.rows.len()
    }

    /// Whether there are none.
    pub fn is_empty(&self) -> bool
        ensures { result ≡ (length self.now.outgoing == 0) }
    {
        self.rows.is_empty()
    }

    /// The place of a bearer, found in logarithmic time. None where it isn't one of these.
    pub fn place(&self, remote: Remote, drb: Drb) -> Option<usize>
        ensures within { IfSome result (λ place. place < length self.now.outgoing) }
        ensures sent { (at : ℕ) (key : Key) → Sends self.now at key
            → is_of_bearer remote drb key ≡ true → result ≡ Some at }
        ensures received { (at : ℕ) (key : Key) → Receives self.now at key
            → is_of_bearer remote drb key ≡ true → result ≡ Some at }
    {
        place_with(&self.rows, rank_of(remote, drb))
    }

    /// The key that is sent at a place. What is received there is the bearer's other way.
    pub fn key(&self, place: usize) -> Key
        requires { place < length self.now.outgoing }
        ensures sent { Sends self.now place result }
        ensures received { Receives self.now place (back result) }
        ensures sender { outgoing_at self.now result ≡ Some (outgoing self.now result) }
        ensures receiver { incoming_at self.now (back result)
            ≡ Some (incoming self.now (back result)) }
        ensures sent_key { out_key (outgoing self.now result) ≡ result }
        ensures received_key { in_key (incoming self.now (back result)) ≡ back result }
    {
        let bearer = &self.rows[place];
        Key {
            remote: bearer.remote,
            drb: bearer.drb,
            way: self.sends,
        }
    }

    /// Whether the sender at a place has an SDU to give to RLC.
    pub fn has_next_at(&self, place: usize) -> bool
        requires { place < length self.now.outgoing }
        ensures { (key : Key) → Sends self.now place key
            → result ≡ has_next (outgoing self.now key).sender }
    {
        self.rows[place].tx.has_next()
    }

    /// The COUNT and the PDCP data PDU of the SDU that the sender at a place gives to RLC next, which has had its turn then
    /// (TS 38.323 clause 5.2.1). None comes exactly where it has none.
    ///
    /// An `Err` is want of memory, and comes only where there is a PDU to give. All is then as it was.
    pub fn next_pdu(&mut self, place: usize) -> Result<Option<(u32, Bytes)>, Memory>
        requires { place < length self.old.outgoing }
        ensures ok { (key : Key) → Sends self.old place key
            → IfOk result (λ given. Gives self.old key given self.new) }
        ensures octets { IfOk result IsDataPdu }
        ensures err { OnErr result (self.new ≡ self.old) }
        ensures memory { (key : Key) → Sends self.old place key
            → OnErr result (has_next (outgoing self.old key).sender ≡ true) }
    {
        let bearer = &mut self.rows[place];
        let pdu = bearer.tx.next_pdu()?;
        Ok(pdu)
    }

    /// Whether a status report about what is received at a place is to be given.
    pub fn wants_report_at(&self, place: usize, every: u32, on_relay: bool) -> bool
        requires { place < length self.now.incoming }
        ensures { (key : Key) → Receives self.now place key
            → result ≡ is_wanted every on_relay (incoming self.now key) }
    {
        self.rows[place].wants_report(every, on_relay)
    }

    /// Whether a status report can tell of all that is stored at a place.
    pub fn can_report(&self, place: usize) -> bool
        requires { place < length self.now.incoming }
        ensures { (key : Key) → Receives self.now place key
            → result ≡ can_report (incoming self.now key).receiver }
    {
        self.rows[place].rx.can_report()
    }

    /// The octets of the status report of the receiver at a place, which can tell of all that is stored, at most 8,197 (TS
    /// 38.323 clause 5.4.1). An `Err` is want of memory.
    pub fn make_report(&self, place: usize) -> Result<Bytes, Memory>
        requires place { place < length self.now.incoming }
        requires can { (key : Key) → Receives self.now place key
            → can_report (incoming self.now key).receiver ≡ true }
        ensures { (key : Key) → Receives self.now place key
            → IfOk result (SpellsReport (incoming self.now key).receiver) }
    {
        let report = self.rows[place].rx.make_report()?;
        Ok(report)
    }

    /// A report about what is received at a place was given to RLC.
    pub fn report_given(&mut self, place: usize)
        requires { place < length self.old.incoming }
        ensures { (key : Key) → Receives self.old place key
            → self.new ≡ set_incoming self.old (gave_report (incoming self.old key)) }
    {
        let bearer = &mut self.rows[place];
        bearer.wanted = false;
        bearer.reported = bearer.rx.handed();
    }

    /// A report about what is received at a place is wanted no more.
    pub fn drop_report(&mut self, place: usize)
        requires { place < length self.old.incoming }
        ensures { (key : Key) → Receives self.old place key
            → self.new ≡ set_incoming self.old
            (record (incoming self.old key) { wanted = false }) }
    {
        let bearer = &mut self.rows[place];
        bearer.wanted = false;
    }
}

// The rows of a remote's bearers.
fn rows_of(alloc: Global, rows: &[BearerRow], remote: Remote) -> Result<Vec<BearerRow>, Memory>
    ensures { IfOk result (λ own. own.items ≡
        filter (λ row. is_remote remote row.remote) rows.now) }
{
    let own = rows
        .iter()
        .copied()
        .filter(|row| remote.0 == row.remote.0)
        .collect(alloc)?;
    Ok(own)
}

// The other way.
fn other(way: Way) -> Way
    ensures { result ≡ flip way }
{
    match way {
        Way::Ul => Way::Dl,
        Way::Dl => Way::Ul,
    }
}
