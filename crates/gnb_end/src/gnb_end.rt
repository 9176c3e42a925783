// The gNB's end of bearers.
ghost use Rattle.std.specs.Prelude.{◌≡◌, Some, true, All, IfOk, IfErr, IfSome, IfNone, OnErr, IsSome, option_map};
ghost use Rattle.std.specs.Option.{option_copied};
ghost use Rattle.link_base.specs.declared.names.Remote.{Remote};
ghost use Rattle.bearer_map.specs.Ids.{AreIds, IsAttached};
ghost use Rattle.rlc_model.specs.Sides.{Entity};
ghost use Rattle.rlc_hop.specs.Side.{IsToSend};
ghost use Rattle.pdcp_model.specs.Sender.{confirmed, submitted, has_next};
ghost use Rattle.pdcp_tx.specs.Calls.{Refuses};
ghost use Rattle.node_model.specs.State.{entity_at, outgoing_at, outgoing, incoming, set_incoming};
ghost use Rattle.node_model.specs.Opening.{all_attached, new_gnb};
ghost use Rattle.node_model.specs.Sides.{GrantsPort, ExpiresPort};
ghost use Rattle.node_model.specs.Hearing.{HearsPdu};
ghost use Rattle.node_model.specs.Feeding.{Feeds, wants_report};
ghost use Rattle.node_ports.specs.Sides.{IsSmall, IsThere};
ghost use Rattle.node_ports.specs.Table.{tx_of, rx_of};
ghost use Rattle.node_bearers.specs.Calls.{HaveCounts, Submits};
ghost use Rattle.node_end.specs.Node.{side_of};
ghost use Rattle.node_end.specs.Opening.{HaveRoutes};
ghost use Rattle.node_end.specs.Hearing.{StopsHearing};
ghost use Rattle.node_end.specs.Feeding.{HasNumbers, StopsFeeding};

use bearer_map::Tables;
use link_base::{Expired, Key, LocalId, Memory, PortName, Remote, Timer};
use node_end::{End, KeyList, NodeHeard, PortGrant};
use pdcp_tx::SubmitFault;
use rlc_am_rx::AmRx;
use rlc_am_tx::AmTx;
use rlc_hop::Pdu;
use std::alloc::Global;
use std::marker::Model;

/// The gNB's end of all bearers. Contracts see it as a node with its tables. Its calls are those of `End`.
#[derive(Drop)]
pub struct GnbEnd {
    end: End,
}

impl Model for GnbEnd {
    ghost use Rattle.node_model.specs.State.{TabledNode};

    ghost Value = { TabledNode };

    ghost view = { λ e. e.end };
}

impl GnbEnd {
    /// The gNB at which nothing has happened. Each bearer that is mapped to channels is to be declared, with an identity from 1
    /// to 32, and no two remotes may begin with one local identity.
    pub fn new(alloc: Global, tables: &Tables) -> Result<Self, Memory>
        requires counts { HaveCounts tables.now }
        requires routes { HaveRoutes tables.now }
        requires ids { AreIds (all_attached tables.now) }
        ensures { IfOk result
            (λ gnb. gnb ≡ record { tables = tables.now; node = new_gnb tables.now }) }
    {
        let end = End::of_gnb(alloc, tables)?;
        Ok(GnbEnd { end })
    }

    /// Accepts an SDU of 1 to 9,000 bytes of a `dl` key, and answers its COUNT (TS 38.323 clause 5.2.1).
    ///
    /// An `Err` tells the first reason that holds, of `Empty`, `Long`, `Spent` and `Full`. `Memory` comes only where none
    /// of these holds. All is then as it was.
    pub fn submit(&mut self, key: Key, sdu: &[u8]) -> Result<u32, SubmitFault>
        requires { IsSome (outgoing_at self.old.node key) }
        ensures ok { IfOk result (λ count. Submits self.old.node key sdu.now count self.new.node) }
        ensures tables { self.new.tables ≡ self.old.tables }
        ensures err { OnErr result (self.new ≡ self.old) }
        ensures fault { IfErr result (Refuses (outgoing self.old.node key).sender sdu.now) }
    {
        let count = self.end.submit(key, sdu)?;
        Ok(count)
    }

    /// Hears a PDU that came to the high side of its port (TS 38.322 clause 5.2.3.2.2, TS 38.323 clauses 5.2.2, 5.3 and 5.4.2).
    /// It needs TX_Next below 2^62 and RX_Next at most 2^62 of the port's entity.
    ///
    /// An `Err` is want of memory: either all is as it was, or the entity completed an SDU that its bearer has not heard.
    pub fn hear(&mut self, pdu: &Pdu) -> Result<NodeHeard, Memory>
        requires { (entity : Entity) → entity_at self.old.node pdu.now.port ≡ Some entity → IsSmall entity }
        ensures ok { IfOk result (λ answer. HearsPdu self.old.tables self.old.node
            (side_of self.old.node.name) pdu.now answer self.new.node) }
        ensures tables { self.new.tables ≡ self.old.tables }
        ensures err { OnErr result (StopsHearing self.old.tables self.old.node
            (side_of self.old.node.name) pdu.now self.new.node) }
    {
        let answer = self.end.hear(pdu)?;
        Ok(answer)
    }

    /// Gives its transmitters what they have room for, and answers the keys of the reports that it gave (TS 38.323 clauses
    /// 5.2.1 and 5.4.1). It needs TX_Next below 2^62 - 2^40 of each transmitter.
    ///
    /// An `Err` is want of memory, and comes only where there is a PDU to give. What was given before is given then.
    pub fn feed(&mut self) -> Result<KeyList, Memory>
        requires { All HasNumbers self.old.node.ports }
        ensures ok { IfOk result
            (λ given. Feeds self.old.tables self.old.node given self.new.node) }
        ensures tables { self.new.tables ≡ self.old.tables }
        ensures err { OnErr result (StopsFeeding self.old.tables self.old.node self.new.node) }
    {
        let given = self.end.feed()?;
        Ok(given)
    }

    /// Sends one PDU of at most `n` octets over a port (TS 38.322 clauses 5.2.3.1.1 and 5.3.4). `NoPort` comes exactly where
    /// the port isn't open here.
    ///
    /// An `Err` is want of memory. It comes only where the port is open, a PDU is to be sent over it, and `n` octets are
    /// enough. All is then as it was.
    pub fn grant(&mut self, port: PortName, n: u32) -> Result<PortGrant, Memory>
        ensures ok { IfOk result (λ answer. GrantsPort self.old.node port n answer self.new.node) }
        ensures tables { self.new.tables ≡ self.old.tables }
        ensures err { OnErr result (self.new ≡ self.old) }
        ensures memory { OnErr result
            (IsThere (λ e. IsToSend e.tx e.rx n) (entity_at self.old.node port)) }
    {
        let answer = self.end.grant(port, n)?;
        Ok(answer)
    }

    /// A timer of a port runs out (TS 38.322 clause 7.3). None comes exactly where the port isn't open here.
    pub fn expire(&mut self, port: PortName, timer: Timer) -> Option<Expired>
        ensures expires { ExpiresPort self.old.node port timer result self.new.node }
        ensures tables { self.new.tables ≡ self.old.tables }
    {
        self.end.expire(port, timer)
    }

    /// A status report about an `ul` key is wanted (TS 38.323 clause 5.4.1). Of another key nothing changes.
    pub fn want_report(&mut self, key: Key)
        ensures wants { self.new.node ≡ set_incoming self.old.node
            (record (incoming self.old.node key) { wanted = true }) }
        ensures tables { self.new.tables ≡ self.old.tables }
    {
        self.end.want_report(key);
    }

    /// How many SDUs of a key were accepted first and are all confirmed.
    pub fn confirmed(&self, key: Key) -> u64
        ensures { result ≡ confirmed (outgoing self.now.node key).sender }
    {
        self.end.confirmed(key)
    }

    /// How many SDUs of a key were accepted.
    pub fn submitted(&self, key: Key) -> u64
        ensures { result ≡ submitted (outgoing self.now.node key).sender }
    {
        self.end.submitted(key)
    }

    /// How many SDUs of a key were handed up.
    pub fn handed(&self, key: Key) -> u64
        ensures { result ≡ (incoming self.now.node key).receiver.handed }
    {
        self.end.handed(key)
    }

    /// Whether the sender of a key waits for a status report.
    pub fn awaits(&self, key: Key) -> bool
        ensures { result ≡ (outgoing self.now.node key).sender.waits }
    {
        self.end.awaits(key)
    }

    /// Whether the sender of a key has an SDU to give to RLC.
    pub fn has_next(&self, key: Key) -> bool
        ensures { result ≡ has_next (outgoing self.now.node key).sender }
    {
        self.end.has_next(key)
    }

    /// Whether a status report about a key is to be given.
    pub fn wants_report(&self, key: Key) -> bool
        ensures { result ≡ wants_report self.now.tables self.now.node
            (incoming self.now.node key) }
    {
        self.end.wants_report(key)
    }

    /// The transmitter of a port, or None exactly where the port isn't open here.
    pub fn tx(&self, port: PortName) -> Option<&AmTx>
        ensures { option_copied result ≡ option_map tx_of (entity_at self.now.node port) }
    {
        self.end.tx(port)
    }

    /// The receiver of a port, or None exactly where the port isn't open here.
    pub fn rx(&self, port: PortName) -> Option<&AmRx>
        ensures { option_copied result ≡ option_map rx_of (entity_at self.now.node port) }
    {
        self.end.rx(port)
    }

    /// The remote to which the gNB attaches a local identity, or None where it attaches it to none (TS 38.351 clause 6.3.2).
    pub fn remote_of(&self, id: LocalId) -> Option<Remote>
        ensures found { IfSome result (λ remote. IsAttached self.now.node.attached remote id.0) }
        ensures none { IfNone result
            ((remote : Remote) → IsAttached self.now.node.attached remote id.0 → ⊥) }
    {
        self.end.remote_of(id)
    }
}
