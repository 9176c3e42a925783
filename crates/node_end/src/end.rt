// The end of bearers at a node.
ghost use Rattle.std.specs.Prelude.{◌≡◌, IfOk, IfErr, IfSome, IfNone, OnErr, IsSome, option_map, true, false};
ghost use Rattle.std.specs.Option.{option_copied};
ghost use Rattle.link_base.specs.declared.names.Remote.{Remote};
ghost use Rattle.bearer_map.specs.Ids.{AreIds, IsAttached};
ghost use Rattle.rlc_hop.specs.Side.{IsToSend};
ghost use Rattle.pdcp_model.specs.Sender.{confirmed, submitted, has_next};
ghost use Rattle.pdcp_tx.specs.Calls.{Refuses};
ghost use Rattle.node_model.specs.State.{entity_at, id_at, outgoing_at, outgoing, incoming, set_incoming};
ghost use Rattle.node_model.specs.Opening.{attachments, all_attached, new_remote, new_gnb};
ghost use Rattle.node_model.specs.Sides.{GrantsPort, ExpiresPort};
ghost use Rattle.node_model.specs.Feeding.{wants_report};
ghost use Rattle.node_ports.specs.Sides.{IsThere, is_sent};
ghost use Rattle.node_ports.specs.Table.{tx_of, rx_of};
ghost use Rattle.node_bearers.specs.Calls.{HaveCounts, Submits};
ghost use Rattle.node_end.specs.Node.{name_of, node_of};
ghost use Rattle.node_end.specs.Opening.{HaveRoutes};
ghost use Rattle.node_end.specs.Ports.{IsEnd};

use crate::node::EndNode;
use crate::served::Served;
use crate::to_feed::ToFeed;
use bearer_map::{Ids, RemoteRow, Tables};
use link_base::{Expired, Goal, ItemList, Key, LocalId, Memory, PortName, Remote, Timer};
use node_bearers::Bearers;
use node_model::PortGrant;
use node_ports::{Ports, attached};
use pdcp_tx::SubmitFault;
use rlc_am_rx::AmRx;
use rlc_am_tx::AmTx;
use std::alloc::Global;
use std::marker::Model;

/// Keys in order.
pub type KeyList = ItemList<Key>;

/// The end of bearers at a remote or at the gNB: its sides of their ports, and the PDCP entities that send and receive over
/// them. Contracts see it as a node with its tables.
///
/// A call looks at the bearers of one port, at a channel of those that are mapped to it, and finds a port and a bearer in
/// time that grows with the logarithm of their number.
#[derive(Drop)]
pub struct End {
    pub(crate) node: EndNode,
    pub(crate) served: Served,
    pub(crate) to_feed: ToFeed,
}

impl Model for End {
    ghost use Rattle.node_model.specs.State.{TabledNode};
    ghost use Rattle.node_end.specs.End.{seen, IsKept};

    ghost Value = { TabledNode };

    ghost view = { seen };

    ghost invariant = { IsKept };
}

impl End {
    /// The end at a remote, whose row this is, at which nothing has happened. It keeps a copy of the tables. Each bearer that is
    /// mapped to channels is to be declared, with an identity from 1 to 32.
    pub fn of_remote(alloc: Global, tables: &Tables, row: RemoteRow) -> Result<Self, Memory>
        requires counts { HaveCounts tables.now }
        requires routes { HaveRoutes tables.now }
        ensures { IfOk result
            (λ end. end ≡ record { tables = tables.now; node = new_remote tables.now row }) }
    {
        let ports = Ports::of_remote(alloc, tables, row)?;
        let bearers = Bearers::of_remote(alloc, tables, row.remote)?;
        let ids = own_id(alloc, row)?;
        let node = EndNode {
            alloc,
            tables: tables.copy(alloc)?,
            remote: Some(row.remote),
            ids,
            ports,
            bearers,
        };
        Self::open(alloc, node)
    }

    /// The end at the gNB, at which nothing has happened. It keeps a copy of the tables. Each bearer that is mapped to channels
    /// is to be declared, with an identity from 1 to 32, and no two remotes may begin with one local identity.
    pub fn of_gnb(alloc: Global, tables: &Tables) -> Result<Self, Memory>
        requires counts { HaveCounts tables.now }
        requires routes { HaveRoutes tables.now }
        requires ids { AreIds (all_attached tables.now) }
        ensures { IfOk result
            (λ end. end ≡ record { tables = tables.now; node = new_gnb tables.now }) }
    {
        let ports = Ports::of_gnb(alloc, tables)?;
        let bearers = Bearers::of_gnb(alloc, tables)?;
        let ids = attached(alloc, tables)?;
        let node = EndNode {
            alloc,
            tables: tables.copy(alloc)?,
            remote: None,
            ids,
            ports,
            bearers,
        };
        Self::open(alloc, node)
    }

    // An end of which everything is to be fed.
    fn open(alloc: Global, node: EndNode) -> Result<Self, Memory>
        requires { IsEnd node.tables (node_of node) }
        ensures { IfOk result (λ end. end ≡ record { tables = node.tables; node = node_of node }) }
    {
        let served = Served::new(alloc, &node.tables, &node.bearers)?;
        Ok(End {
            node,
            served,
            to_feed: ToFeed::Everything,
        })
    }

    /// The remote whose end this is, or None at the gNB.
    pub fn remote(&self) -> Option<Remote>
        ensures { name_of result ≡ self.now.node.name }
    {
        self.node.remote
    }

    /// The local identity of a remote that is on the relay path here, or None of another (TS 38.351 clause 6.3.2).
    pub fn id_of(&self, remote: Remote) -> Option<LocalId>
        ensures { result ≡ id_at self.now.node remote }
    {
        self.node.id_of(remote)
    }

    /// The remote to which this end attaches a local identity, or None where it attaches it to none.
    pub fn remote_of(&self, id: LocalId) -> Option<Remote>
        ensures found { IfSome result (λ remote. IsAttached self.now.node.attached remote id.0) }
        ensures none { IfNone result
            ((remote : Remote) → IsAttached self.now.node.attached remote id.0 → ⊥) }
    {
        self.node.ids.remote_of(id)
    }

    /// Accepts an SDU of 1 to 9,000 bytes of a key that is sent here, of which it keeps a copy, and answers its COUNT (TS
    /// 38.323 clause 5.2.1).
    ///
    /// An `Err` tells the first reason that holds, of `Empty`, `Long`, `Spent` and `Full`. `Memory` comes only where none
    /// of these holds. All is then as it was.
    pub fn submit(&mut self, key: Key, sdu: &[u8]) -> Result<u32, SubmitFault>
        requires { IsSome (outgoing_at self.old.node key) }
        ensures ok { IfOk result (λ count. Submits self.old.node key sdu.now count self.new.node) }
        ensures err { OnErr result (self.new ≡ self.old) }
        ensures fault { IfErr result (Refuses (outgoing self.old.node key).sender sdu.now) }
        ensures tables { self.new.tables ≡ self.old.tables }
        ensures name { self.new.node.name ≡ self.old.node.name }
    {
        let count = self.node.bearers.submit(key, sdu)?;
        self.to_feed = self
            .to_feed
            .with_port(PortName::Direct(key.remote, key.drb));
        Ok(count)
    }

    /// Sends one PDU of at most so many octets over a port (TS 38.322 clauses 5.2.3.1.1 and 5.3.4). `NoPort` comes exactly
    /// where the port isn't open here. Where no PDU is sent all is as it was.
    ///
    /// An `Err` is want of memory. It comes only where the port is open, a PDU is to be sent over it, and so many octets are
    /// enough. All is then as it was.
    pub fn grant(&mut self, port: PortName, octets: u32) -> Result<PortGrant, Memory>
        ensures ok { IfOk result (λ answer. GrantsPort self.old.node port octets answer self.new.node) }
        ensures still { IfOk result (λ answer. is_sent answer ≡ false → self.new ≡ self.old) }
        ensures tables { self.new.tables ≡ self.old.tables }
        ensures name { self.new.node.name ≡ self.old.node.name }
        ensures err { OnErr result (self.new ≡ self.old) }
        ensures memory { OnErr result
            (IsThere (λ e. IsToSend e.tx e.rx octets) (entity_at self.old.node port)) }
    {
        self.to_feed = self.to_feed.with_port(port);
        let answer = self.node.ports.grant(port, octets)?;
        Ok(answer)
    }

    /// A timer of a port runs out (TS 38.322 clause 7.3). None comes exactly where the port isn't open here. It takes no
    /// memory.
    pub fn expire(&mut self, port: PortName, timer: Timer) -> Option<Expired>
        ensures expires { ExpiresPort self.old.node port timer result self.new.node }
        ensures tables { self.new.tables ≡ self.old.tables }
        ensures name { self.new.node.name ≡ self.old.node.name }
    {
        self.to_feed = self.to_feed.with_port(port);
        self.node.ports.expire(port, timer)
    }

    /// A status report about a key that is received here is wanted (TS 38.323 clause 5.4.1). Of another key nothing changes.
    pub fn want_report(&mut self, key: Key)
        ensures wants { self.new.node ≡ set_incoming self.old.node
            (record (incoming self.old.node key) { wanted = true }) }
        ensures tables { self.new.tables ≡ self.old.tables }
        ensures name { self.new.node.name ≡ self.old.node.name }
    {
        self.to_feed = self
            .to_feed
            .with_port(PortName::Direct(key.remote, key.drb));
        self.node.bearers.want_report(key);
    }

    /// How many SDUs of a key that is sent here were accepted first and are all confirmed.
    pub fn confirmed(&self, key: Key) -> u64
        ensures { result ≡ confirmed (outgoing self.now.node key).sender }
    {
        self.node.bearers.confirmed(key)
    }

    /// How many SDUs of a key that is sent here were accepted.
    pub fn submitted(&self, key: Key) -> u64
        ensures { result ≡ submitted (outgoing self.now.node key).sender }
    {
        self.node.bearers.submitted(key)
    }

    /// How many SDUs of a key that is received here were handed up.
    pub fn handed(&self, key: Key) -> u64
        ensures { result ≡ (incoming self.now.node key).receiver.handed }
    {
        self.node.bearers.handed(key)
    }

    /// Whether the sender of a key waits for a status report.
    pub fn awaits(&self, key: Key) -> bool
        ensures { result ≡ (outgoing self.now.node key).sender.waits }
    {
        self.node.bearers.awaits(key)
    }

    /// Whether the sender of a key has an SDU to give to RLC.
    pub fn has_next(&self, key: Key) -> bool
        ensures { result ≡ has_next (outgoing self.now.node key).sender }
    {
        self.node.bearers.has_next(key)
    }

    /// Whether a status report about a key that is received here is to be given.
    pub fn wants_report(&self, key: Key) -> bool
        ensures { result ≡ wants_report self.now.tables self.now.node
            (incoming self.now.node key) }
    {
        self.node.wants_report(key)
    }

    /// The transmitter of a port, or None exactly where the port isn't open here.
    pub fn tx(&self, port: PortName) -> Option<&AmTx>
        ensures { option_copied result ≡ option_map tx_of (entity_at self.now.node port) }
    {
        self.node.ports.tx(port)
    }

    /// The receiver of a port, or None exactly where the port isn't open here.
    pub fn rx(&self, port: PortName) -> Option<&AmRx>
        ensures { option_copied result ≡ option_map rx_of (entity_at self.now.node port) }
    {
        self.node.ports.rx(port)
    }
}

// The local identity of a remote that begins on the relay path, at the remote.
fn own_id(alloc: Global, row: RemoteRow) -> Result<Ids, Memory>
    ensures { IfOk result (λ ids. ids ≡ attachments row.remote row.goal) }
{
    let mut ids = Ids::new(alloc)?;
    if let Goal::Relay(id) = row.goal {
        ids.attach(row.remote, id)?;
    }
    Ok(ids)
}
