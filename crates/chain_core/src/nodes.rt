// The nodes of a chain.
ghost use Rattle.std.specs.Prelude.{◌≡◌, map, IfOk, IfErr, OnErr, IsSome, IfSome, IfNone, IsNone, is_some, false, Some};
ghost use Rattle.pdcp_model.specs.Sender.{confirmed, submitted};
ghost use Rattle.pdcp_tx.specs.Calls.{Refuses};
ghost use Rattle.rlc_model.specs.Sides.{hearer_of};
ghost use Rattle.node_model.specs.Names.{owner, source, sink};
ghost use Rattle.node_model.specs.State.{entity_at, outgoing_at, outgoing, incoming};
ghost use Rattle.node_model.specs.Sides.{GrantsPort, ExpiresPort};
ghost use Rattle.node_model.specs.Hearing.{HearsPdu};
ghost use Rattle.node_model.specs.Names.{AtRelay, is_node};
ghost use Rattle.node_model.specs.Relaying.{PushesPort, PullsPort};
ghost use Rattle.node_bearers.specs.Calls.{Submits};
ghost use Rattle.relay_core.specs.Relay.{queue_capacity};
ghost use Rattle.node_ports.specs.Sides.{is_sent};
ghost use Rattle.chain_model.specs.Lines.{is_handed_over};
ghost use Rattle.chain_model.specs.State.{opened};
ghost use Rattle.chain_model.specs.Steps.{FeedsAll};
ghost use Rattle.node_end.specs.Node.{name_of};
ghost use Rattle.chain_core.specs.Told.{IsTold};
ghost use Rattle.chain_core.specs.Opening.{CanOpen};
ghost use Rattle.chain_core.specs.Nodes.{AreApart, HaveNumbers, node_in, node_of, Moves, WantsReport, IsSmallAt, IsPlaceOf, HasNone};

use crate::keys::is_at_relay;
use bearer_map::Tables;
use link_base::{Expired, Key, Memory, PortName, Remote, Side, Timer, Way};
use node_end::{End, KeyList};
use node_model::{NodeHeard, PortGrant, PullReply, PushReply};
use pdcp_tx::SubmitFault;
use relay_core::Relay;
use rlc_hop::Pdu;
use std::alloc::Global;
use std::marker::Model;

/// The remotes, the relay and the gNB, and the tables, of which each of them keeps a copy.
#[derive(Drop)]
pub(crate) struct Nodes {
    tables: Tables,
    // The remotes in their order, and the gNB.
    ends: Vec<End>,
    relay: Relay,
}

impl Model for Nodes {
    ghost use Rattle.chain_core.specs.Nodes.{NodesOfTables, all_nodes, AreNodes};

    ghost Value = { NodesOfTables };

    ghost view = { λ n. record { tables = n.tables; nodes = all_nodes n.relay n.ends.items } };

    ghost invariant = { λ n. AreNodes n.tables n.relay n.ends.items };
}

impl Nodes {
    /// Nodes at which nothing has happened.
    pub(crate) fn new(alloc: Global, tables: Tables) -> Result<Self, Memory>
        requires { CanOpen tables }
        ensures nodes { IfOk result
            (λ nodes. let chain = opened tables in nodes.nodes ≡ chain.nodes) }
        ensures tables { IfOk result (λ nodes. nodes.tables ≡ tables) }
    {
        let mut ends = Vec::new(alloc);
        for row in tables.remotes() {
            ends.push(End::of_remote(alloc, &tables, *row)?)?;
        }
        ends.push(End::of_gnb(alloc, &tables)?)?;
        let relay = Relay::new(alloc, &tables)?;
        Ok(Nodes {
            tables,
            ends,
            relay,
        })
    }

    /// The tables.
    pub(crate) fn tables(&self) -> &Tables
        ensures { result.now ≡ self.now.tables }
    {
        &self.tables
    }

    /// Whether a side of a port is open.
    pub(crate) fn is_open(&self, side: Side, port: PortName) -> bool
        ensures { result ≡ is_some (entity_at (node_in self.now.nodes (owner side port)) port) }
    {
        if is_at_relay(side, port) {
            return self.relay.tx(port).is_some();
        }
        match place_of_side(&self.ends, side, port) {
            Some(place) => self.ends[place].tx(port).is_some(),
            None => false,
        }
    }

    /// The end that sends a key accepts an SDU, or refuses it for the first fault that holds.
    pub(crate) fn submit(&mut self, key: Key, sdu: &[u8]) -> Result<u32, SubmitFault>
        requires { IsSome (outgoing_at (node_in self.old.nodes (source key)) key) }
        ensures ok { IfOk result (λ count. Moves (source key)
            (λ old new. Submits old key sdu.now count new) self.old.nodes self.new.nodes) }
        ensures err { OnErr result (self.new ≡ self.old) }
        ensures fault { IfErr result
            (Refuses (outgoing (node_in self.old.nodes (source key)) key).sender sdu.now) }
        ensures tables { self.new.tables ≡ self.old.tables }
    {
        let Some(place) = place_of_sender(&self.ends, key) else {
            unreachable!()
        };
        let count = self.ends[place].submit(key, sdu)?;
        Ok(count)
    }

    /// A side of a port may send one PDU of at most so many octets.
    pub(crate) fn grant(
        &mut self,
        side: Side,
        port: PortName,
        octets: u32,
    ) -> Result<PortGrant, Memory>
        ensures ok { IfOk result (λ answer. Moves (owner side port)
            (λ old new. GrantsPort old port octets answer new) self.old.nodes self.new.nodes) }
        ensures still { IfOk result (λ answer. is_sent answer ≡ false → self.new ≡ self.old) }
        ensures tables { self.new.tables ≡ self.old.tables }
    {
        if is_at_relay(side, port) {
            let answer = self.relay.grant(port, octets)?;
            return Ok(answer);
        }
        let Some(place) = place_of_side(&self.ends, side, port) else {
            return Ok(PortGrant::NoPort);
        };
        let answer = self.ends[place].grant(port, octets)?;
        Ok(answer)
    }

    /// A timer of a side of a port runs out.
    pub(crate) fn expire(&mut self, side: Side, port: PortName, timer: Timer) -> Option<Expired>
        ensures expires { Moves (owner side port)
            (λ old new. ExpiresPort old port timer result new) self.old.nodes self.new.nodes }
        ensures none { IsNone result → self.new ≡ self.old }
        ensures tables { self.new.tables ≡ self.old.tables }
    {
        if is_at_relay(side, port) {
            return self.relay.expire(port, timer);
        }
        let Some(place) = place_of_side(&self.ends, side, port) else {
            return None;
        };
        self.ends[place].expire(port, timer)
    }

    /// A PDU comes to the node that has this side of its port.
    pub(crate) fn hear(&mut self, side: Side, pdu: &Pdu) -> Result<NodeHeard, Memory>
        requires { IsSmallAt (node_in self.old.nodes (owner side pdu.now.port)) pdu.now.port }
        ensures ok { IfOk result (λ answer. Moves (owner side pdu.now.port)
            (λ old new. HearsPdu self.old.tables old side pdu.now answer new) self.old.nodes
            self.new.nodes) }
        ensures still { IfOk result
            (λ answer. is_handed_over answer ≡ false → self.new ≡ self.old) }
        ensures told { IfOk result IsTold }
        ensures tables { self.new.tables ≡ self.old.tables }
    {
        if is_at_relay(side, pdu.port) {
            let answer = self.relay.hear(pdu)?;
            return Ok(answer);
        }
        let Some(place) = place_of_side(&self.ends, side, pdu.port) else {
            return Ok(NodeHeard::NoPort);
        };
        let answer = self.ends[place].hear(pdu)?;
        Ok(answer)
    }

    /// The relay moves the SDU in the slot of a port to the queue of the port over which it goes on.
    pub(crate) fn push(&mut self, port: PortName) -> PushReply
        ensures pushes { Moves AtRelay
            (λ old new. PushesPort (queue_capacity self.old.tables) old port result new)
            self.old.nodes self.new.nodes }
        ensures tables { self.new.tables ≡ self.old.tables }
    {
        self.relay.push(port)
    }

    /// The relay gives the SDU at the front of the queue of a port to the port's transmitter.
    pub(crate) fn pull(&mut self, port: PortName) -> Result<PullReply, Memory>
        requires { IsSmallAt (node_in self.old.nodes AtRelay) port }
        ensures pulls { IfOk result (λ reply. Moves AtRelay
            (λ old new. PullsPort old port reply new) self.old.nodes self.new.nodes) }
        ensures tables { self.new.tables ≡ self.old.tables }
    {
        let reply = self.relay.pull(port)?;
        Ok(reply)
    }

    /// A status report about a key is wanted at the end that receives it.
    pub(crate) fn want_report(&mut self, key: Key)
        ensures wants { Moves (sink key) (WantsReport key) self.old.nodes self.new.nodes }
        ensures tables { self.new.tables ≡ self.old.tables }
    {
        let Some(place) = place_of_receiver(&self.ends, key) else {
            return;
        };
        self.ends[place].want_report(key);
    }

    /// Each node feeds its transmitters. It answers the keys of the reports that were given, in the order of the nodes.
    pub(crate) fn feed(&mut self, alloc: Global) -> Result<KeyList, Memory>
        requires { HaveNumbers self.old.nodes }
        ensures ok { IfOk result
            (λ given. FeedsAll self.old.tables self.old.nodes given self.new.nodes) }
        ensures tables { self.new.tables ≡ self.old.tables }
    {
        let mut given = KeyList::new(alloc);
        for place in 0..self.ends.len() {
            let keys = self.ends[place].feed()?;
            given.append(keys.as_slice())?;
        }
        Ok(given)
    }

    /// How many SDUs of a key were accepted first and are all confirmed.
    pub(crate) fn confirmed(&self, key: Key) -> u64
        ensures { result ≡ confirmed (outgoing (node_in self.now.nodes (source key)) key).sender }
    {
        match place_of_sender(&self.ends, key) {
            Some(place) => self.ends[place].confirmed(key),
            None => 0,
        }
    }

    /// How many SDUs of a key were accepted.
    pub(crate) fn submitted(&self, key: Key) -> u64
        ensures { result ≡ submitted (outgoing (node_in self.now.nodes (source key)) key).sender }
    {
        match place_of_sender(&self.ends, key) {
            Some(place) => self.ends[place].submitted(key),
            None => 0,
        }
    }

    /// How many SDUs of a key were handed up.
    pub(crate) fn handed(&self, key: Key) -> u64
        ensures { result ≡ (incoming (node_in self.now.nodes (sink key)) key).receiver.handed }
    {
        match place_of_receiver(&self.ends, key) {
            Some(place) => self.ends[place].handed(key),
            None => 0,
        }
    }
}

// The place of the end that has a side of a port, where it is one of these; the relay isn't.
fn place_of_side(ends: &[End], side: Side, port: PortName) -> Option<usize>
    requires { AreApart (map node_of ends.now) }
    ensures found { IfSome result (IsPlaceOf ends.now (owner side port)) }
    ensures none { IfNone result (HasNone ends.now (owner side port)) }
{
    match (side, port) {
        (Side::Low, PortName::Direct(remote, _) | PortName::Pc5(remote, _)) => {
            place_of(ends, Some(remote))
        }
        (Side::High, PortName::Direct(..) | PortName::Uu(_)) => place_of(ends, None),
        (Side::High, PortName::Pc5(..)) | (Side::Low, PortName::Uu(_)) => None,
    }
}

// The place of the end that sends a key.
fn place_of_sender(ends: &[End], key: Key) -> Option<usize>
    ensures found { IfSome result (IsPlaceOf ends.now (source key)) }
    ensures none { IfNone result (HasNone ends.now (source key)) }
{
    match key.way {
        Way::Ul => place_of(ends, Some(key.remote)),
        Way::Dl => place_of(ends, None),
    }
}

// The place of the end that receives a key.
fn place_of_receiver(ends: &[End], key: Key) -> Option<usize>
    ensures found { IfSome result (IsPlaceOf ends.now (sink key)) }
    ensures none { IfNone result (HasNone ends.now (sink key)) }
{
    match key.way {
        Way::Ul => place_of(ends, None),
        Way::Dl => place_of(ends, Some(key.remote)),
    }
}

// The place of the end at a remote, or of the gNB. There are at most nine ends.
fn place_of(ends: &[End], remote: Option<Remote>) -> Option<usize>
    ensures found { IfSome result (IsPlaceOf ends.now (name_of remote)) }
    ensures none { IfNone result (HasNone ends.now (name_of remote)) }
{
    for place in 0..ends.len() {
        if ends[place].remote() == remote {
            return Some(place);
        }
    }
    None
}
