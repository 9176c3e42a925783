// The sides of ports that a node has.
ghost use Rattle.std.specs.Prelude.{◌≡◌, ◌<◌, ◌≤◌, ◌^◌, true, false, length, map, Some, is_some, IsNone, IfOk, OnOk, OnErr, option_map};
ghost use Rattle.std.specs.Option.{option_copied};
ghost use Rattle.link_base.specs.declared.limits.TheConstants.{LONGEST_RLC_SDU};
ghost use Rattle.rlc_model.specs.Sides.{Entity};
ghost use Rattle.rlc_model.specs.Tx.{tx_next};
ghost use Rattle.rlc_hop.specs.Side.{IsToSend, HearsNews};
ghost use Rattle.node_model.specs.State.{Node};
ghost use Rattle.node_model.specs.Opening.{new_remote, new_relay, new_gnb};
ghost use Rattle.node_model.specs.Sides.{GrantsPort, ExpiresPort};
ghost use Rattle.node_model.specs.Hearing.{hear_refusal};
ghost use Rattle.node_model.specs.Feeding.{room_of};
ghost use Rattle.node_model.specs.Standing.{entity_bears};
ghost use Rattle.node_model.specs.Switching.{side_after};
ghost use Rattle.node_ports.specs.Sides.{IsThere, IsSmall, is_sent};
ghost use Rattle.node_ports.specs.Table.{side_in, entity_in, tx_of, rx_of};
ghost use Rattle.node_ports.specs.Calls.{HearsPort, GivesPort};

use crate::entity::RlcEntity;
use crate::opening::{add_direct, add_pc5, add_uu};
use crate::order::place_of;
use crate::side::PortSide;
use crate::switching::{self, entities_after};
use bearer_map::{RemoteRow, Settings, Tables};
use link_base::{Bytes, Expired, Goal, LocalId, Memory, PortName, Remote, Tag, Timer};
use node_model::{NodeHeard, PortGrant};
use rlc_am_rx::AmRx;
use rlc_am_tx::AmTx;
use rlc_hop::{HopHeard, Pdu};
use std::alloc::Global;
use std::marker::Model;

/// The sides of ports that a node has, one for each port that the tables give it, and for ever. A side that is
/// closed has no RLC entity.
///
/// A side is found in time that grows with the logarithm of their number.
#[derive(Drop)]
pub struct Ports {
    alloc: Global,
    // In the order of their ports, each of which stands once.
    sides: Vec<PortSide>,
}

impl Model for Ports {
    ghost use Rattle.std.specs.Prelude.{List};
    ghost use Rattle.node_model.specs.State.{PortSide};
    ghost use Rattle.node_model.specs.Rows.{AreOrdered};
    ghost use Rattle.node_ports.specs.Order.{side_before};

    ghost Value = { List PortSide };

    ghost view = { λ p. p.sides.items };

    ghost invariant = { λ p. AreOrdered side_before p.sides.items };
}

impl Ports {
    /// The sides of a remote whose row this is: those of its direct ports and its PC5 ports, of which the ones on
    /// its path are open in epoch 0.
    pub fn of_remote(alloc: Global, tables: &Tables, row: RemoteRow) -> Result<Self, Memory>
        ensures { IfOk result
            (λ ports. let node = new_remote tables.now row in ports ≡ node.ports) }
    {
        let settings = tables.settings();
        let mut sides = Vec::new(alloc);
        add_direct(alloc, &mut sides, settings, row, tables.bearers())?;
        add_pc5(alloc, &mut sides, settings, row, tables.pc5s())?;
        Ok(Ports { alloc, sides })
    }

    /// The sides of the relay: those of the PC5 ports of all remotes, of which the ones on the path of their remote
    /// are open in epoch 0, and those of the Uu ports, which are all open.
    pub fn of_relay(alloc: Global, tables: &Tables) -> Result<Self, Memory>
        ensures { IfOk result (λ ports. let node = new_relay tables.now in ports ≡ node.ports) }
    {
        let settings = tables.settings();
        let pc5s = tables.pc5s();
        let mut sides = Vec::new(alloc);
        for row in tables.remotes() {
            add_pc5(alloc, &mut sides, settings, *row, pc5s)?;
        }
        add_uu(alloc, &mut sides, settings, tables.uus())?;
        Ok(Ports { alloc, sides })
    }

    /// The sides of the gNB: those of the direct ports of all remotes, of which the ones on the path of their
    /// remote are open in epoch 0, and those of the Uu ports, which are all open.
    pub fn of_gnb(alloc: Global, tables: &Tables) -> Result<Self, Memory>
        ensures { IfOk result (λ ports. let node = new_gnb tables.now in ports ≡ node.ports) }
    {
        let settings = tables.settings();
        let bearers = tables.bearers();
        let mut sides = Vec::new(alloc);
        for row in tables.remotes() {
            add_direct(alloc, &mut sides, settings, *row, bearers)?;
        }
        add_uu(alloc, &mut sides, settings, tables.uus())?;
        Ok(Ports { alloc, sides })
    }

    // The side of a port.
    fn side(&self, port: PortName) -> Option<&PortSide>
        ensures { option_copied result ≡ side_in self.now port }
    {
        let place = place_of(&self.sides, port)?;
        self.sides.get(place)
    }

    // The entity of a port.
    fn entity(&self, port: PortName) -> Option<&RlcEntity>
        ensures { option_copied result ≡ entity_in self.now port }
    {
        self.side(port)?.entity()
    }

    /// The transmitter of a port, or None exactly where the port isn't open here.
    pub fn tx(&self, port: PortName) -> Option<&AmTx>
        ensures { option_copied result ≡ option_map tx_of (entity_in self.now port) }
    {
        Some(self.entity(port)?.tx())
    }

    /// The receiver of a port, or None exactly where the port isn't open here.
    pub fn rx(&self, port: PortName) -> Option<&AmRx>
        ensures { option_copied result ≡ option_map rx_of (entity_in self.now port) }
    {
        Some(self.entity(port)?.rx())
    }

    /// Whether an SDU bears this local identity that the transmitter of a port has and that isn't confirmed.
    pub fn bears(&self, port: PortName, id: LocalId) -> bool
        ensures { result ≡ entity_bears id (entity_in self.now port) }
    {
        match self.entity(port) {
            None => false,
            Some(entity) => entity.bears(id),
        }
    }

    /// How many more SDUs the transmitter of a port takes; 0 where the port isn't open here.
    pub fn room(&self, port: PortName) -> u64
        ensures { result ≡ room_of (entity_in self.now port) }
    {
        match self.entity(port) {
            None => 0,
            Some(entity) => entity.tx().room(),
        }
    }

    /// The first reason why the node doesn't hear a PDU: it has no such port, the air doesn't hand the PDU over to
    /// its side, or it is a data PDU and the slot is full that its SDU would go to. None where the PDU is to be
    /// heard; its port is open then.
    pub fn refusal(&self, pdu: &Pdu) -> Option<NodeHeard>
        ensures value { result ≡ hear_refusal pdu.now (side_in self.now pdu.now.port) }
        ensures open { IsNone result → is_some (entity_in self.now pdu.now.port) ≡ true }
    {
        match self.side(pdu.port) {
            None => Some(NodeHeard::NoPort),
            Some(side) => side.refusal(pdu),
        }
    }

    /// Sends one PDU of at most so many octets over a port (TS 38.322 clauses 5.2.3.1.1 and 5.3.4). `NoPort` comes
    /// exactly where the port isn't open here. Where no PDU is sent all is as it was.
    ///
    /// An `Err` is want of memory. It comes only where the port is open, a PDU is to be sent over it, and so many
    /// octets are enough. All is then as it was.
    pub fn grant(&mut self, port: PortName, octets: u32) -> Result<PortGrant, Memory>
        ensures ok { (n : Node) → n.ports ≡ self.old
            → IfOk result (λ answer. GrantsPort n port octets answer
            (record n { ports = self.new })) }
        ensures still { IfOk result (λ answer. is_sent answer ≡ false → self.new ≡ self.old) }
        ensures err { OnErr result (self.new ≡ self.old) }
        ensures memory { OnErr result
            (IsThere (λ e. IsToSend e.tx e.rx octets) (entity_in self.old port)) }
    {
        let Some(place) = place_of(&self.sides, port) else {
            return Ok(PortGrant::NoPort);
        };
        let answer = self.sides[place].grant(self.alloc, octets)?;
        Ok(answer)
    }

    /// A timer of a port runs out (TS 38.322 clause 7.3). None comes exactly where the port isn't open here. It
    /// takes no memory.
    pub fn expire(&mut self, port: PortName, timer: Timer) -> Option<Expired>
        ensures { (n : Node) → n.ports ≡ self.old
            → ExpiresPort n port timer result (record n { ports = self.new }) }
    {
        let place = place_of(&self.sides, port)?;
        let expired = self.sides[place].expire(timer)?;
        Some(expired)
    }

    /// The side of a port hears the octets of a PDU (TS 38.322 clauses 5.2.3.2.2 and 5.3.2). The port is to be open
    /// here, with TX_Next below 2^62 and RX_Next at most 2^62.
    ///
    /// An `Err` is want of memory. It comes only where the octets are a STATUS PDU with an element, or one that
    /// confirms an SDU or makes bytes pending, or a data PDU that the receiver is to place. All is then as it was.
    pub fn hear_hop(&mut self, port: PortName, bytes: &[u8]) -> Result<HopHeard, Memory>
        requires open { is_some (entity_in self.old port) ≡ true }
        requires small { (entity : Entity) → entity_in self.old port ≡ Some entity → IsSmall entity }
        ensures ok { (n : Node) → n.ports ≡ self.old
            → IfOk result (λ answer. HearsPort n port bytes.now answer
            (record n { ports = self.new })) }
        ensures err { OnErr result (self.new ≡ self.old) }
        ensures memory { OnErr result
            (IsThere (λ e. HearsNews e.tx e.rx bytes.now) (entity_in self.old port)) }
    {
        let Some(place) = place_of(&self.sides, port) else {
            unreachable!()
        };
        let answer = self.sides[place].hear(self.alloc, bytes)?;
        Ok(answer)
    }

    /// Gives the transmitter of a port an SDU of 1 to 9,005 bytes, with a tag that comes back once it is confirmed
    /// (TS 38.322 clause 5.2.3.1.1). The port is to be open here, with room and with TX_Next below 2^62.
    ///
    /// An `Err` is want of memory. All is then as it was.
    pub fn give(&mut self, port: PortName, tag: Tag, sdu: Bytes) -> Result<(), Memory>
        requires some { 0 < length sdu }
        requires long { length sdu ≤ LONGEST_RLC_SDU }
        requires room { 0 < room_of (entity_in self.old port) }
        requires small { (entity : Entity) → entity_in self.old port ≡ Some entity
            → tx_next entity.tx < 2 ^ 62 }
        ensures ok { (n : Node) → n.ports ≡ self.old
            → OnOk result (GivesPort n port tag sdu (record n { ports = self.new })) }
        ensures err { OnErr result (self.new ≡ self.old) }
    {
        let Some(place) = place_of(&self.sides, port) else {
            unreachable!()
        };
        self.sides[place].give(tag, sdu)?;
        Ok(())
    }

    /// The node applies a plan of a remote: the entities of the remote's old path are dropped, and those of its new path
    /// have sent and heard nothing and stand in this epoch (TS 38.322 clause 5.1.2). Slots and queues of the remote are
    /// emptied.
    ///
    /// An `Err` is want of memory. All is then as it was.
    pub fn apply(
        &mut self,
        settings: Settings,
        remote: Remote,
        goal: Goal,
        epoch: u32,
    ) -> Result<(), Memory>
        ensures ok { OnOk result
            (self.new ≡ map (side_after settings remote goal epoch) self.old) }
        ensures err { OnErr result (self.new ≡ self.old) }
    {
        let mut entities = entities_after(self.alloc, &self.sides, settings, remote, goal, epoch)?;
        switching::apply(&mut self.sides, remote, &mut entities);
        Ok(())
    }
}
