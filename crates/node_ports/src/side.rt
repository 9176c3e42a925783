// A side of a port.
ghost use Rattle.std.specs.Prelude.{◌≡◌, ◌<◌, ◌≤◌, ◌^◌, true, Some, length, is_some, IfOk, OnOk, OnErr};
ghost use Rattle.std.specs.Option.{option_copied};
ghost use Rattle.link_base.specs.declared.limits.TheConstants.{LONGEST_RLC_SDU};
ghost use Rattle.node_model.specs.Opening.{new_side};
ghost use Rattle.node_model.specs.Hearing.{side_refusal, entity_fault};
ghost use Rattle.node_model.specs.Names.{is_of};
ghost use Rattle.node_model.specs.Switching.{is_purged};
ghost use Rattle.node_ports.specs.Switching.{entity_after, side_with};

use crate::entity::RlcEntity;
use crate::opening::is_open_on;
use crate::order::PortRow;
use bearer_map::Settings;
use link_base::{Bytes, Expired, Goal, Memory, PortName, Remote, SnSize, Tag, Timer};
use node_model::{NodeHeard, Parcel, PortGrant};
use rlc_hop::{AirFault, HopHeard, Pdu};
use std::alloc::Global;
use std::collections::VecDeque;
use std::marker::Model;

/// A side of a port at a node. It is open where it has an entity. At the relay it has a slot for an SDU that was
/// heard, and a queue of SDUs that are to be sent.
#[derive(Drop)]
pub(crate) struct PortSide {
    name: PortName,
    size: SnSize,
    entity: Option<RlcEntity>,
    slot: Option<Parcel>,
    queue: VecDeque<Parcel>,
}

impl Model for PortSide {
    ghost use Rattle.node_model.specs.State.{PortSide};

    ghost Value = { PortSide };

    ghost view = { λ s. record { name = s.name; size = s.size; entity = s.entity; slot = s.slot; queue = s.queue.items } };
}

impl PortSide {
    ghost use Rattle.node_model.specs.Feeding.{room_of};
    ghost use Rattle.rlc_model.specs.Sides.{Entity};
    ghost use Rattle.rlc_model.specs.Tx.{tx_next};
    ghost use Rattle.node_ports.specs.Sides.{GrantsAt, HearsAt, ExpiresAt, GivesAt, IsToSendAt, HearsNewsAt, IsSmall};

    /// A side at which nothing has happened, with an entity in epoch 0 where it is open.
    pub(crate) fn new(
        alloc: Global,
        settings: Settings,
        name: PortName,
        size: SnSize,
        is_open: bool,
    ) -> Result<Self, Memory>
        ensures { IfOk result (λ side. side ≡ new_side settings name size is_open) }
    {
        let entity = if is_open {
            Some(RlcEntity::new(alloc, settings, size, 0)?)
        } else {
            None
        };
        Ok(PortSide {
            name,
            size,
            entity,
            slot: None,
            queue: VecDeque::new(alloc),
        })
    }

    /// The entity with which it begins where it is one of the remote's sides and is open on its new path.
    pub(crate) fn entity_after(
        &self,
        alloc: Global,
        settings: Settings,
        remote: Remote,
        goal: Goal,
        epoch: u32,
    ) -> Result<Option<RlcEntity>, Memory>
        ensures { IfOk result
            (λ entity. entity ≡ entity_after settings remote goal epoch self.now) }
    {
        if !(is_of(remote, self.name) && is_open_on(goal, self.name)) {
            return Ok(None);
        }
        let entity = RlcEntity::new(alloc, settings, self.size, epoch)?;
        Ok(Some(entity))
    }

    /// The node has applied a plan of a remote. One of the remote's own sides takes this entity, or is closed where
    /// there is none.
    pub(crate) fn apply(&mut self, remote: Remote, entity: &mut Option<RlcEntity>)
        ensures { self.new ≡ side_with remote entity.old self.old }
    {
        if self.is_purged(remote) {
            self.slot = None;
        }
        if is_of(remote, self.name) {
            self.entity = entity.take();
            self.queue.clear();
        }
    }

    // Whether its slot is emptied: it is one of the remote's own sides, or the SDU in it leads to the remote.
    fn is_purged(&self, remote: Remote) -> bool
        ensures { result ≡ is_purged remote self.now }
    {
        if is_of(remote, self.name) {
            return true;
        }
        match &self.slot {
            None => false,
            Some(parcel) => remote.0 == parcel.route.key.remote.0,
        }
    }

    pub(crate) fn entity(&self) -> Option<&RlcEntity>
        ensures { option_copied result ≡ self.now.entity }
    {
        self.entity.as_ref()
    }

    /// The first reason why it doesn't hear a PDU of its port.
    pub(crate) fn refusal(&self, pdu: &Pdu) -> Option<NodeHeard>
        ensures { result ≡ side_refusal pdu.now self.now (entity_fault pdu.now self.now.entity) }
    {
        if let Some(fault) = self.fault(pdu) {
            return Some(NodeHeard::Air(fault));
        }
        if self.slot.is_some() && !pdu.status {
            return Some(NodeHeard::Held);
        }
        None
    }

    // Why the air doesn't hand a PDU over to it.
    fn fault(&self, pdu: &Pdu) -> Option<AirFault>
        ensures { result ≡ entity_fault pdu.now self.now.entity }
    {
        match &self.entity {
            None => Some(AirFault::Gone),
            Some(entity) => entity.fault(pdu),
        }
    }

    /// Sends one PDU of at most so many octets where it is open. After an `Err` nothing changed.
    pub(crate) fn grant(&mut self, alloc: Global, octets: u32) -> Result<PortGrant, Memory>
        ensures ok { IfOk result (λ answer. GrantsAt self.old octets answer self.new) }
        ensures err { OnErr result (self.new ≡ self.old) }
        ensures memory { OnErr result (IsToSendAt self.old octets) }
    {
        let Some(entity) = &mut self.entity else {
            return Ok(PortGrant::NoPort);
        };
        let grant = entity.grant(alloc, octets)?;
        Ok(PortGrant::Hop {
            epoch: entity.epoch(),
            grant,
        })
    }

    /// A timer runs out where it is open.
    pub(crate) fn expire(&mut self, timer: Timer) -> Option<Expired>
        ensures { ExpiresAt self.old timer result self.new }
    {
        let entity = self.entity.as_mut()?;
        Some(entity.expire(timer))
    }

    /// Hears octets, where it is open. After an `Err` nothing changed.
    pub(crate) fn hear(&mut self, alloc: Global, bytes: &[u8]) -> Result<HopHeard, Memory>
        requires open { is_some self.old.entity ≡ true }
        requires small { (entity : Entity) → self.old.entity ≡ Some entity → IsSmall entity }
        ensures ok { IfOk result (λ answer. HearsAt self.old bytes.now answer self.new) }
        ensures err { OnErr result (self.new ≡ self.old) }
        ensures memory { OnErr result (HearsNewsAt self.old bytes.now) }
    {
        let Some(entity) = &mut self.entity else {
            unreachable!()
        };
        entity.hear(alloc, bytes)
    }

    /// Gives its transmitter an SDU, where it is open and has room. After an `Err` nothing changed.
    pub(crate) fn give(&mut self, tag: Tag, sdu: Bytes) -> Result<(), Memory>
        requires some { 0 < length sdu }
        requires long { length sdu ≤ LONGEST_RLC_SDU }
        requires room { 0 < room_of self.old.entity }
        requires small { (entity : Entity) → self.old.entity ≡ Some entity
            → tx_next entity.tx < 2 ^ 62 }
        ensures ok { OnOk result (GivesAt self.old tag sdu self.new) }
        ensures err { OnErr result (self.new ≡ self.old) }
    {
        let Some(entity) = &mut self.entity else {
            unreachable!()
        };
        entity.give(tag, sdu)
    }
}

impl PortRow for PortSide {
    ghost use Rattle.node_model.specs.Places.{side_name};

    ghost port_of = { side_name };

    fn port(&self) -> PortName {
        self.name
    }
}

// Whether a port is one of a remote's own: a direct port or a PC5 port.
fn is_of(remote: Remote, port: PortName) -> bool
    ensures { result ≡ is_of remote port }
{
    match port {
        PortName::Direct(own, _) | PortName::Pc5(own, _) => remote.0 == own.0,
        PortName::Uu(_) => false,
    }
}
