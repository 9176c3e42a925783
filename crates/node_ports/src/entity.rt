// The RLC entity of a side of a port.
ghost use Rattle.std.specs.Prelude.{◌≡◌, ◌<◌, ◌≤◌, ◌^◌, Some, length, IfOk, OnOk, OnErr};
ghost use Rattle.link_base.specs.declared.limits.TheConstants.{LONGEST_RLC_SDU};
ghost use Rattle.rlc_model.specs.Tx.{tx_next, room};
ghost use Rattle.rlc_model.specs.Rx.{rx_next};
ghost use Rattle.rlc_model.specs.Hop.{side_fault};
ghost use Rattle.rlc_hop.specs.Side.{IsToSend, HearsNews};
ghost use Rattle.node_model.specs.Opening.{new_entity};
ghost use Rattle.node_model.specs.Standing.{entity_bears};

use bearer_map::Settings;
use link_base::{Bytes, Expired, LocalId, Memory, SnSize, Tag, Timer};
use rlc_am_rx::AmRx;
use rlc_am_tx::AmTx;
use rlc_hop::{AirFault, HopGrant, HopHeard, Pdu, hop_expire, hop_grant, hop_hear, side_fault};
use std::alloc::Global;
use std::marker::Model;

/// An AM RLC entity, a transmitting and a receiving side (TS 38.322 clause 4.2.1.3), and the epoch in which it
/// stands.
#[derive(Drop)]
pub(crate) struct RlcEntity {
    tx: AmTx,
    rx: AmRx,
    epoch: u32,
}

impl Model for RlcEntity {
    ghost use Rattle.rlc_model.specs.Sides.{Entity};

    ghost Value = { Entity };

    ghost view = { λ e. record { tx = e.tx; rx = e.rx; epoch = e.epoch } };
}

impl RlcEntity {
    ghost use Rattle.node_ports.specs.Entities.{GrantsEntity, HearsEntity, ExpiresEntity, GivesEntity};

    /// An entity that has sent and heard nothing (TS 38.322 clause 5.1.1).
    pub(crate) fn new(
        alloc: Global,
        settings: Settings,
        size: SnSize,
        epoch: u32,
    ) -> Result<Self, Memory>
        ensures { IfOk result (λ entity. entity ≡ new_entity settings size epoch) }
    {
        Ok(RlcEntity {
            tx: AmTx::new(
                alloc,
                size,
                settings.poll_pdu,
                settings.poll_byte,
                settings.max_retx,
            )?,
            rx: AmRx::new(alloc, size)?,
            epoch,
        })
    }

    pub(crate) fn tx(&self) -> &AmTx
        ensures { result.now ≡ self.now.tx }
    {
        &self.tx
    }

    pub(crate) fn rx(&self) -> &AmRx
        ensures { result.now ≡ self.now.rx }
    {
        &self.rx
    }

    pub(crate) fn epoch(&self) -> u32
        ensures { result ≡ self.now.epoch }
    {
        self.epoch
    }

    /// Whether an SDU that isn't confirmed bears this local identity.
    pub(crate) fn bears(&self, id: LocalId) -> bool
        ensures { result ≡ entity_bears id (Some self.now) }
    {
        self.tx.bears(id)
    }

    /// Why the air doesn't hand a PDU over to it.
    pub(crate) fn fault(&self, pdu: &Pdu) -> Option<AirFault>
        ensures { result ≡ side_fault pdu.now (Some self.now.epoch) self.now.tx self.now.rx }
    {
        side_fault(pdu, self.epoch, &self.tx, &self.rx)
    }

    /// Sends one PDU of at most so many octets, as `hop_grant`.
    pub(crate) fn grant(&mut self, alloc: Global, octets: u32) -> Result<HopGrant, Memory>
        ensures ok { IfOk result (λ answer. GrantsEntity self.old octets answer self.new) }
        ensures err { OnErr result (self.new ≡ self.old) }
        ensures memory { OnErr result (IsToSend self.old.tx self.old.rx octets) }
    {
        hop_grant(alloc, &mut self.tx, &mut self.rx, octets)
    }

    /// Hears octets, as `hop_hear`.
    pub(crate) fn hear(&mut self, alloc: Global, bytes: &[u8]) -> Result<HopHeard, Memory>
        requires sent { tx_next self.old.tx < 2 ^ 62 }
        requires heard { rx_next self.old.rx ≤ 2 ^ 62 }
        ensures ok { IfOk result (λ answer. HearsEntity self.old bytes.now answer self.new) }
        ensures err { OnErr result (self.new ≡ self.old) }
        ensures memory { OnErr result (HearsNews self.old.tx self.old.rx bytes.now) }
    {
        hop_hear(alloc, &mut self.tx, &mut self.rx, bytes)
    }

    /// A timer runs out (TS 38.322 clause 7.3).
    pub(crate) fn expire(&mut self, timer: Timer) -> Expired
        ensures { ExpiresEntity self.old timer result self.new }
    {
        hop_expire(&mut self.tx, &mut self.rx, timer)
    }

    /// Gives its transmitter an SDU of 1 to 9,005 bytes. After an `Err` nothing changed.
    pub(crate) fn give(&mut self, tag: Tag, sdu: Bytes) -> Result<(), Memory>
        requires some { 0 < length sdu }
        requires long { length sdu ≤ LONGEST_RLC_SDU }
        requires room { 0 < room self.old.tx }
        requires small { tx_next self.old.tx < 2 ^ 62 }
        ensures ok { OnOk result (GivesEntity self.old tag sdu self.new) }
        ensures err { OnErr result (self.new ≡ self.old) }
    {
        match self.tx.give(tag, sdu) {
            Ok(_) => Ok(()),
            Err(_) => Err(Memory),
        }
    }
}
