// A port of the relay.
ghost use Rattle.std.specs.Prelude.{◌≡◌, ◌<◌, ◌≤◌, ◌^◌, true, Some, is_some, IfOk, OnErr};
ghost use Rattle.rlc_model.specs.Rx.{Rx, rx_next};
ghost use Rattle.rlc_model.specs.Tx.{Tx, tx_next};
ghost use Rattle.rlc_hop.specs.Side.{CompletesSdu};
ghost use Rattle.node_model.specs.Hearing.{side_refusal, entity_fault};
ghost use Rattle.node_ports.specs.Sides.{GrantsAt, HearsAt, ExpiresAt, IsToSendAt, HearsNewsAt};
ghost use Rattle.relay_core.specs.Ports.{entity_of, side_of};
ghost use Rattle.relay_core.specs.Calls.{ChangesEntity};

use crate::ParcelQueue;
use link_base::{Expired, Memory, PortName, SnSize, Timer};
use node_model::{NodeHeard, Parcel, PortGrant};
use node_ports::PortRow;
use rlc_am_rx::AmRx;
use rlc_am_tx::AmTx;
use rlc_hop::{AirFault, HopHeard, Pdu, hop_expire, hop_grant, hop_hear, side_fault};
use std::alloc::Global;

/// The ingress of a port of the relay.
#[derive(Drop)]
pub struct IngressPort {
    /// The port.
    pub name: PortName,
    /// The size of its RLC sequence numbers.
    pub size: SnSize,
    /// The epoch in which its RLC entity stands.
    pub epoch: u32,
    /// The receiving side of its RLC entity; None where the port is closed.
    pub rx: Option<AmRx>,
    /// The SDU that it heard last and that isn't in a queue yet.
    pub slot: Option<Parcel>,
}

/// The egress of a port of the relay.
#[derive(Drop)]
pub struct EgressPort {
    /// The port.
    pub name: PortName,
    /// The transmitting side of its RLC entity; None where the port is closed.
    pub tx: Option<AmTx>,
    /// The SDUs that are to be given to the transmitter.
    pub queue: ParcelQueue,
}

impl PortRow for IngressPort {
    ghost use Rattle.relay_core.specs.Ports.{ingress_name};

    ghost port_of = { ingress_name };

    fn port(&self) -> PortName {
        self.name
    }
}

/// The first reason why a port doesn't hear a PDU.
pub(crate) fn refusal(ingress: &IngressPort, egress: &EgressPort, pdu: &Pdu) -> Option<NodeHeard>
    ensures { let side = side_of ingress.now egress.now in
        result ≡ side_refusal pdu.now side (entity_fault pdu.now side.entity) }
{
    if let Some(fault) = fault(ingress, egress, pdu) {
        return Some(NodeHeard::Air(fault));
    }
    if ingress.slot.is_some() && !pdu.status {
        return Some(NodeHeard::Held);
    }
    None
}

// Why the air doesn't hand a PDU over to a port.
fn fault(ingress: &IngressPort, egress: &EgressPort, pdu: &Pdu) -> Option<AirFault>
    ensures { result ≡ entity_fault pdu.now (entity_of ingress.now egress.now) }
{
    let Some(rx) = &ingress.rx else {
        return Some(AirFault::Gone);
    };
    let Some(tx) = &egress.tx else {
        return Some(AirFault::Gone);
    };
    side_fault(pdu, ingress.epoch, tx, rx)
}

/// Sends one PDU of at most so many octets where the port is open. After an `Err` nothing changed.
pub(crate) fn grant(
    alloc: Global,
    ingress: &mut IngressPort,
    egress: &mut EgressPort,
    octets: u32,
) -> Result<PortGrant, Memory>
    ensures ok { IfOk result (λ answer. GrantsAt (side_of ingress.old egress.old) octets answer
        (side_of ingress.new egress.new)) }
    ensures changes { ChangesEntity ingress.old egress.old ingress.new egress.new }
    ensures err { OnErr result ((ingress.new ≡ ingress.old) × (egress.new ≡ egress.old)) }
    ensures memory { OnErr result (IsToSendAt (side_of ingress.old egress.old) octets) }
{
    let Some(rx) = &mut ingress.rx else {
        return Ok(PortGrant::NoPort);
    };
    let Some(tx) = &mut egress.tx else {
        return Ok(PortGrant::NoPort);
    };
    let grant = hop_grant(alloc, tx, rx, octets)?;
    Ok(PortGrant::Hop {
        epoch: ingress.epoch,
        grant,
    })
}

/// A timer of a port runs out where the port is open.
pub(crate) fn expire(
    ingress: &mut IngressPort,
    egress: &mut EgressPort,
    timer: Timer,
) -> Option<Expired>
    ensures expires { ExpiresAt (side_of ingress.old egress.old) timer result
        (side_of ingress.new egress.new) }
    ensures changes { ChangesEntity ingress.old egress.old ingress.new egress.new }
{
    let Some(rx) = &mut ingress.rx else {
        return None;
    };
    let Some(tx) = &mut egress.tx else {
        return None;
    };
    let expired = hop_expire(tx, rx, timer);
    Some(expired)
}

/// Hears octets at a port that is open. After an `Err` nothing changed.
pub(crate) fn hear(
    alloc: Global,
    ingress: &mut IngressPort,
    egress: &mut EgressPort,
    bytes: &[u8],
) -> Result<HopHeard, Memory>
    requires is_open { is_some (entity_of ingress.old egress.old) ≡ true }
    requires sent { (tx : Tx) → egress.old.tx ≡ Some tx → tx_next tx < 2 ^ 62 }
    requires heard { (rx : Rx) → ingress.old.rx ≡ Some rx → rx_next rx ≤ 2 ^ 62 }
    ensures ok { IfOk result (λ answer. HearsAt (side_of ingress.old egress.old) bytes.now answer
        (side_of ingress.new egress.new)) }
    ensures length { IfOk result CompletesSdu }
    ensures changes { ChangesEntity ingress.old egress.old ingress.new egress.new }
    ensures err { OnErr result ((ingress.new ≡ ingress.old) × (egress.new ≡ egress.old)) }
    ensures memory { OnErr result (HearsNewsAt (side_of ingress.old egress.old) bytes.now) }
{
    let Some(rx) = &mut ingress.rx else {
        unreachable!()
    };
    let Some(tx) = &mut egress.tx else {
        unreachable!()
    };
    let answer = hop_hear(alloc, tx, rx, bytes)?;
    Ok(answer)
}
