// Where an SDU that bears a local identity stands at the relay's ports.
ghost use Rattle.std.specs.Prelude.{◌≡◌, find, option_map};
ghost use Rattle.node_model.specs.Standing.{slot_bears};
ghost use Rattle.relay_core.specs.Ports.{ingress_name};
ghost use Rattle.relay_core.specs.Standing.{standing_place, bears, tx_bears, ingress_bears, queue_bears, uu_bears, egress_name, tx_place};

use crate::Relay;
use crate::ports::{EgressPort, IngressPort};
use link_base::{LocalId, Place, PortName};
use node_model::Parcel;
use rlc_am_tx::AmTx;

impl Relay {
    /// Where an SDU that bears a local identity stands first at the relay: in the slot of a port, in the queue of one, or
    /// unconfirmed in the transmitter of a Uu channel, each in the order of ports (TS 38.351 clause 6.3.2). None comes exactly
    /// where none does. It takes no memory.
    pub fn stands(&self, id: LocalId) -> Option<Place>
        ensures { result ≡ standing_place id self.now.node }
    {
        if let Some(port) = slot_bearing(&self.ingress, id) {
            return Some(Place::Slot(port));
        }
        if let Some(port) = queue_bearing(&self.egress, id) {
            return Some(Place::Queue(port));
        }
        uu_place(uu_bearing(&self.egress, id))
    }
}

// The first ingress whose slot holds an SDU that bears the identity.
fn slot_bearing(ports: &[IngressPort], id: LocalId) -> Option<PortName>
    ensures { result ≡ option_map ingress_name (find (ingress_bears id) ports.now) }
{
    let port = ports.iter().find(|port| slot_bears(&port.slot, id))?;
    Some(port.name)
}

// The first egress whose queue holds one.
fn queue_bearing(ports: &[EgressPort], id: LocalId) -> Option<PortName>
    ensures { result ≡ option_map egress_name (find (queue_bears id) ports.now) }
{
    let port = ports.iter().find(|port| port.queue.bears(id))?;
    Some(port.name)
}

// The first egress of a Uu channel whose transmitter has one that isn't confirmed.
fn uu_bearing(ports: &[EgressPort], id: LocalId) -> Option<PortName>
    ensures { result ≡ option_map egress_name (find (uu_bears id) ports.now) }
{
    let port = ports.iter().find(|port| uu_bears(port, id))?;
    Some(port.name)
}

// The place of the transmitter of a Uu channel.
fn uu_place(port: Option<PortName>) -> Option<Place>
    ensures { result ≡ tx_place port }
{
    match port {
        Some(PortName::Uu(chan)) => Some(Place::Uu(chan)),
        _ => None,
    }
}

// Whether the SDU in a slot bears the identity.
fn slot_bears(slot: &Option<Parcel>, id: LocalId) -> bool
    ensures { result ≡ slot_bears id slot.now }
{
    match slot {
        Some(parcel) => bears(parcel, id),
        None => false,
    }
}

/// Whether an SDU bears the identity: its second octet.
pub(crate) fn bears(parcel: &Parcel, id: LocalId) -> bool
    ensures { result ≡ bears id parcel.now }
{
    let ue = parcel.sdu.as_slice().get(1).copied().unwrap_or(0);
    id.0 == ue
}

// Whether the port is a Uu channel, and an SDU in its transmitter that isn't confirmed bears the identity.
fn uu_bears(port: &EgressPort, id: LocalId) -> bool
    ensures { result ≡ uu_bears id port.now }
{
    matches!(port.name, PortName::Uu(_)) && tx_bears(&port.tx, id)
}

// Whether an SDU in a transmitter that isn't confirmed bears the identity.
fn tx_bears(tx: &Option<AmTx>, id: LocalId) -> bool
    ensures { result ≡ tx_bears id tx.now }
{
    match tx {
        Some(tx) => tx.bears(id),
        None => false,
    }
}
