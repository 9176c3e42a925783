// The relay.
ghost use Rattle.std.specs.Prelude.{◌≡◌, ◌<◌, ◌^◌, false, None, Some, IfOk, OnErr, IfSome, IfNone, option_map};
ghost use Rattle.std.specs.List.{list_all};
ghost use Rattle.std.specs.Option.{option_copied};
ghost use Rattle.link_base.specs.declared.names.Remote.{Remote};
ghost use Rattle.bearer_map.specs.Ids.{AreIds, IsAttached};
ghost use Rattle.rlc_model.specs.Tx.{tx_next};
ghost use Rattle.rlc_model.specs.Sides.{Entity};
ghost use Rattle.rlc_hop.specs.Side.{IsToSend};
ghost use Rattle.node_model.specs.State.{side_at, entity_at};
ghost use Rattle.node_model.specs.Opening.{new_relay, all_attached};
ghost use Rattle.node_model.specs.Sides.{GrantsPort, ExpiresPort};
ghost use Rattle.node_model.specs.Relaying.{PushesPort, PullsPort, pull_refusal};
ghost use Rattle.node_ports.specs.Sides.{IsThere, is_sent};
ghost use Rattle.node_ports.specs.Table.{tx_of, rx_of};
ghost use Rattle.relay_core.specs.Opening.{HaveChannels};
ghost use Rattle.relay_core.specs.Relay.{IsRelayNode, queue_capacity, is_empty_node, has_empty_slot, has_empty_queue};

use crate::opening::{new_egresses, new_ingresses, new_ports};
use crate::ports::{EgressPort, IngressPort, expire, grant};
use crate::pulling::pull;
use bearer_map::{Ids, Tables};
use link_base::{Expired, LocalId, Memory, PortName, Remote, Timer};
use node_model::{PortGrant, PullReply, PushReply};
use node_ports::{attached, row_of};
use rlc_am_rx::AmRx;
use rlc_am_tx::AmTx;
use std::alloc::Global;
use std::marker::Model;

/// The relay. Each of its PC5 and Uu ports has an ingress with a slot for one SDU that was heard, and an egress with a
/// queue of SDUs that are to be sent. An SDU moves from the slot into the queue of the port over which it goes on, and from
/// there into that port's transmitter, and its bytes are never copied.
///
/// A port is found in time that grows with the logarithm of their number. Contracts see the relay as a node with its tables.
#[derive(Drop)]
pub struct Relay {
    pub(crate) alloc: Global,
    pub(crate) tables: Tables,
    pub(crate) ids: Ids,
    // In the order of ports. A port stands in both lists at the same place.
    pub(crate) ingress: Vec<IngressPort>,
    pub(crate) egress: Vec<EgressPort>,
}

impl Model for Relay {
    ghost use Rattle.node_model.specs.State.{TabledNode};
    ghost use Rattle.relay_core.specs.Relay.{relay_of, IsRelay};

    ghost Value = { TabledNode };

    ghost view = { relay_of };

    ghost invariant = { IsRelay };
}

impl Relay {
    /// A relay at which nothing has happened, which keeps a copy of the tables. Its Uu ports are open, and the PC5 ports of
    /// remotes that begin on the relay; each queue has its room. The channels to which bearers are mapped are to be declared,
    /// and no two remotes may begin with one local identity.
    pub fn new(alloc: Global, tables: &Tables) -> Result<Self, Memory>
        requires channels { HaveChannels tables.now }
        requires ids { AreIds (all_attached tables.now) }
        ensures { IfOk result
            (λ relay. relay ≡ record { tables = tables.now; node = new_relay tables.now }) }
    {
        let ports = new_ports(alloc, tables)?;
        let ingress = new_ingresses(alloc, &ports)?;
        let egress = new_egresses(alloc, tables.settings(), &ports)?;
        let ids = attached(alloc, tables)?;
        let tables = tables.copy(alloc)?;
        Ok(Relay {
            alloc,
            tables,
            ids,
            ingress,
            egress,
        })
    }

    /// Sends one PDU of at most so many octets over a port (TS 38.322 clauses 5.2.3.1.1 and 5.3.4). `NoPort` comes exactly
    /// where the port isn't open here. Where no PDU is sent all is as it was.
    ///
    /// An `Err` is want of memory. It comes only where the port is open, a PDU is to be sent over it, and so many octets are
    /// enough. All is then as it was.
    pub fn grant(&mut self, port: PortName, octets: u32) -> Result<PortGrant, Memory>
        ensures ok { IfOk result
            (λ answer. GrantsPort self.old.node port octets answer self.new.node) }
        ensures still { IfOk result (λ answer. is_sent answer ≡ false → self.new ≡ self.old) }
        ensures tables { self.new.tables ≡ self.old.tables }
        ensures relay { IsRelayNode self.new.node }
        ensures err { OnErr result (self.new ≡ self.old) }
        ensures memory { OnErr result
            (IsThere (λ e. IsToSend e.tx e.rx octets) (entity_at self.old.node port)) }
    {
        let Some(place) = row_of(&self.ingress, port) else {
            return Ok(PortGrant::NoPort);
        };
        let answer = grant(
            self.alloc,
            &mut self.ingress[place],
            &mut self.egress[place],
            octets,
        )?;
        Ok(answer)
    }

    /// A timer of a port runs out (TS 38.322 clause 7.3). None comes exactly where the port isn't open here. It takes no
    /// memory.
    pub fn expire(&mut self, port: PortName, timer: Timer) -> Option<Expired>
        ensures expires { ExpiresPort self.old.node port timer result self.new.node }
        ensures tables { self.new.tables ≡ self.old.tables }
        ensures relay { IsRelayNode self.new.node }
    {
        let Some(place) = row_of(&self.ingress, port) else {
            return None;
        };
        let expired = expire(&mut self.ingress[place], &mut self.egress[place], timer);
        expired
    }

    /// Moves the SDU in the slot of a port to the back of the queue of the port over which it goes on (TS 38.351 clauses 5.2
    /// and 5.3). It takes no memory.
    ///
    /// `NoPort` comes exactly where the port isn't open here, else `Nothing` exactly where its slot is empty, else
    /// `QueueFull` exactly where the queue holds its capacity. All is then as it was.
    pub fn push(&mut self, port: PortName) -> PushReply
        ensures pushes { PushesPort (queue_capacity self.old.tables) self.old.node port result
            self.new.node }
        ensures tables { self.new.tables ≡ self.old.tables }
        ensures relay { IsRelayNode self.new.node }
    {
        let Some(place) = row_of(&self.ingress, port) else {
            return PushReply::NoPort;
        };
        if self.ingress[place].rx.is_none() {
            return PushReply::NoPort;
        }
        let Some(parcel) = &self.ingress[place].slot else {
            return PushReply::Nothing;
        };
        let egress = parcel.route.egress;
        let Some(to) = row_of(&self.ingress, egress) else {
            unreachable!()
        };
        if self.egress[to].queue.is_full() {
            return PushReply::QueueFull;
        }
        let Some(parcel) = self.ingress[place].slot.take() else {
            unreachable!()
        };
        let Ok(()) = self.egress[to].queue.push(parcel) else {
            unreachable!()
        };
        PushReply::Done(egress)
    }

    /// Gives the SDU at the front of the queue of a port to its transmitter, which keeps it under the number that is answered
    /// (TS 38.322 clause 5.2.3.1.1). It needs TX_Next below 2^62 of that transmitter.
    ///
    /// `NoPort` comes exactly where the port isn't open here, else `Empty` exactly where its queue is empty, else `Stalled`
    /// exactly where the transmitting window is full. All is then as it was. An `Err` is want of memory. It comes only where
    /// none of these holds, and all is then as it was.
    pub fn pull(&mut self, port: PortName) -> Result<PullReply, Memory>
        requires { (entity : Entity) → entity_at self.old.node port ≡ Some entity
            → tx_next entity.tx < 2 ^ 62 }
        ensures ok { IfOk result (λ reply. PullsPort self.old.node port reply self.new.node) }
        ensures tables { self.new.tables ≡ self.old.tables }
        ensures relay { IsRelayNode self.new.node }
        ensures err { OnErr result (self.new ≡ self.old) }
        ensures memory { OnErr result (pull_refusal (side_at self.old.node port) ≡ None) }
    {
        let Some(place) = row_of(&self.ingress, port) else {
            return Ok(PullReply::NoPort);
        };
        let reply = pull(&mut self.egress[place])?;
        Ok(reply)
    }

    /// The transmitter of a port, or None exactly where the port isn't open here.
    pub fn tx(&self, port: PortName) -> Option<&AmTx>
        ensures { option_copied result ≡ option_map tx_of (entity_at self.now.node port) }
    {
        let Some(place) = row_of(&self.ingress, port) else {
            return None;
        };
        self.egress[place].tx.as_ref()
    }

    /// The receiver of a port, or None exactly where the port isn't open here.
    pub fn rx(&self, port: PortName) -> Option<&AmRx>
        ensures { option_copied result ≡ option_map rx_of (entity_at self.now.node port) }
    {
        let Some(place) = row_of(&self.ingress, port) else {
            return None;
        };
        self.ingress[place].rx.as_ref()
    }

    /// The remote to which the relay attaches a local identity, or None where it attaches it to none.
    pub fn remote_of(&self, id: LocalId) -> Option<Remote>
        ensures found { IfSome result (λ remote. IsAttached self.now.node.attached remote id.0) }
        ensures none { IfNone result
            ((remote : Remote) → IsAttached self.now.node.attached remote id.0 → ⊥) }
        ensures each_once { AreIds self.now.node.attached }
    {
        self.ids.remote_of(id)
    }

    /// Whether all slots and queues are empty.
    pub fn is_empty(&self) -> bool
        ensures { result ≡ is_empty_node self.now.node }
    {
        if !slots_are_empty(&self.ingress) {
            return false;
        }
        queues_are_empty(&self.egress)
    }
}

// Whether the slots of ports are empty.
fn slots_are_empty(ports: &[IngressPort]) -> bool
    ensures { result ≡ list_all has_empty_slot ports.now }
{
    ports.iter().all(|port| port.slot.is_none())
}

// Whether the queues of ports are empty.
fn queues_are_empty(ports: &[EgressPort]) -> bool
    ensures { result ≡ list_all has_empty_queue ports.now }
{
    ports.iter().all(|port| port.queue.is_empty())
}
