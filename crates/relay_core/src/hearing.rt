// The relay hears a PDU.
ghost use Rattle.std.specs.Prelude.{◌≡◌, ◌≤◌, Some, length, slice_index_or, IfOk, OnErr};
ghost use Rattle.link_base.specs.declared.limits.TheConstants.{LONGEST_RLC_SDU};
ghost use Rattle.rlc_model.specs.Sides.{Entity};
ghost use Rattle.rlc_hop.specs.Side.{HearsNews, CompletesSdu};
ghost use Rattle.node_model.specs.State.{PortSide, entity_at};
ghost use Rattle.node_model.specs.Hearing.{HearsPdu, Follows};
ghost use Rattle.node_ports.specs.Sides.{IsThere, IsSmall};
ghost use Rattle.node_ports.specs.Table.{IsPlace};
ghost use Rattle.relay_core.specs.Ports.{IsOfRelay, relay_side};
ghost use Rattle.relay_core.specs.Relay.{IsRelayNode};
ghost use Rattle.relay_core.specs.Routing.{PassesOn};

use crate::Relay;
use crate::ports::{hear, refusal};
use crate::routing::route_of;
use link_base::{Bytes, Memory, PortName};
use node_model::{NodeHeard, Parcel};
use node_ports::row_of;
use rlc_hop::{HopHeard, Pdu};
use rlc_model::Heard;

impl Relay {
    /// Hears a PDU that came to the relay's side of its port: its RLC entity hears it, and an SDU that is completed goes into
    /// the port's slot with its route, or is discarded (TS 38.322 clause 5.2.3.2.2, TS 38.351 clauses 5.2 and 5.3). It needs
    /// TX_Next below 2^62 and RX_Next at most 2^62 of the port's entity.
    ///
    /// `NoPort` comes exactly where the relay has no such port, else `Air` exactly where the air doesn't hand the PDU over,
    /// else `Held` exactly where it is a data PDU and the slot is full; nothing changed then. An `Err` is want of memory. It
    /// comes only where the entity has something to store, and all is then as it was.
    pub fn hear(&mut self, pdu: &Pdu) -> Result<NodeHeard, Memory>
        requires { (entity : Entity) → entity_at self.old.node pdu.now.port ≡ Some entity
            → IsSmall entity }
        ensures ok { IfOk result (λ answer. HearsPdu self.old.tables self.old.node
            (relay_side pdu.now.port) pdu.now answer self.new.node) }
        ensures tables { self.new.tables ≡ self.old.tables }
        ensures relay { IsRelayNode self.new.node }
        ensures err { OnErr result (self.new ≡ self.old) }
        ensures memory { OnErr result (IsThere (λ e. HearsNews e.tx e.rx pdu.now.bytes)
            (entity_at self.old.node pdu.now.port)) }
    {
        let Some(place) = row_of(&self.ingress, pdu.port) else {
            return Ok(NodeHeard::NoPort);
        };
        if let Some(refusal) = refusal(&self.ingress[place], &self.egress[place], pdu) {
            return Ok(refusal);
        }
        let hop = hear(
            self.alloc,
            &mut self.ingress[place],
            &mut self.egress[place],
            pdu.bytes.as_slice(),
        )?;
        let answer = self.follow(place, pdu.port, hop);
        Ok(answer)
    }

    // What follows from the answer of the entity of a port, which stands at a place.
    fn follow(&mut self, place: usize, port: PortName, hop: HopHeard) -> NodeHeard
        requires of_relay { IsOfRelay port }
        requires place { IsPlace self.old.node.ports port place }
        requires length { CompletesSdu hop }
        requires relay { IsRelayNode self.old.node }
        ensures follows { (side : PortSide) → side ≡ slice_index_or self.old.node.ports place side
            → Follows self.old.tables self.old.node (relay_side port) side hop result self.new.node }
        ensures tables { self.new.tables ≡ self.old.tables }
        ensures relay { IsRelayNode self.new.node }
    {
        match hop {
            HopHeard::Amd(Heard::Complete(_, sdu)) => self.keep(place, port, sdu),
            HopHeard::Status(status) => NodeHeard::Hop(HopHeard::Status(status)),
            hop => NodeHeard::Hop(hop),
        }
    }

    // Puts an SDU that came over a port into its slot, where it leads on.
    fn keep(&mut self, place: usize, port: PortName, sdu: Bytes) -> NodeHeard
        requires of_relay { IsOfRelay port }
        requires place { IsPlace self.old.node.ports port place }
        requires long { length sdu ≤ LONGEST_RLC_SDU }
        ensures keeps { (side : PortSide) → side ≡ slice_index_or self.old.node.ports place side
            → PassesOn self.old.tables self.old.node (relay_side port) side sdu result
            self.new.node }
        ensures tables { self.new.tables ≡ self.old.tables }
        ensures relay { IsRelayNode self.new.node }
    {
        match route_of(&self.tables, &self.ids, port, sdu.as_slice()) {
            Ok(route) => {
                self.ingress[place].slot = Some(Parcel {
                    from: port,
                    route,
                    sdu,
                });
                NodeHeard::Slot(route.egress)
            }
            Err(discard) => NodeHeard::Discard(discard),
        }
    }
}
