// An end hears a PDU.
ghost use Rattle.std.specs.Prelude.{◌≡◌, None, Some, false, true, is_some, IfOk, OnErr};
ghost use Rattle.link_base.specs.declared.names.Key.{Key};
ghost use Rattle.rlc_model.specs.Sides.{Entity};
ghost use Rattle.node_model.specs.Ends.{confirm_tags};
ghost use Rattle.node_model.specs.State.{PortSide, side_at, entity_at};
ghost use Rattle.node_model.specs.Hearing.{HearsPdu, Follows, hear_refusal};
ghost use Rattle.node_ports.specs.Sides.{IsSmall};
ghost use Rattle.node_ports.specs.Table.{entity_in};
ghost use Rattle.node_end.specs.Fed.{IsKeyFed};
ghost use Rattle.node_end.specs.Feeding.{KeepsKeys};
ghost use Rattle.node_end.specs.Hearing.{StopsHearing, StopsFollowing, acked_tags};
ghost use Rattle.node_end.specs.Node.{IsSameEnd, name_of, node_of, side_of};
ghost use Rattle.node_end.specs.Ports.{HasOpen, IsEnd, is_over, side_name};

use crate::End;
use crate::node::EndNode;
use link_base::{Memory, PortName, Tag};
use node_model::NodeHeard;
use rlc_hop::{HopHeard, Pdu};
use rlc_model::{Heard, StatusHeard};

impl End {
    /// Hears a PDU that came to this end's side of its port: its RLC entity hears it, an SDU that is completed goes to the PDCP
    /// entity of the bearer to which it leads, or is discarded, and what RLC confirms on a direct port is confirmed for PDCP (TS
    /// 38.322 clause 5.2.3.2.2, TS 38.351 clauses 5.2 and 5.3, TS 38.323 clauses 5.2.2, 5.3 and 5.4.2). It needs TX_Next below
    /// 2^62 and RX_Next at most 2^62 of the port's entity.
    ///
    /// An `Err` is want of memory. It comes only where the entity has something to store, and all is then as it was; or where
    /// the entity completed an SDU that its bearer has to store, which it hasn't heard then.
    pub fn hear(&mut self, pdu: &Pdu) -> Result<NodeHeard, Memory>
        requires { (entity : Entity) → entity_at self.old.node pdu.now.port ≡ Some entity
            → IsSmall entity }
        ensures ok { IfOk result (λ answer. HearsPdu self.old.tables self.old.node
            (side_of self.old.node.name) pdu.now answer self.new.node) }
        ensures tables { self.new.tables ≡ self.old.tables }
        ensures name { self.new.node.name ≡ self.old.node.name }
        ensures err { OnErr result (StopsHearing self.old.tables self.old.node
            (side_of self.old.node.name) pdu.now self.new.node) }
    {
        if let Some(refusal) = self.node.ports.refusal(pdu) {
            return Ok(refusal);
        }
        self.to_feed = self.to_feed.with_port(pdu.port);
        let answer = self.node.hear(pdu)?;
        Ok(answer)
    }
}

impl EndNode {
    // Hears a PDU that isn't refused.
    fn hear(&mut self, pdu: &Pdu) -> Result<NodeHeard, Memory>
        requires heard { hear_refusal pdu.now (side_at (node_of self.old) pdu.now.port) ≡ None }
        requires open { is_some (entity_in self.old.ports pdu.now.port) ≡ true }
        requires small { (entity : Entity) → entity_in self.old.ports pdu.now.port ≡ Some entity
            → IsSmall entity }
        requires end { IsEnd self.old.tables (node_of self.old) }
        ensures ok { IfOk result (λ answer. HearsPdu self.old.tables (node_of self.old)
            (side_of (name_of self.old.remote)) pdu.now answer (node_of self.new)) }
        ensures err { OnErr result (StopsHearing self.old.tables (node_of self.old)
            (side_of (name_of self.old.remote)) pdu.now (node_of self.new)) }
        ensures same { IsSameEnd self.old self.new }
        ensures keys { KeepsKeys (node_of self.old) (node_of self.new) }
        ensures end { IsEnd self.old.tables (node_of self.new) }
        ensures fed { (key : Key) → is_over self.old.tables pdu.now.port key ≡ false
            → IsKeyFed self.old.tables (node_of self.old) key
            → IsKeyFed self.old.tables (node_of self.new) key }
    {
        let hop = self.ports.hear_hop(pdu.port, pdu.bytes.as_slice())?;
        let answer = self.follow(pdu.port, hop)?;
        Ok(answer)
    }

    // What follows from the answer of the entity of an open port.
    fn follow(&mut self, port: PortName, hop: HopHeard) -> Result<NodeHeard, Memory>
        requires port { HasOpen self.old port }
        requires end { IsEnd self.old.tables (node_of self.old) }
        ensures ok { (side : PortSide) → side_name side ≡ port → IfOk result
            (λ answer. Follows self.old.tables (node_of self.old)
            (side_of (name_of self.old.remote)) side hop answer (node_of self.new)) }
        ensures err { OnErr result (self.new ≡ self.old) }
        ensures memory { OnErr result (StopsFollowing self.old.tables (node_of self.old)
            (side_of (name_of self.old.remote)) port hop) }
        ensures same { IsSameEnd self.old self.new }
        ensures keys { KeepsKeys (node_of self.old) (node_of self.new) }
        ensures end { IsEnd self.old.tables (node_of self.new) }
        ensures fed { (key : Key) → is_over self.old.tables port key ≡ false
            → IsKeyFed self.old.tables (node_of self.old) key
            → IsKeyFed self.old.tables (node_of self.new) key }
    {
        match hop {
            HopHeard::Amd(Heard::Complete(_, sdu)) => match self.address(port, sdu.as_slice()) {
                Ok(addressed) => {
                    let answer = self.bearers.hear(addressed.key, addressed.pdu)?;
                    Ok(answer)
                }
                Err(discard) => Ok(NodeHeard::Discard(discard)),
            },
            HopHeard::Status(status) => {
                self.confirm(port, &status);
                Ok(NodeHeard::Hop(HopHeard::Status(status)))
            }
            hop => Ok(NodeHeard::Hop(hop)),
        }
    }

    // What RLC confirms on a direct port is confirmed for PDCP.
    fn confirm(&mut self, port: PortName, status: &StatusHeard)
        ensures confirms { node_of self.new
            ≡ confirm_tags (node_of self.old) port (acked_tags status.now) }
        ensures same { IsSameEnd self.old self.new }
    {
        if let PortName::Direct(..) = port {
            self.bearers.confirm(acked_tags(status));
        }
    }
}

// The tags of what a STATUS PDU confirmed.
fn acked_tags(status: &StatusHeard) -> &[Tag]
    ensures { result.now ≡ acked_tags status.now }
{
    match status {
        StatusHeard::Acked { tags, .. } => tags.as_slice(),
        _ => &[],
    }
}
