// To which bearer of an end an SDU leads.
ghost use Rattle.std.specs.Prelude.{◌≡◌, true, map, IfOk};
ghost use Rattle.rlc_model.specs.Sides.{flip, way_from};
ghost use Rattle.node_model.specs.Names.{key_of};
ghost use Rattle.node_model.specs.Routing.{Leads};
ghost use Rattle.node_model.specs.Feeding.{in_key};
ghost use Rattle.node_end.specs.Node.{name_of, side_of, node_of};
ghost use Rattle.node_end.specs.Ports.{HasOpen, IsEnd, is_among, is_over};
ghost use Rattle.node_end.specs.Routing.{IsChannel, RoutesHere, target_of};

use crate::node::EndNode;
use bearer_map::{RouteFault, gnb_route, remote_route};
use link_base::{Discard, Drb, Key, PortName, Remote, Side, Way};
use node_ports::{route_discard, srap_discard};
use srap_header::read;

/// A PDCP PDU, and the key that is received here for which it comes.
#[derive(Clone, Copy)]
pub(crate) struct Addressed<'a> {
    pub(crate) key: Key,
    pub(crate) pdu: &'a [u8],
}

impl EndNode {
    /// Where an SDU leads that came over an open port: over a direct one it is a PDCP PDU of the port's bearer, over a channel
    /// its SRAP header tells (TS 38.351 clauses 5.2 and 5.3). An `Err` tells why it goes nowhere. It takes no memory.
    pub(crate) fn address<'a>(
        &self,
        port: PortName,
        sdu: &'a [u8],
    ) -> Result<Addressed<'a>, Discard>
        requires port { HasOpen self.now port }
        requires end { IsEnd self.now.tables (node_of self.now) }
        ensures leads { Leads self.now.tables (node_of self.now) (side_of (name_of self.now.remote))
            port sdu.now (target_of result) }
        ensures received { IfOk result (λ addressed.
            is_among (map in_key self.now.bearers.incoming) addressed.key ≡ true) }
        ensures over { IfOk result (λ addressed. is_over self.now.tables port addressed.key ≡ true) }
    {
        if let PortName::Direct(remote, drb) = port {
            let key = self.received(remote, drb);
            return Ok(Addressed { key, pdu: sdu });
        }
        let header = match read(sdu) {
            Ok(header) => header,
            Err(fault) => return Err(srap_discard(fault)),
        };
        match self.route(port, header.ue, header.bearer) {
            Ok(key) => Ok(Addressed {
                key,
                pdu: header.body,
            }),
            Err(fault) => Err(route_discard(fault)),
        }
    }

    // The key of a bearer that is received here.
    fn received(&self, remote: Remote, drb: Drb) -> Key
        ensures { result ≡ key_of remote drb (flip (way_from (side_of (name_of self.now.remote)))) }
    {
        let way = match self.side() {
            Side::Low => Way::Dl,
            Side::High => Way::Ul,
        };
        Key { remote, drb, way }
    }

    // The key to which a SRAP header with these fields leads from a channel.
    fn route(&self, port: PortName, ue: u8, bearer: u8) -> Result<Key, RouteFault>
        requires port { HasOpen self.now port }
        requires channel { IsChannel port }
        ensures { RoutesHere self.now.tables.maps self.now.ids port ue bearer result }
    {
        match port {
            PortName::Direct(..) => unreachable!(),
            PortName::Pc5(remote, chan) => {
                let Some(own) = self.id_of(remote) else {
                    unreachable!()
                };
                remote_route(&self.tables, own, (remote, chan), ue, bearer)
            }
            PortName::Uu(chan) => gnb_route(&self.tables, &self.ids, chan, ue, bearer),
        }
    }
}
