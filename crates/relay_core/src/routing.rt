// Where the relay sends an SDU on.
ghost use Rattle.std.specs.Prelude.{◌≡◌};
ghost use Rattle.node_model.specs.State.{Node};
ghost use Rattle.node_model.specs.Routing.{Leads};
ghost use Rattle.relay_core.specs.Ports.{IsOfRelay, relay_side};
ghost use Rattle.relay_core.specs.Routing.{leads_to, GoesOnward};

use bearer_map::{Ids, Route, RouteFault, Tables, down_route, up_route};
use link_base::{Discard, PortName};
use node_ports::{route_discard, srap_discard};
use srap_header::read;

/// Where an SDU goes on that came over a port of the relay, by its SRAP header, or why it goes nowhere (TS 38.351 clauses
/// 5.2 and 5.3). It takes no memory.
pub(crate) fn route_of(
    tables: &Tables,
    ids: &Ids,
    from: PortName,
    sdu: &[u8],
) -> Result<Route, Discard>
    requires { IsOfRelay from }
    ensures { (n : Node) → n.attached ≡ ids.now
        → Leads tables.now n (relay_side from) from sdu.now (leads_to result) }
{
    let header = match read(sdu) {
        Ok(header) => header,
        Err(fault) => return Err(srap_discard(fault)),
    };
    match onward(tables, ids, from, header.ue, header.bearer) {
        Ok(route) => Ok(route),
        Err(fault) => Err(route_discard(fault)),
    }
}

// Where an SDU with these fields in its header goes on.
fn onward(
    tables: &Tables,
    ids: &Ids,
    from: PortName,
    ue: u8,
    bearer: u8,
) -> Result<Route, RouteFault>
    requires { IsOfRelay from }
    ensures { GoesOnward tables.now.maps ids.now from ue bearer result }
{
    match from {
        PortName::Direct(..) => unreachable!(),
        PortName::Pc5(remote, chan) => up_route(tables, ids, (remote, chan), ue, bearer),
        PortName::Uu(chan) => down_route(tables, ids, chan, ue, bearer),
    }
}
