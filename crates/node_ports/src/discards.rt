// Why an SDU that came over a channel of the relay path goes nowhere.
ghost use Rattle.std.specs.Prelude.{◌≡◌};
ghost use Rattle.node_model.specs.Routing.{srap_discard, route_discard};

use bearer_map::RouteFault;
use link_base::Discard;
use srap_header::SrapFault;

/// Why an SDU that is no SRAP PDU is discarded.
pub fn srap_discard(fault: SrapFault) -> Discard
    ensures { result ≡ srap_discard fault }
{
    match fault {
        SrapFault::Short => Discard::Short,
        SrapFault::Control => Discard::Control,
        SrapFault::NoBody => Discard::NoBody,
    }
}

/// Why an SDU without a route is discarded.
pub fn route_discard(fault: RouteFault) -> Discard
    ensures { result ≡ route_discard fault }
{
    match fault {
        RouteFault::UnknownUe => Discard::UnknownUe,
        RouteFault::ForeignUe => Discard::ForeignUe,
        RouteFault::UnknownBearer => Discard::UnknownBearer,
    }
}
