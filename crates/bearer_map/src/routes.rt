// What a route answers.
use link_base::{Key, PortName};

/// Where the relay sends a PDU on, and whose it is.
#[derive(Clone, Copy, Debug, PartialEq, Eq)]
pub struct Route {
    /// The port on the next hop.
    pub egress: PortName,
    /// The bearer, in the PDU's way.
    pub key: Key,
}

/// Why a PDU goes nowhere.
#[derive(Clone, Copy, Debug, PartialEq, Eq)]
pub enum RouteFault {
    /// No remote is attached with the UE ID.
    UnknownUe,
    /// The UE ID is that of another remote than the one on whose link the PDU came.
    ForeignUe,
    /// The remote has no such bearer over the channel on which the PDU came.
    UnknownBearer,
}
