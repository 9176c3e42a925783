// Names of keys, sides and ways, and the order of bearers.
ghost use Rattle.std.specs.Prelude.{◌≡◌, ◌==◌, ◌&&◌};
ghost use Rattle.bearer_map.specs.Contents.{pair};
ghost use Rattle.rlc_model.specs.Sides.{sender_of, hearer_of, way_from};
ghost use Rattle.node_model.specs.Names.{AtRelay, is_remote, is_key, is_node, is_way, key_of, owner};

use bearer_map::BearerRow;
use link_base::{Drb, Key, PortName, Remote, Side, Way};

/// Whether a row is that of a bearer.
pub(crate) fn is_row(row: &BearerRow, remote: Remote, drb: Drb) -> bool
    ensures { result ≡ (is_remote remote row.now.remote && (drb.0 == row.now.drb.0)) }
{
    remote.0 == row.remote.0 && drb.0 == row.drb.0
}

/// Where a bearer's row stands among all.
pub(crate) fn bearer_rank(remote: Remote, drb: Drb) -> u32
    ensures { result ≡ pair remote.0 drb.0 }
{
    u32::from(remote.0) * 256 + u32::from(drb.0)
}

/// Whether two keys are one.
pub(crate) fn is_key(a: Key, b: Key) -> bool
    ensures { result ≡ is_key a b }
{
    a.remote.0 == b.remote.0 && a.drb.0 == b.drb.0 && is_way(a.way, b.way)
}

/// Whether two ways are one.
pub(crate) fn is_way(a: Way, b: Way) -> bool
    ensures { result ≡ is_way a b }
{
    matches!((a, b), (Way::Ul, Way::Ul) | (Way::Dl, Way::Dl))
}

/// A bearer in one way.
pub(crate) fn key_of(remote: Remote, drb: Drb, way: Way) -> Key
    ensures { result ≡ key_of remote drb way }
{
    Key { remote, drb, way }
}

/// Whether the relay has this side of a port: the high one of PC5 ports, and the low one of Uu ports.
pub(crate) fn is_at_relay(side: Side, port: PortName) -> bool
    ensures { result ≡ is_node AtRelay (owner side port) }
{
    matches!(
        (side, port),
        (Side::High, PortName::Pc5(..)) | (Side::Low, PortName::Uu(_))
    )
}

/// The side that hears what goes in a way.
pub(crate) fn hearer_of(way: Way) -> Side
    ensures { result ≡ hearer_of way }
{
    match way {
        Way::Ul => Side::High,
        Way::Dl => Side::Low,
    }
}

/// The side that sends in a way.
pub(crate) fn sender_of(way: Way) -> Side
    ensures { result ≡ sender_of way }
{
    match way {
        Way::Ul => Side::Low,
        Way::Dl => Side::High,
    }
}

/// The way in which a side sends.
pub(crate) fn way_from(side: Side) -> Way
    ensures { result ≡ way_from side }
{
    match side {
        Side::Low => Way::Ul,
        Side::High => Way::Dl,
    }
}
