// The order of ports, and the place of a port in it.
ghost use Rattle.std.specs.Prelude.{◌≡◌, ℕ, IfSome, IfNone, None};
ghost use Rattle.link_base.specs.declared.names.PortName.{PortName};
ghost use Rattle.node_model.specs.Rows.{AreOrdered};
ghost use Rattle.node_ports.specs.Order.{kind_rank, remote_rank, number_rank, is_before, side_before, by_port, IsRowOf};
ghost use Rattle.node_ports.specs.Table.{IsPlace, side_in};

use crate::side::PortSide;
use link_base::PortName;
use node_model::one_row_has_a_name;

/// A row of a table of ports.
pub trait PortRow {
    /// The port whose row it is.
    ghost port_of: { Self → PortName };

    /// The port whose row it is.
    fn port(&self) -> PortName
        ensures { result ≡ port_of self.now };
}

/// The place of the row of a port among rows in the order of ports, or None exactly where the port has no row. It is
/// found in time that grows with the logarithm of their number.
pub fn row_of<T: PortRow>(rows: &[T], port: PortName) -> Option<usize>
    requires { AreOrdered (by_port T.port_of) rows.now }
    ensures found { IfSome result (IsRowOf T.port_of rows.now port) }
    ensures none { IfNone result ((place : ℕ) → IsRowOf T.port_of rows.now port place → ⊥) }
{
    let place = rows.partition_point(|row| is_before(row.port(), port));
    if place < rows.len() && rows[place].port() == port {
        Some(place)
    } else {
        None
    }
}

/// The place of the side of a port among sides in order.
pub(crate) fn place_of(sides: &[PortSide], port: PortName) -> Option<usize>
    requires { AreOrdered side_before sides.now }
    ensures found { IfSome result (IsPlace sides.now port) }
    ensures none { IfNone result (side_in sides.now port ≡ None) }
{
    // So to find and to replace a side by its name is to read and to write at its place.
    one_row_has_a_name();
    let Some(place) = row_of(sides, port) else {
        return None;
    };
    Some(place)
}

// Whether one port stands before another: direct ports before PC5 ports before Uu ports, by remote, then by bearer
// or channel.
fn is_before(a: PortName, b: PortName) -> bool
    ensures { result ≡ is_before a b }
{
    rank(a) < rank(b)
}

// What ports are ordered by.
fn rank(port: PortName) -> (u8, u16, u8)
    ensures { result ≡ (kind_rank port, remote_rank port, number_rank port) }
{
    match port {
        PortName::Direct(remote, drb) => (0, remote.0, drb.0),
        PortName::Pc5(remote, chan) => (1, remote.0, chan.0),
        PortName::Uu(chan) => (2, 0, chan.0),
    }
}
