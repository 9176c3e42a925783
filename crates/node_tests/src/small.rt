// Whether the numbers of a port's entity are small.
ghost use Rattle.std.specs.Prelude.{◌≡◌, IsTrue, Some};
ghost use Rattle.rlc_model.specs.Sides.{Entity};
ghost use Rattle.node_ports.specs.Sides.{IsSmall};
ghost use Rattle.node_ports.specs.Table.{entity_in};

use link_base::PortName;
use node_ports::Ports;

const MOST: u64 = 1 << 62;

/// Whether a port is open here, and what it sends and hears can go on.
pub(crate) fn is_small(ports: &Ports, port: PortName) -> bool
    ensures { IsTrue result → (entity : Entity) → entity_in ports.now port ≡ Some entity
        → IsSmall entity }
{
    let Some(tx) = ports.tx(port) else {
        return false;
    };
    let Some(rx) = ports.rx(port) else {
        return false;
    };
    tx.next() < MOST && rx.next() < MOST
}
