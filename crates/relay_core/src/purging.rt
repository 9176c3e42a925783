// What a remote has at the relay's ports is dropped.
ghost use Rattle.std.specs.Prelude.{◌≡◌, map};
ghost use Rattle.std.specs.List.{sum_by};
ghost use Rattle.node_model.specs.Names.{is_of};
ghost use Rattle.node_model.specs.Switching.{leads_to};
ghost use Rattle.relay_core.specs.Switching.{fitting, purged_ingress, purged_egress, dropped_in_slot, dropped_in_queue};

use crate::ports::{EgressPort, IngressPort};
use link_base::{PortName, Remote};
use node_model::Parcel;

/// Closes the ingresses of the ports of a remote, and empties their slots and each whose SDU leads to the remote. It tells how
/// many SDUs that drops.
pub(crate) fn purge_ingresses(ports: &mut [IngressPort], remote: Remote) -> u64
    ensures purged { ports.new ≡ map (purged_ingress remote) ports.old }
    ensures dropped { result ≡ fitting (sum_by (dropped_in_slot remote) ports.old) }
{
    let mut dropped: u64 = 0;
    for port in ports.iter_mut() {
        dropped = dropped.saturating_add(purge_ingress(port, remote));
    }
    dropped
}

// The same of one ingress.
fn purge_ingress(port: &mut IngressPort, remote: Remote) -> u64
    ensures purged { port.new ≡ purged_ingress remote port.old }
    ensures dropped { result ≡ dropped_in_slot remote port.old }
{
    let is_its = is_of(remote, port.name);
    if is_its {
        port.rx = None;
    }
    if !is_its && !leads_to(remote, &port.slot) {
        return 0;
    }
    match port.slot.take() {
        Some(_) => 1,
        None => 0,
    }
}

/// Closes the egresses of the ports of a remote and empties their queues. It tells how many SDUs that drops, those that were given
/// to RLC and not confirmed among them.
pub(crate) fn purge_egresses(ports: &mut [EgressPort], remote: Remote) -> u64
    ensures purged { ports.new ≡ map (purged_egress remote) ports.old }
    ensures dropped { result ≡ fitting (sum_by (dropped_in_queue remote) ports.old) }
{
    let mut dropped: u64 = 0;
    for port in ports.iter_mut() {
        dropped = dropped.saturating_add(purge_egress(port, remote));
    }
    dropped
}

// The same of one egress.
fn purge_egress(port: &mut EgressPort, remote: Remote) -> u64
    ensures purged { port.new ≡ purged_egress remote port.old }
    ensures dropped { result ≡ fitting (dropped_in_queue remote port.old) }
{
    if !is_of(remote, port.name) {
        return 0;
    }
    let waiting = port.queue.clear();
    match port.tx.take() {
        Some(tx) => waiting.saturating_add(tx.unconfirmed()),
        None => waiting,
    }
}

/// Whether a port is one of the remote's own.
pub(crate) fn is_of(remote: Remote, port: PortName) -> bool
    ensures { result ≡ is_of remote port }
{
    match port {
        PortName::Direct(other, _) | PortName::Pc5(other, _) => remote.0 == other.0,
        PortName::Uu(_) => false,
    }
}

// Whether the SDU in a slot leads to the remote.
fn leads_to(remote: Remote, slot: &Option<Parcel>) -> bool
    ensures { result ≡ leads_to remote slot.now }
{
    match slot {
        Some(parcel) => remote.0 == parcel.route.key.remote.0,
        None => false,
    }
}
