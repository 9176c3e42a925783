// The relay's ports before anything happened.
ghost use Rattle.std.specs.Prelude.{◌≡◌, ◌++◌, map, IfOk, OnOk};
ghost use Rattle.relay_core.specs.Opening.{AreInOrder, new_ports, new_pc5s, new_pc5, new_uu, new_ingress, new_egress};

use crate::ports::{EgressPort, IngressPort};
use crate::queue::ParcelQueue;
use bearer_map::{Pc5Row, RemoteRow, Settings, Tables, UuRow};
use link_base::{Goal, Memory, PortName, SnSize};
use rlc_am_rx::AmRx;
use rlc_am_tx::AmTx;
use std::alloc::Global;

/// A port that the tables give the relay.
#[derive(Clone, Copy)]
pub(crate) struct NewPort {
    name: PortName,
    size: SnSize,
    // Whether it is on the path with which its remote begins. A Uu port always is.
    is_open: bool,
}

/// The ports that the tables give the relay, in their order.
pub(crate) fn new_ports(alloc: Global, tables: &Tables) -> Result<Vec<NewPort>, Memory>
    ensures ports { IfOk result (λ ports. ports.items ≡ new_ports tables.now) }
    ensures order { OnOk result (AreInOrder tables.now) }
{
    let pc5s = tables.pc5s();
    let mut ports = Vec::new(alloc);
    for row in tables.remotes() {
        add_pc5s(&mut ports, *row, pc5s)?;
    }
    add_uus(&mut ports, tables.uus())?;
    Ok(ports)
}

// Adds the PC5 ports of a remote.
fn add_pc5s(ports: &mut Vec<NewPort>, row: RemoteRow, pc5s: &[Pc5Row]) -> Result<(), Memory>
    ensures { OnOk result (ports.new.items ≡ ports.old.items ++ new_pc5s pc5s.now row) }
{
    for pc5 in pc5s {
        if row.remote.0 == pc5.remote.0 {
            ports.push(new_pc5(row.goal, *pc5))?;
        }
    }
    Ok(())
}

// Adds the Uu ports.
fn add_uus(ports: &mut Vec<NewPort>, uus: &[UuRow]) -> Result<(), Memory>
    ensures { OnOk result (ports.new.items ≡ ports.old.items ++ map new_uu uus.now) }
{
    for uu in uus {
        ports.push(NewPort {
            name: PortName::Uu(uu.chan),
            size: uu.size,
            is_open: true,
        })?;
    }
    Ok(())
}

// A PC5 port of a remote with this path.
fn new_pc5(goal: Goal, row: Pc5Row) -> NewPort
    ensures { result ≡ new_pc5 goal row }
{
    NewPort {
        name: PortName::Pc5(row.remote, row.chan),
        size: row.size,
        is_open: matches!(goal, Goal::Relay(_)),
    }
}

/// The ingresses of ports.
pub(crate) fn new_ingresses(alloc: Global, ports: &[NewPort]) -> Result<Vec<IngressPort>, Memory>
    ensures { IfOk result (λ ingresses. ingresses.items ≡ map new_ingress ports.now) }
{
    let mut ingresses = Vec::new(alloc);
    for port in ports {
        ingresses.push(new_ingress(alloc, *port)?)?;
    }
    Ok(ingresses)
}

// The ingress of a port.
fn new_ingress(alloc: Global, port: NewPort) -> Result<IngressPort, Memory>
    ensures { IfOk result (λ ingress. ingress ≡ new_ingress port) }
{
    let rx = if port.is_open {
        Some(AmRx::new(alloc, port.size)?)
    } else {
        None
    };
    Ok(IngressPort {
        name: port.name,
        size: port.size,
        epoch: 0,
        rx,
        slot: None,
    })
}

/// The egresses of ports, each with room for as many SDUs as a queue may hold.
pub(crate) fn new_egresses(
    alloc: Global,
    settings: Settings,
    ports: &[NewPort],
) -> Result<Vec<EgressPort>, Memory>
    ensures { IfOk result (λ egresses. egresses.items ≡ map (new_egress settings) ports.now) }
{
    let mut egresses = Vec::new(alloc);
    for port in ports {
        egresses.push(new_egress(alloc, settings, *port)?)?;
    }
    Ok(egresses)
}

// The egress of a port.
fn new_egress(alloc: Global, settings: Settings, port: NewPort) -> Result<EgressPort, Memory>
    ensures { IfOk result (λ egress. egress ≡ new_egress settings port) }
{
    let tx = if port.is_open {
        Some(AmTx::new(
            alloc,
            port.size,
            settings.poll_pdu,
            settings.poll_byte,
            settings.max_retx,
        )?)
    } else {
        None
    };
    Ok(EgressPort {
        name: port.name,
        tx,
        queue: ParcelQueue::new(alloc, settings.queue)?,
    })
}
