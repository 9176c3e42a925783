// The ports of a remote that enters the relay are opened.
ghost use Rattle.std.specs.Prelude.{◌≡◌, length, map, IfOk};
ghost use Rattle.relay_core.specs.Switching.{each_given, entering_rx, entering_tx, opened_ingress, opened_egress};

use crate::ports::{EgressPort, IngressPort};
use crate::purging::is_of;
use bearer_map::Settings;
use link_base::{Memory, Remote};
use rlc_am_rx::AmRx;
use rlc_am_tx::AmTx;
use std::alloc::Global;

/// The receivers with which the ports of a remote begin, each at the place of its port.
pub(crate) fn entering_receivers(
    alloc: Global,
    ports: &[IngressPort],
    remote: Remote,
) -> Result<Vec<Option<AmRx>>, Memory>
    ensures { IfOk result (λ receivers. receivers.items ≡ map (entering_rx remote) ports.now) }
{
    let mut receivers = Vec::with_capacity(alloc, ports.len())?;
    for port in ports {
        receivers.push(entering_receiver(alloc, port, remote)?)?;
    }
    Ok(receivers)
}

// The receiver with which a port begins, where it is one of the remote's.
fn entering_receiver(
    alloc: Global,
    port: &IngressPort,
    remote: Remote,
) -> Result<Option<AmRx>, Memory>
    ensures { IfOk result (λ receiver. receiver ≡ entering_rx remote port.now) }
{
    if !is_of(remote, port.name) {
        return Ok(None);
    }
    let receiver = AmRx::new(alloc, port.size)?;
    Ok(Some(receiver))
}

/// The transmitters with which the ports of a remote begin, each at the place of its port.
pub(crate) fn entering_transmitters(
    alloc: Global,
    settings: Settings,
    ports: &[IngressPort],
    remote: Remote,
) -> Result<Vec<Option<AmTx>>, Memory>
    ensures { IfOk result (λ transmitters. transmitters.items
        ≡ map (entering_tx settings remote) ports.now) }
{
    let mut transmitters = Vec::with_capacity(alloc, ports.len())?;
    for port in ports {
        transmitters.push(entering_transmitter(alloc, settings, port, remote)?)?;
    }
    Ok(transmitters)
}

// The transmitter with which a port begins, where it is one of the remote's.
fn entering_transmitter(
    alloc: Global,
    settings: Settings,
    port: &IngressPort,
    remote: Remote,
) -> Result<Option<AmTx>, Memory>
    ensures { IfOk result (λ transmitter. transmitter ≡ entering_tx settings remote port.now) }
{
    if !is_of(remote, port.name) {
        return Ok(None);
    }
    let transmitter = AmTx::new(
        alloc,
        port.size,
        settings.poll_pdu,
        settings.poll_byte,
        settings.max_retx,
    )?;
    Ok(Some(transmitter))
}

/// Opens the ingresses in an epoch at whose places there is a receiver, which each of them takes.
pub(crate) fn open_ingresses(ports: &mut [IngressPort], receivers: &mut [Option<AmRx>], epoch: u32)
    requires { length receivers.old ≡ length ports.old }
    ensures { ports.new ≡ each_given (opened_ingress epoch) receivers.old ports.old }
{
    for place in 0..ports.len() {
        open_ingress(&mut ports[place], &mut receivers[place], epoch);
    }
}

// The same of one ingress.
fn open_ingress(port: &mut IngressPort, receiver: &mut Option<AmRx>, epoch: u32)
    ensures { port.new ≡ opened_ingress epoch receiver.old port.old }
{
    if let Some(rx) = receiver.take() {
        port.rx = Some(rx);
        port.epoch = epoch;
    }
}

/// Opens the egresses at whose places there is a transmitter, which each of them takes.
pub(crate) fn open_egresses(ports: &mut [EgressPort], transmitters: &mut [Option<AmTx>])
    requires { length transmitters.old ≡ length ports.old }
    ensures { ports.new ≡ each_given opened_egress transmitters.old ports.old }
{
    for place in 0..ports.len() {
        open_egress(&mut ports[place], &mut transmitters[place]);
    }
}

// The same of one egress.
fn open_egress(port: &mut EgressPort, transmitter: &mut Option<AmTx>)
    ensures { port.new ≡ opened_egress transmitter.old port.old }
{
    if let Some(tx) = transmitter.take() {
        port.tx = Some(tx);
    }
}
