// Names of ports and timers in the tables of calls.
use link_base::{Chan, Drb, Goal, LocalId, PortName, Remote, Timer};
use std::alloc::Global;
use std::process::Abort;
use std::test::Fail;

/// The port of a name such as `d1.2`, `p1.2` or `u2`.
pub(crate) fn port_of(rt: &impl Abort, name: &str) -> Result<PortName, Fail> {
    if let Some(chan) = name.strip_prefix("u") {
        return Ok(PortName::Uu(Chan(chan.parse()?)));
    }
    let Some((remote, number)) = name.split_once('.') else {
        panic!(rt; "no such port: {name}");
    };
    if let Some(remote) = remote.strip_prefix("d") {
        return Ok(PortName::Direct(Remote(remote.parse()?), Drb(number.parse()?)));
    }
    let Some(remote) = remote.strip_prefix("p") else {
        panic!(rt; "no such port: {name}");
    };
    Ok(PortName::Pc5(Remote(remote.parse()?), Chan(number.parse()?)))
}

/// The name of a port.
pub(crate) fn port_text(alloc: Global, port: PortName) -> Result<String, Fail> {
    let text = match port {
        PortName::Direct(remote, drb) => format!(in alloc; "d{}.{}", remote.0, drb.0),
        PortName::Pc5(remote, chan) => format!(in alloc; "p{}.{}", remote.0, chan.0),
        PortName::Uu(chan) => format!(in alloc; "u{}", chan.0),
    };
    Ok(text?)
}

/// The timer of a name.
pub(crate) fn timer_of(rt: &impl Abort, name: &str) -> Timer {
    match name {
        "poll" => Timer::Poll,
        "reasm" => Timer::Reasm,
        "prohibit" => Timer::Prohibit,
        _ => panic!(rt; "no such timer: {name}"),
    }
}

/// The path of a name: `direct`, or the local identity of a relay path.
pub(crate) fn goal_of(name: &str) -> Result<Goal, Fail> {
    match name {
        "direct" => Ok(Goal::Direct),
        _ => Ok(Goal::Relay(LocalId(name.parse()?))),
    }
}
