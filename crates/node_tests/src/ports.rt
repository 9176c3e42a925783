// Tables of calls on the ports of all nodes of a chain, each beside what it answers.
use crate::rows::call_and_answer;
use crate::small::is_small;
use bearer_map::{TableFault, Tables};
use link_base::{
    Bytes, Chan, Drb, Expired, Goal, Key, LocalId, PortName, Remote, Tag, Timer, Way, copy_bytes,
};
use node_model::{NodeHeard, PortGrant};
use node_ports::Ports;
use rlc_hop::{AirFault, HopGrant, HopHeard, Pdu};
use rlc_model::{Heard, StatusHeard};
use std::alloc::Global;
use std::process::Abort;
use std::test::Fail;

const TAG: Tag = Tag {
    key: Key {
        remote: Remote(1),
        drb: Drb(1),
        way: Way::Ul,
    },
    count: Some(7),
    ue: None,
};

/// The ports of the nodes of a chain, to be called by words. Each method says what its call answers, and no more,
/// so that the tests are proved soon.
#[derive(Drop)]
struct Nodes {
    alloc: Global,
    first: Ports,
    second: Ports,
    relay: Ports,
    gnb: Ports,
}

impl Nodes {
    fn new(alloc: Global, tables: &Tables) -> Result<Self, Fail> {
        let [first, second] = tables.remotes() else {
            return Err(Fail::new("two remotes are wanted"));
        };
        Ok(Nodes {
            alloc,
            first: Ports::of_remote(alloc, tables, *first)?,
            second: Ports::of_remote(alloc, tables, *second)?,
            relay: Ports::of_relay(alloc, tables)?,
            gnb: Ports::of_gnb(alloc, tables)?,
        })
    }

    /// The ports of a node.
    fn ports(&mut self, rt: &impl Abort, node: &str) -> &mut Ports {
        match node {
            "r1" => &mut self.first,
            "r2" => &mut self.second,
            "relay" => &mut self.relay,
            "gnb" => &mut self.gnb,
            _ => panic!(rt; "no such node: {node}"),
        }
    }

    /// Does a call, which names a node, what is to be done, a port, and behind it what more is needed, and says
    /// what it answers.
    fn said(&mut self, rt: &impl Abort, call: &str) -> Result<String, Fail> {
        let alloc = self.alloc;
        let (node, call) = call.split_once(' ').unwrap_or((call, ""));
        let (word, call) = call.split_once(' ').unwrap_or((call, ""));
        let (port, argument) = call.split_once(' ').unwrap_or((call, ""));
        let port = port_of(rt, port)?;
        let ports = self.ports(rt, node);
        match word {
            "give" => give(rt, alloc, ports, port, argument),
            "grant" => granted(alloc, ports.grant(port, argument.parse()?)?),
            "hear" => hear(rt, alloc, ports, port, argument),
            "expire" => expired(alloc, ports.expire(port, timer_of(rt, argument))),
            "room" => Ok(format!(in alloc; "{}", ports.room(port))?),
            "numbers" => numbers(alloc, ports, port),
            _ => panic!(rt; "no such call: {word}"),
        }
    }
}

/// The port of a name such as `d1.2`, `p1.2` or `u2`.
fn port_of(rt: &impl Abort, name: &str) -> Result<PortName, Fail> {
    if let Some(chan) = name.strip_prefix("u") {
        return Ok(PortName::Uu(Chan(chan.parse()?)));
    }
    let Some((remote, number)) = name.split_once('.') else {
        panic!(rt; "no such port: {name}");
    };
    if let Some(remote) = remote.strip_prefix("d") {
        return Ok(PortName::Direct(Remote(remote.parse()?), Drb(number.parse()?)));
    }
    let Some(remote) = remote.strip_prefix("p") else {
        panic!(rt; "no such port: {name}");
    };
    Ok(PortName::Pc5(Remote(remote.parse()?), Chan(number.parse()?)))
}

fn timer_of(rt: &impl Abort, name: &str) -> Timer {
    match name {
        "poll" => Timer::Poll,
        "reasm" => Timer::Reasm,
        "prohibit" => Timer::Prohibit,
        _ => panic!(rt; "no such timer: {name}"),
    }
}

/// An SDU is given to the transmitter of a port that has room.
fn give(
    rt: &impl Abort,
    alloc: Global,
    ports: &mut Ports,
    port: PortName,
    digits: &str,
) -> Result<String, Fail> {
    let bytes = hex::decode(alloc, digits.as_bytes())?;
    let sdu = copy_bytes(alloc, &bytes)?;
    assert!(rt; !sdu.is_empty() && sdu.len() <= 9_005 && ports.room(port) > 0);
    assert!(rt; is_small(ports, port));
    ports.give(port, TAG, sdu)?;
    numbers(alloc, ports, port)
}

/// What a grant answers.
fn granted(alloc: Global, answer: PortGrant) -> Result<String, Fail> {
    let (epoch, grant) = match answer {
        PortGrant::NoPort => return Ok(String::from_str(alloc, "no port")?),
        PortGrant::Hop { epoch, grant } => (epoch, grant),
    };
    match grant {
        HopGrant::Sent {
            status,
            number,
            bytes,
        } => {
            let kind = if status { "status" } else { "data" };
            let digits = hex::encode(alloc, bytes.as_slice())?;
            Ok(format!(in alloc; "{epoch} {kind} {number} {digits}")?)
        }
        HopGrant::Idle => Ok(format!(in alloc; "{epoch} idle")?),
        HopGrant::Small { need } => Ok(format!(in alloc; "{epoch} small {need}")?),
    }
}

/// A PDU comes from the air: its epoch, whether it is a STATUS PDU, its number, and its octets.
fn hear(
    rt: &impl Abort,
    alloc: Global,
    ports: &mut Ports,
    port: PortName,
    argument: &str,
) -> Result<String, Fail> {
    let (epoch, argument) = argument.split_once(' ').unwrap_or((argument, ""));
    let (kind, argument) = argument.split_once(' ').unwrap_or((argument, ""));
    let (number, digits) = argument.split_once(' ').unwrap_or((argument, ""));
    let octets = hex::decode(alloc, digits.as_bytes())?;
    let pdu = Pdu {
        port,
        way: Way::Ul,
        epoch: epoch.parse()?,
        status: kind == "status",
        number: number.parse()?,
        bytes: copy_bytes(alloc, &octets)?,
    };
    if let Some(refusal) = ports.refusal(&pdu) {
        return refused(rt, alloc, refusal);
    }
    assert!(rt; is_small(ports, port));
    let answer = ports.hear_hop(port, &octets)?;
    hop_heard(alloc, answer)
}

/// Why a node doesn't hear a PDU.
fn refused(rt: &impl Abort, alloc: Global, refusal: NodeHeard) -> Result<String, Fail> {
    match refusal {
        NodeHeard::NoPort => Ok(String::from_str(alloc, "no port")?),
        NodeHeard::Air(AirFault::Gone) => Ok(String::from_str(alloc, "gone")?),
        NodeHeard::Air(AirFault::Stale { number, next }) => {
            Ok(format!(in alloc; "stale {number} {next}")?)
        }
        NodeHeard::Held => Ok(String::from_str(alloc, "held")?),
        _ => panic!(rt; "no refusal"),
    }
}

/// What an entity answers to octets.
fn hop_heard(alloc: Global, answer: HopHeard) -> Result<String, Fail> {
    let text = match answer {
        HopHeard::Amd(Heard::Complete(number, sdu)) => {
            let digits = hex::encode(alloc, sdu.as_slice())?;
            format!(in alloc; "complete {number} {digits}")
        }
        HopHeard::Amd(Heard::Stored) => format!(in alloc; "stored"),
        HopHeard::Amd(_) => format!(in alloc; "nothing new"),
        HopHeard::Status(StatusHeard::Acked { tags, marks }) => {
            let (tags, marks) = (tags.len(), marks.len());
            format!(in alloc; "acks {tags} marks {marks}")
        }
        HopHeard::Status(_) => format!(in alloc; "not carried out"),
        HopHeard::BadAmd(fault) => format!(in alloc; "bad {fault}"),
        HopHeard::BadStatus(fault) => format!(in alloc; "bad status {fault}"),
    };
    Ok(text?)
}

/// What a timer's end answers.
fn expired(alloc: Global, expired: Option<Expired>) -> Result<String, Fail> {
    let text = match expired {
        None => String::from_str(alloc, "no port"),
        Some(Expired::Stopped) => String::from_str(alloc, "stopped"),
        Some(Expired::Done) => String::from_str(alloc, "done"),
        Some(Expired::Marked(number)) => format!(in alloc; "marked {number}"),
    };
    Ok(text?)
}

/// TX_Next, TX_Next_Ack and RX_Next of a port.
fn numbers(alloc: Global, ports: &Ports, port: PortName) -> Result<String, Fail> {
    let (Some(tx), Some(rx)) = (ports.tx(port), ports.rx(port)) else {
        return Ok(String::from_str(alloc, "no port")?);
    };
    let (tx_next, tx_next_ack, rx_next) = (tx.next(), tx.next_ack(), rx.next());
    Ok(format!(in alloc; "{tx_next} {tx_next_ack} {rx_next}")?)
}

/// Remote 1 is on its direct path, remote 2 on the relay's.
fn declare(tables: &mut Tables) -> Result<(), TableFault> {
    tables.remote(1)?;
    tables.remote(2)?;
    tables.bearer(1, 1, 12, 12)?;
    tables.bearer(1, 3, 12, 18)?;
    tables.bearer(2, 1, 18, 12)?;
    tables.pc5(1, 2, 12)?;
    tables.pc5(2, 1, 18)?;
    tables.pc5(2, 4, 12)?;
    tables.uu(1, 12)?;
    tables.uu(3, 18)?;
    tables.map(2, 1, 4, 3)?;
    tables.path(2, Goal::Relay(LocalId(5)))
}

/// Does the calls of a table on nodes at which nothing has happened: each row is a call and, behind a bar, what it
/// answers.
fn expect_rows(rt: &impl Abort, alloc: Global, rows: &str) -> Result<(), Fail> {
    let mut tables = Tables::new(alloc)?;
    if declare(&mut tables).is_err() {
        panic!(rt; "the tables are refused");
    }
    let mut nodes = Nodes::new(alloc, &tables)?;
    for row in rows.split('\n') {
        let (call, want) = call_and_answer(rt, row);
        let said = nodes.said(rt, call)?;
        assert_eq!(rt; said.as_str(), want, "{call}");
    }
    Ok(())
}

const OVER_DIRECT_PORTS: &str = "\
r1 give d1.1 6162|1 0 0
r1 give d1.3 63|1 0 0
r1 grant d1.1 2|0 small 3
r1 grant d1.1 3|0 data 0 900061
gnb hear d1.1 0 data 0 900061|stored
r1 grant d1.1 5|0 data 0 e000000162
gnb grant d1.1 3|0 idle
gnb hear d1.1 0 data 0 e000000162|complete 0 6162
gnb hear d1.1 0 data 0 e000000162|nothing new
gnb numbers d1.1|0 0 1
gnb numbers d1.3|0 0 0
gnb grant d1.1 3|0 status 1 000100
r1 hear d1.1 0 status 1 000100|acks 1 marks 0
r1 numbers d1.1|1 1 0
r1 numbers d1.3|1 0 0
r1 room d1.1|2048
r1 room d1.3|131071
r1 grant d1.3 9|0 data 0 c0000063
gnb hear d1.3 0 data 0 c0000063|complete 0 63
gnb hear d1.1 0 data 1 800161|complete 1 61
gnb hear d1.3 0 data 1 800161|bad no-body";

// Each of the two ports of remote 2 that its table row doesn't open is closed, as is each of remote 1's.
const OVER_THE_RELAY: &str = "\
r2 room p2.4|2048
r2 room p2.1|131072
r2 give p2.4 616263|1 0 0
r2 numbers p2.1|0 0 0
r2 grant p2.4 5|0 data 0 c000616263
relay hear p2.1 0 data 97 c000616263|complete 97 6263
relay hear p2.4 0 data 0 c000616263|complete 0 616263
relay give u3 6465|1 0 0
relay give u1 66|1 0 0
relay grant u3 9|0 data 0 c000006465
relay grant u1 9|0 data 0 c00066
gnb hear u3 0 data 0 c000006465|complete 0 6465
gnb hear u1 0 data 0 c00066|complete 0 66
gnb numbers u1|0 0 1
gnb numbers u3|0 0 1";

const CLOSED_PORTS: &str = "\
r1 room p1.2|0
r1 grant p1.2 9|no port
r1 hear p1.2 0 data 0 800061|gone
r1 expire p1.2 poll|no port
relay grant p1.2 9|no port
relay hear p1.2 0 data 0 800061|gone
r2 room d2.1|0
r2 grant d2.1 9|no port
gnb grant d2.1 9|no port
gnb hear d2.1 0 data 0 800061|gone
gnb expire d2.1 reasm|no port
gnb numbers d2.1|no port";

const WRONG_NAMES: &str = "\
r1 grant d1.2 9|no port
r1 grant d1.4 9|no port
r1 hear d2.1 0 data 0 800061|no port
r1 grant u1 9|no port
r2 hear d1.1 0 data 0 800061|no port
r2 expire p2.3 poll|no port
relay hear d1.1 0 data 0 800061|no port
relay grant p1.1 9|no port
relay room u2|0
gnb hear p2.4 0 data 0 800061|no port
gnb numbers u2|no port";

const REFUSED_AND_EXPIRED: &str = "\
gnb hear d1.1 1 data 0 800061|gone
gnb hear d1.1 0 data 0 c00061|complete 0 61
gnb grant d1.1 2|0 small 3
gnb grant d1.1 3|0 status 1 000100
gnb expire d1.1 prohibit|done
gnb expire d1.1 prohibit|stopped
gnb expire d1.3 prohibit|stopped
gnb expire d1.1 reasm|stopped
gnb expire d1.1 poll|stopped
r1 give d1.1 61|1 0 0
r1 grant d1.1 9|0 data 0 c00061
r1 expire d1.1 poll|done
r1 expire d1.1 poll|stopped
r1 grant d1.1 9|0 data 0 c00061";

#[test]
fn sends_and_hears(rt: HostRuntime) -> Result<(), Fail> {
    for rows in [
        OVER_DIRECT_PORTS,
        OVER_THE_RELAY,
        CLOSED_PORTS,
        WRONG_NAMES,
        REFUSED_AND_EXPIRED,
    ] {
        expect_rows(&rt, rt.alloc(), rows)?;
    }
    Ok(())
}
