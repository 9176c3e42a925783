// What each line does before the ends feed.
ghost use Rattle.std.specs.Prelude.{◌≡◌, ◌<◌, ◌^◌, IfOk, None, true, [], length, count_by, is_some};
ghost use Rattle.rlc_model.specs.Sides.{sender_of, hearer_of};
ghost use Rattle.node_model.specs.Names.{owner};
ghost use Rattle.chain_model.specs.State.{entity_on};
ghost use Rattle.chain_model.specs.Lines.{Granted, is_handed_over};
ghost use Rattle.chain_model.specs.Steps.{Does};
ghost use Rattle.chain_core.specs.Chain.{HasEnds, HasSmallNumbers, Carries, Arrives, is_chain_line};
ghost use Rattle.chain_core.specs.Confirming.{HaveOwnTags, Watches};
ghost use Rattle.chain_core.specs.Nodes.{node_in, IsSmallAt};
ghost use Rattle.chain_core.specs.Told.{Tells};

use crate::Chain;
use crate::confirming::{Watched, sent_over, watch_of};
use crate::keys::{hearer_of, sender_of, way_from};
use crate::nodes::Nodes;
use crate::telling::{pull_reply, push_reply, submit_reply, tell_expired, tell_heard};
use link_base::{Key, Memory, PortName, Side, Timer, Way, copy_bytes};
use node_model::{NodeHeard, PortGrant};
use rlc_hop::{HopGrant, Pdu};
use script_text::{EventList, Line, Reply};

/// The greatest number of PDUs on the air.
const MOST_ON_AIR: u64 = 16_384;

/// The greatest number of tickets.
const MOST_TICKETS: u64 = 2_305_843_009_213_693_952;

/// A line that was carried out.
#[derive(Drop)]
pub(crate) struct Carried {
    /// How it is answered.
    pub(crate) reply: Reply,
    /// The key whose confirmed number alone it may have raised.
    pub(crate) watch: Option<Watched>,
}

/// A PDU that came to the node that it goes to.
#[derive(Drop)]
pub(crate) struct Arrival {
    /// What came of it.
    pub(crate) carried: Carried,
    /// Whether it was handed over.
    pub(crate) is_heard: bool,
}

impl Chain {
    /// What a line does before the ends feed.
    pub(crate) fn carry(&mut self, line: &Line, log: &mut EventList) -> Result<Carried, Memory>
        requires line { is_chain_line line.now ≡ true }
        requires ends { HasEnds self.old }
        requires small { HasSmallNumbers self.old }
        requires tags { HaveOwnTags self.old }
        ensures carries { IfOk result (λ carried.
            Carries self.old line.now log.old log.new carried.reply self.new) }
        ensures watches { IfOk result (λ carried. Watches self.old carried.watch self.new) }
    {
        match line {
            Line::Submit { key, sdu } => {
                let reply = self.submit(*key, sdu.as_slice())?;
                Ok(unwatched(reply))
            }
            Line::Grant { port, way, n } => {
                let reply = self.grant(*port, *way, *n)?;
                Ok(unwatched(reply))
            }
            Line::Deliver { ticket } => {
                let carried = self.deliver(*ticket, log)?;
                Ok(carried)
            }
            Line::Repeat { ticket } => {
                let carried = self.repeat(*ticket, log)?;
                Ok(carried)
            }
            Line::Lose { ticket } => {
                let reply = self.lose(*ticket);
                Ok(unwatched(reply))
            }
            Line::Expire { port, side, timer } => {
                let reply = self.expire(*port, *side, *timer, log)?;
                Ok(unwatched(reply))
            }
            Line::Push { port } => {
                let reply = self.push(*port);
                Ok(unwatched(reply))
            }
            Line::Pull { port } => {
                let reply = self.pull(*port)?;
                Ok(unwatched(reply))
            }
            Line::Report { key } => {
                let reply = self.report(*key);
                Ok(unwatched(reply))
            }
            _ => unreachable!(),
        }
    }

    // An SDU comes to the PDCP entity that sends a key.
    fn submit(&mut self, key: Key, sdu: &[u8]) -> Result<Reply, Memory>
        requires ends { HasEnds self.old }
        ensures { IfOk result (λ reply. Does self.old (Line.Submit key sdu.now) [] reply self.new) }
    {
        if !self.has_bearer(key.remote, key.drb) {
            return Ok(Reply::NoBearer);
        }
        let count = match self.nodes.submit(key, sdu) {
            Ok(count) => count,
            Err(fault) => {
                let reply = submit_reply(fault)?;
                return Ok(reply);
            }
        };
        Ok(Reply::OkNumber(u64::from(count)))
    }

    // The side that sends in a way may send one PDU of at most so many octets.
    fn grant(&mut self, port: PortName, way: Way, octets: u32) -> Result<Reply, Memory>
        ensures { IfOk result
            (λ reply. Does self.old (Line.Grant port way octets) [] reply self.new) }
    {
        if !self.nodes.is_open(sender_of(way), port) {
            return Ok(Reply::NoPort);
        }
        if self.air.len() >= MOST_ON_AIR {
            return Ok(Reply::AirFull);
        }
        if self.air.made() >= MOST_TICKETS {
            return Ok(Reply::Worn);
        }
        let reply = self.send(port, way, octets)?;
        Ok(reply)
    }

    // A side that is open may send one PDU, for which there is room on the air.
    fn send(&mut self, port: PortName, way: Way, octets: u32) -> Result<Reply, Memory>
        requires open { is_some (entity_on self.old (sender_of way) port) ≡ true }
        requires tickets { length self.old.air < 2 ^ 61 }
        requires room { count_by is_some self.old.air < 16384 }
        ensures { IfOk result (λ reply. Granted self.old port way octets [] reply self.new) }
    {
        let answer = self.nodes.grant(sender_of(way), port, octets)?;
        let PortGrant::Hop { epoch, grant } = answer else {
            unreachable!()
        };
        match grant {
            HopGrant::Idle => Ok(Reply::Idle),
            HopGrant::Small { need } => Ok(Reply::Small(need)),
            HopGrant::Sent {
                status,
                number,
                bytes,
            } => {
                let copy = copy_bytes(self.alloc, bytes.as_slice())?;
                let ticket = self.air.put(Pdu {
                    port,
                    way,
                    epoch,
                    status,
                    number,
                    bytes: copy,
                })?;
                Ok(Reply::Air {
                    ticket,
                    status,
                    number,
                    bytes,
                })
            }
        }
    }

    // The PDU of a ticket is lost.
    fn lose(&mut self, ticket: u64) -> Reply
        ensures { Does self.old (Line.Lose ticket) [] result self.new }
    {
        match self.air.take(ticket) {
            None => Reply::NoAir,
            Some(_) => Reply::Ok,
        }
    }

    // A timer of a side of a port runs out.
    fn expire(
        &mut self,
        port: PortName,
        side: Side,
        timer: Timer,
        log: &mut EventList,
    ) -> Result<Reply, Memory>
        ensures { IfOk result (λ reply.
            Carries self.old (Line.Expire port side timer) log.old log.new reply self.new) }
    {
        let Some(expired) = self.nodes.expire(side, port, timer) else {
            return Ok(Reply::NoPort);
        };
        let reply = tell_expired(log, port, way_from(side), expired)?;
        Ok(reply)
    }

    // The PDU of a ticket comes to its node, and is on the air no more where it is handed over.
    fn deliver(&mut self, ticket: u64, log: &mut EventList) -> Result<Carried, Memory>
        requires small { HasSmallNumbers self.old }
        requires tags { HaveOwnTags self.old }
        ensures carries { IfOk result (λ carried.
            Carries self.old (Line.Deliver ticket) log.old log.new carried.reply self.new) }
        ensures watches { IfOk result (λ carried. Watches self.old carried.watch self.new) }
    {
        let Some(pdu) = self.air.get(ticket) else {
            return Ok(unwatched(Reply::NoAir));
        };
        let Arrival { carried, is_heard } = come(&mut self.nodes, pdu, log)?;
        if !is_heard {
            return Ok(carried);
        }
        self.air.take(ticket);
        Ok(carried)
    }

    // The PDU of a ticket comes to its node, and stays on the air.
    fn repeat(&mut self, ticket: u64, log: &mut EventList) -> Result<Carried, Memory>
        requires small { HasSmallNumbers self.old }
        requires tags { HaveOwnTags self.old }
        ensures carries { IfOk result (λ carried.
            Carries self.old (Line.Repeat ticket) log.old log.new carried.reply self.new) }
        ensures watches { IfOk result (λ carried. Watches self.old carried.watch self.new) }
    {
        let Some(pdu) = self.air.get(ticket) else {
            return Ok(unwatched(Reply::NoAir));
        };
        let arrival = come(&mut self.nodes, pdu, log)?;
        Ok(arrival.carried)
    }

    // The relay moves the SDU in the slot of a port to its queue.
    fn push(&mut self, port: PortName) -> Reply
        ensures { Does self.old (Line.Push port) [] result self.new }
    {
        push_reply(self.nodes.push(port))
    }

    // The relay gives the SDU at the front of the queue of a port to the port's transmitter.
    fn pull(&mut self, port: PortName) -> Result<Reply, Memory>
        requires { HasSmallNumbers self.old }
        ensures { IfOk result (λ reply. Does self.old (Line.Pull port) [] reply self.new) }
    {
        let answer = self.nodes.pull(port)?;
        Ok(pull_reply(answer))
    }

    // A status report about a key is wanted at the end that receives it.
    fn report(&mut self, key: Key) -> Reply
        ensures { Does self.old (Line.Report key) [] result self.new }
    {
        if !self.has_bearer(key.remote, key.drb) {
            return Reply::NoBearer;
        }
        self.nodes.want_report(key);
        Reply::Ok
    }
}

// A line by which no confirmed number rose.
fn unwatched(reply: Reply) -> Carried
    ensures { result ≡ record { reply = reply; watch = None } }
{
    Carried { reply, watch: None }
}

// A PDU comes to the node that it goes to.
fn come(nodes: &mut Nodes, pdu: &Pdu, log: &mut EventList) -> Result<Arrival, Memory>
    requires { IsSmallAt (node_in nodes.old.nodes (owner (hearer_of pdu.now.way) pdu.now.port))
        pdu.now.port }
    ensures { IfOk result (λ arrival. Tells log.old log.new
        (λ events reply. Arrives nodes.old pdu.now events reply arrival nodes.new)
        arrival.carried.reply) }
{
    let side = hearer_of(pdu.way);
    let sent = sent_over(nodes, side, pdu.port);
    let heard = nodes.hear(side, pdu)?;
    let is_heard = is_handed_over(&heard);
    let watch = watch_of(&heard, sent);
    let reply = tell_heard(log, pdu.port, way_from(side), heard)?;
    Ok(Arrival {
        carried: Carried { reply, watch },
        is_heard,
    })
}

// Whether a PDU was handed over.
fn is_handed_over(heard: &NodeHeard) -> bool
    ensures { result ≡ is_handed_over heard.now }
{
    !matches!(
        heard,
        NodeHeard::NoPort | NodeHeard::Air(_) | NodeHeard::Held
    )
}
