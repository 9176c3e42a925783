// How what a node answers is told in a script's words.
ghost use Rattle.std.specs.Prelude.{◌≡◌, ◌++◌, IfOk, OnOk, OnErr};
ghost use Rattle.chain_model.specs.Telling.{TellsSubmit, TellsHop, TellsHeard, TellsExpired, air_reply, marked, push_reply, pull_reply};
ghost use Rattle.chain_core.specs.Told.{IsTold, IsToldHop, Tells, ups};

use link_base::{Expired, Key, Memory, PortName, SduList, Way};
use node_model::{NodeHeard, PullReply, PushReply};
use pdcp_model::SubmitFault;
use rlc_model::{AirFault, Heard, HopHeard, StatusHeard};
use script_text::{Event, EventList, Reply};

/// How a submission is answered that isn't accepted. An `Err` is want of memory.
pub(crate) fn submit_reply(fault: SubmitFault) -> Result<Reply, Memory>
    ensures ok { IfOk result (TellsSubmit fault) }
    ensures memory { OnErr result (fault ≡ SubmitFault.Memory) }
{
    match fault {
        SubmitFault::Empty => Ok(Reply::Empty),
        SubmitFault::Long => Ok(Reply::Long),
        SubmitFault::Spent => Ok(Reply::Spent),
        SubmitFault::Full { confirmed } => Ok(Reply::Full(confirmed)),
        SubmitFault::Memory => Err(Memory),
    }
}

/// How a PDU is answered that the air doesn't hand over.
fn air_reply(fault: AirFault) -> Reply
    ensures { result ≡ air_reply fault }
{
    match fault {
        AirFault::Gone => Reply::Gone,
        AirFault::Stale { number, next } => Reply::Stale(number, next),
    }
}

/// Adds the events of numbers whose RETX_COUNT came to maxRetxThreshold (TS 38.322 clause 5.3.2).
fn push_marked(log: &mut EventList, port: PortName, way: Way, marks: &[u64]) -> Result<(), Memory>
    ensures { OnOk result (log.new ≡ log.old ++ marked port way marks.now) }
{
    for number in marks {
        log.push(Event::MaxRetx {
            port,
            way,
            number: *number,
        })?;
    }
    Ok(())
}

/// Adds the events of SDUs that are handed up, in their order.
fn push_ups(log: &mut EventList, key: Key, sdus: SduList) -> Result<(), Memory>
    ensures { OnOk result (log.new ≡ log.old ++ ups key sdus) }
{
    for sdu in sdus.into_vec() {
        log.push(Event::Up { key, sdu })?;
    }
    Ok(())
}

/// Tells what the entity of a port answered to a PDU that completed no SDU; `way` is the one in which the port's side sends.
fn tell_hop(log: &mut EventList, port: PortName, way: Way, heard: HopHeard) -> Result<Reply, Memory>
    requires { IsToldHop heard }
    ensures { IfOk result (Tells log.old log.new (TellsHop port way heard)) }
{
    match heard {
        HopHeard::Amd(Heard::Stored) => Ok(Reply::OkStored),
        HopHeard::Amd(Heard::Repeat) => Ok(Reply::OkRepeat),
        HopHeard::Amd(Heard::Outside) => Ok(Reply::OkOutside),
        HopHeard::Amd(Heard::Conflict) => Ok(Reply::OkConflict),
        HopHeard::Amd(Heard::Complete(..)) => unreachable!(),
        HopHeard::Status(StatusHeard::Acked { tags, marks }) => {
            push_marked(log, port, way, marks.as_slice())?;
            Ok(Reply::OkAcks(tags.len() as u64))
        }
        HopHeard::Status(StatusHeard::Old { .. }) => Ok(Reply::OkPast),
        HopHeard::Status(StatusHeard::Beyond { .. }) => Ok(Reply::OkBeyond),
        HopHeard::BadAmd(fault) => Ok(Reply::BadAmd(fault)),
        HopHeard::BadStatus(fault) => Ok(Reply::BadStatus(fault)),
    }
}

/// Tells what a node answered to a PDU that came over a port; `way` is the one in which the port's side sends.
pub(crate) fn tell_heard(
    log: &mut EventList,
    port: PortName,
    way: Way,
    heard: NodeHeard,
) -> Result<Reply, Memory>
    requires { IsTold heard }
    ensures { IfOk result (Tells log.old log.new (TellsHeard port way heard)) }
{
    match heard {
        NodeHeard::NoPort => Ok(Reply::NoPort),
        NodeHeard::Air(fault) => Ok(air_reply(fault)),
        NodeHeard::Held => Ok(Reply::Held),
        NodeHeard::Slot(egress) => Ok(Reply::OkSlot(egress)),
        NodeHeard::Up { key, sdus } => {
            let number = sdus.len() as u64;
            push_ups(log, key, sdus)?;
            Ok(Reply::OkUp(number))
        }
        NodeHeard::Waiting => Ok(Reply::OkWaiting),
        NodeHeard::Old => Ok(Reply::OkOld),
        NodeHeard::Twice => Ok(Reply::OkTwice),
        NodeHeard::NoCount => Ok(Reply::OkNoCount),
        NodeHeard::Report { .. } => Ok(Reply::OkReport),
        NodeHeard::Discard(name) => Ok(Reply::Discard(name)),
        NodeHeard::Hop(heard) => {
            let reply = tell_hop(log, port, way, heard)?;
            Ok(reply)
        }
    }
}

/// Tells what the expiry of a timer of a port did; `way` is the one in which the port's side sends.
pub(crate) fn tell_expired(
    log: &mut EventList,
    port: PortName,
    way: Way,
    expired: Expired,
) -> Result<Reply, Memory>
    ensures { IfOk result (Tells log.old log.new (TellsExpired port way expired)) }
{
    match expired {
        Expired::Done => Ok(Reply::Ok),
        Expired::Marked(number) => {
            push_marked(log, port, way, &[number])?;
            Ok(Reply::Ok)
        }
        Expired::Stopped => Ok(Reply::Stopped),
    }
}

/// How a push is answered.
pub(crate) fn push_reply(answer: PushReply) -> Reply
    ensures { result ≡ push_reply answer }
{
    match answer {
        PushReply::Done(port) => Reply::OkPort(port),
        PushReply::NoPort => Reply::NoPort,
        PushReply::Nothing => Reply::Nothing,
        PushReply::QueueFull => Reply::QueueFull,
    }
}

/// How a pull is answered.
pub(crate) fn pull_reply(answer: PullReply) -> Reply
    ensures { result ≡ pull_reply answer }
{
    match answer {
        PullReply::Done(number) => Reply::OkNumber(number),
        PullReply::NoPort => Reply::NoPort,
        PullReply::Empty => Reply::Empty,
        PullReply::Stalled => Reply::Stalled,
    }
}
