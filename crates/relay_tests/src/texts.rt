// What the calls of a relay answer, in words.
use crate::names::port_text;
use link_base::{Discard, Expired, Place};
use relay_core::{NodeHeard, PortGrant, PullReply, PushReply};
use rlc_hop::{AirFault, HopGrant, HopHeard};
use rlc_model::{Heard, StatusHeard};
use std::alloc::Global;
use std::test::Fail;

/// What a PDU became.
pub(crate) fn heard_text(alloc: Global, answer: NodeHeard) -> Result<String, Fail> {
    let text = match answer {
        NodeHeard::NoPort => format!(in alloc; "no port"),
        NodeHeard::Air(AirFault::Gone) => format!(in alloc; "gone"),
        NodeHeard::Air(AirFault::Stale { number, next }) => {
            format!(in alloc; "stale {number} {next}")
        }
        NodeHeard::Held => format!(in alloc; "held"),
        NodeHeard::Slot(port) => {
            let port = port_text(alloc, port)?;
            format!(in alloc; "slot {port}")
        }
        NodeHeard::Discard(discard) => format!(in alloc; "discard {}", discard_name(discard)),
        NodeHeard::Hop(answer) => return hop_text(alloc, answer),
        _ => format!(in alloc; "what an end answers"),
    };
    Ok(text?)
}

fn discard_name(discard: Discard) -> &'static str {
    match discard {
        Discard::Short => "short",
        Discard::Control => "control",
        Discard::NoBody => "no-body",
        Discard::UnknownUe => "unknown-ue",
        Discard::ForeignUe => "foreign-ue",
        Discard::UnknownBearer => "unknown-bearer",
        _ => "by PDCP",
    }
}

fn hop_text(alloc: Global, answer: HopHeard) -> Result<String, Fail> {
    let text = match answer {
        HopHeard::Amd(Heard::Complete(number, sdu)) => {
            let digits = hex::encode(alloc, sdu.as_slice())?;
            format!(in alloc; "complete {number} {digits}")
        }
        HopHeard::Amd(Heard::Stored) => format!(in alloc; "stored"),
        HopHeard::Amd(_) => format!(in alloc; "nothing new"),
        HopHeard::Status(StatusHeard::Acked { tags, marks }) => {
            let (tags, marks) = (tags.len(), marks.len());
            format!(in alloc; "acks {tags} marks {marks}")
        }
        HopHeard::Status(_) => format!(in alloc; "not carried out"),
        HopHeard::BadAmd(fault) => format!(in alloc; "bad {fault}"),
        HopHeard::BadStatus(fault) => format!(in alloc; "bad status {fault}"),
    };
    Ok(text?)
}

/// What a grant answers: its epoch, and the PDU that was sent.
pub(crate) fn grant_text(alloc: Global, answer: PortGrant) -> Result<String, Fail> {
    let (epoch, grant) = match answer {
        PortGrant::NoPort => return Ok(String::from_str(alloc, "no port")?),
        PortGrant::Hop { epoch, grant } => (epoch, grant),
    };
    match grant {
        HopGrant::Sent {
            status,
            number,
            bytes,
        } => {
            let kind = if status { "status" } else { "data" };
            let digits = hex::encode(alloc, bytes.as_slice())?;
            Ok(format!(in alloc; "{epoch} {kind} {number} {digits}")?)
        }
        HopGrant::Idle => Ok(format!(in alloc; "{epoch} idle")?),
        HopGrant::Small { need } => Ok(format!(in alloc; "{epoch} small {need}")?),
    }
}

/// What the move of an SDU from a slot into a queue answers.
pub(crate) fn push_text(alloc: Global, reply: PushReply) -> Result<String, Fail> {
    let text = match reply {
        PushReply::Done(port) => return port_text(alloc, port),
        PushReply::NoPort => "no port",
        PushReply::Nothing => "nothing",
        PushReply::QueueFull => "queue full",
    };
    Ok(String::from_str(alloc, text)?)
}

/// What the move of an SDU from a queue into a transmitter answers.
pub(crate) fn pull_text(alloc: Global, reply: PullReply) -> Result<String, Fail> {
    let text = match reply {
        PullReply::Done(number) => return Ok(format!(in alloc; "{number}")?),
        PullReply::NoPort => "no port",
        PullReply::Empty => "empty",
        PullReply::Stalled => "stalled",
    };
    Ok(String::from_str(alloc, text)?)
}

/// What a timer's end answers.
pub(crate) fn expired_text(alloc: Global, expired: Option<Expired>) -> Result<String, Fail> {
    let text = match expired {
        None => String::from_str(alloc, "no port"),
        Some(Expired::Stopped) => String::from_str(alloc, "stopped"),
        Some(Expired::Done) => String::from_str(alloc, "done"),
        Some(Expired::Marked(number)) => format!(in alloc; "marked {number}"),
    };
    Ok(text?)
}

/// Where an SDU stands.
pub(crate) fn place_text(alloc: Global, place: Option<Place>) -> Result<String, Fail> {
    let text = match place {
        None => String::from_str(alloc, "nowhere"),
        Some(Place::Slot(port)) => {
            let port = port_text(alloc, port)?;
            format!(in alloc; "slot {port}")
        }
        Some(Place::Queue(port)) => {
            let port = port_text(alloc, port)?;
            format!(in alloc; "queue {port}")
        }
        Some(Place::Uu(chan)) => format!(in alloc; "uu {}", chan.0),
        Some(_) => String::from_str(alloc, "no place of the relay"),
    };
    Ok(text?)
}
