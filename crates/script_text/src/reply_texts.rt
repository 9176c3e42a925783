// The texts of replies.
ghost use Rattle.std.specs.Prelude.{◌≡◌, ◌++◌, OnOk, IfOk, string_bytes};
ghost use Rattle.script_text.specs.Texts.{amd_fault_text, discard_text, reply_text, status_fault_text};
ghost use Rattle.script_text.specs.Words.{port_text};

use crate::Reply;
use crate::hex_words::push_hex;
use crate::text::push_port;
use link_base::{Bytes, Discard, Memory, Place, PortName};
use rlc_pdu::AmdFault;
use rlc_status::StatusFault;
use std::alloc::{AllocError, Global};

/// The text of a reply as it stands in a trace, without an LF. The chain makes no reply `BadStatus(Memory)`.
pub fn reply_text(alloc: Global, reply: &Reply) -> Result<Bytes, Memory>
    ensures { IfOk result (λ text. text ≡ reply_text reply.now) }
{
    let mut out = String::new(alloc);
    push_reply(&mut out, reply)?;
    Ok(Bytes::from_vec(out.into_bytes()))
}

/// Adds the text of a reply.
pub(crate) fn push_reply(out: &mut String, reply: &Reply) -> Result<(), AllocError>
    ensures { OnOk result (string_bytes out.new ≡ string_bytes out.old ++ reply_text reply.now) }
{
    match reply {
        Reply::Ok => out.push_str("ok"),
        Reply::OkNumber(n) => write!(out, "ok {n}"),
        Reply::OkPort(port) => push_word_and_port(out, "ok ", *port),
        Reply::OkTwo(a, b) => write!(out, "ok {a} {b}"),
        Reply::OkSlot(port) => push_word_and_port(out, "ok slot ", *port),
        Reply::OkUp(n) => write!(out, "ok up {n}"),
        Reply::OkAcks(n) => write!(out, "ok acks {n}"),
        Reply::OkStored => out.push_str("ok stored"),
        Reply::OkRepeat => out.push_str("ok repeat"),
        Reply::OkOutside => out.push_str("ok outside"),
        Reply::OkConflict => out.push_str("ok conflict"),
        Reply::OkWaiting => out.push_str("ok waiting"),
        Reply::OkOld => out.push_str("ok old"),
        Reply::OkTwice => out.push_str("ok twice"),
        Reply::OkNoCount => out.push_str("ok nocount"),
        Reply::OkReport => out.push_str("ok report"),
        Reply::OkPast => out.push_str("ok past"),
        Reply::OkBeyond => out.push_str("ok beyond"),
        Reply::NoBearer => out.push_str("nobearer"),
        Reply::NoRemote => out.push_str("noremote"),
        Reply::NoPort => out.push_str("noport"),
        Reply::NoAir => out.push_str("noair"),
        Reply::NotRelay => out.push_str("notrelay"),
        Reply::NoTable => out.push_str("notable"),
        Reply::NoPlan => out.push_str("noplan"),
        Reply::Already => out.push_str("already"),
        Reply::Gone => out.push_str("gone"),
        Reply::Held => out.push_str("held"),
        Reply::IsStatus => out.push_str("status"),
        Reply::Empty => out.push_str("empty"),
        Reply::Long => out.push_str("long"),
        Reply::Spent => out.push_str("spent"),
        Reply::Full(n) => write!(out, "full {n}"),
        Reply::AirFull => out.push_str("airfull"),
        Reply::Worn => out.push_str("worn"),
        Reply::Idle => out.push_str("idle"),
        Reply::Small(n) => write!(out, "small {n}"),
        Reply::Air {
            ticket,
            status,
            number,
            bytes,
        } => push_air(out, *ticket, *status, *number, bytes.as_slice()),
        Reply::Stale(a, b) => write!(out, "stale {a} {b}"),
        Reply::Stopped => out.push_str("stopped"),
        Reply::Nothing => out.push_str("nothing"),
        Reply::QueueFull => out.push_str("queuefull"),
        Reply::Stalled => out.push_str("stalled"),
        Reply::PlanOpen(remote) => write!(out, "open {}", remote.0),
        Reply::IdBusy(place) => push_busy(out, *place),
        Reply::BadAmd(fault) => write!(out, "bad {}", amd_fault_text(*fault)),
        Reply::BadStatus(fault) => write!(out, "bad {}", status_fault_text(*fault)),
        Reply::Discard(name) => write!(out, "discard {}", discard_text(*name)),
    }
}

fn push_word_and_port(out: &mut String, word: &str, port: PortName) -> Result<(), AllocError>
    ensures { OnOk result
        (string_bytes out.new ≡ string_bytes out.old ++ word.now ++ port_text port) }
{
    out.push_str(word)?;
    push_port(out, port)
}

fn push_air(
    out: &mut String,
    ticket: u64,
    status: bool,
    number: u64,
    bytes: &[u8],
) -> Result<(), AllocError>
    ensures { OnOk result
        (string_bytes out.new ≡ string_bytes out.old
        ++ reply_text (Reply.Air ticket status number bytes.now)) }
{
    let kind = if status { "status" } else { "data" };
    write!(out, "air {ticket} {kind} {number} ")?;
    push_hex(out, bytes)
}

fn push_busy(out: &mut String, place: Place) -> Result<(), AllocError>
    ensures { OnOk result
        (string_bytes out.new ≡ string_bytes out.old ++ reply_text (Reply.IdBusy place)) }
{
    match place {
        Place::Attached(remote) => write!(out, "idbusy attach {}", remote.0),
        Place::Planned(remote) => write!(out, "idbusy plan {}", remote.0),
        Place::Slot(port) => push_word_and_port(out, "idbusy slot ", port),
        Place::Queue(port) => push_word_and_port(out, "idbusy queue ", port),
        Place::Uu(chan) => write!(out, "idbusy uu {}", chan.0),
    }
}

/// The word for what is wrong with an AMD PDU.
pub fn amd_fault_text(fault: AmdFault) -> &'static str
    ensures { result.now ≡ amd_fault_text fault }
{
    match fault {
        AmdFault::Short => "short",
        AmdFault::Control => "control",
        AmdFault::ZeroOffset => "zero-offset",
        AmdFault::NoBody => "no-body",
        AmdFault::Long => "long",
    }
}

/// The word for what is wrong with a STATUS PDU. Want of memory has a word too, which no trace shows.
pub fn status_fault_text(fault: StatusFault) -> &'static str
    ensures { result.now ≡ status_fault_text fault }
{
    match fault {
        StatusFault::Short => "short",
        StatusFault::IsData => "is-data",
        StatusFault::ReservedType => "reserved-type",
        StatusFault::ZeroRange => "zero-range",
        StatusFault::BackPart => "back-part",
        StatusFault::Trailing => "trailing",
        StatusFault::Memory => "memory",
    }
}

fn discard_text(name: Discard) -> &'static str
    ensures { result.now ≡ discard_text name }
{
    match name {
        Discard::Short => "short",
        Discard::Control => "control",
        Discard::NoBody => "no-body",
        Discard::UnknownUe => "unknown-ue",
        Discard::UnknownBearer => "unknown-bearer",
        Discard::ForeignUe => "foreign-ue",
        Discard::PdcpShort => "pdcp-short",
        Discard::PdcpType => "pdcp-type",
        Discard::PdcpEmpty => "pdcp-empty",
        Discard::PdcpLong => "pdcp-long",
        Discard::ReportBeyond => "report-beyond",
    }
}
