// The texts of events.
ghost use Rattle.std.specs.Prelude.{◌≡◌, ◌++◌, OnOk, IfOk, string_bytes};
ghost use Rattle.script_text.specs.Texts.{event_text};

use crate::Event;
use crate::hex_words::push_hex;
use crate::reply_texts::push_reply;
use crate::text::{push_key, push_port, way_text};
use link_base::{Bytes, Memory, PortName, Way};
use std::alloc::{AllocError, Global};

/// The text of an event as it stands in a trace behind two spaces, without an LF. The reply of a PDU that a burst
/// treated is never `BadStatus(Memory)`.
pub fn event_text(alloc: Global, event: &Event) -> Result<Bytes, Memory>
    ensures { IfOk result (λ text. text ≡ event_text event.now) }
{
    let mut out = String::new(alloc);
    push_event(&mut out, event)?;
    Ok(Bytes::from_vec(out.into_bytes()))
}

/// Adds the text of an event.
pub(crate) fn push_event(out: &mut String, event: &Event) -> Result<(), AllocError>
    ensures { OnOk result (string_bytes out.new ≡ string_bytes out.old ++ event_text event.now) }
{
    match event {
        Event::Heard { ticket, reply } => {
            write!(out, "heard {ticket} ")?;
            push_reply(out, reply)
        }
        Event::Left { ticket } => write!(out, "left {ticket}"),
        Event::MaxRetx { port, way, number } => push_max_retx(out, *port, *way, *number),
        Event::Up { key, sdu } => {
            out.push_str("up")?;
            push_key(out, key)?;
            out.push_str(" ")?;
            push_hex(out, sdu.as_slice())
        }
        Event::Conf { key, confirmed } => {
            out.push_str("conf")?;
            push_key(out, key)?;
            write!(out, " {confirmed}")
        }
        Event::Rep { key } => {
            out.push_str("rep")?;
            push_key(out, key)
        }
    }
}

fn push_max_retx(out: &mut String, port: PortName, way: Way, number: u64) -> Result<(), AllocError>
    ensures { OnOk result
        (string_bytes out.new ≡ string_bytes out.old
        ++ event_text (Event.MaxRetx port way number)) }
{
    out.push_str("maxretx ")?;
    push_port(out, port)?;
    let way = way_text(way);
    write!(out, " {way} {number}")
}
