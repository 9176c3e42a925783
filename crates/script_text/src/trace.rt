// The lines of a trace.
ghost use Rattle.std.specs.Prelude.{◌≡◌, ◌++◌, OnOk, string_bytes};
ghost use Rattle.script_text.specs.Texts.{answer_text, bad_text, done_text, entry_text, event_line, is_printed, too_long_text, total_text, totals_text};

use crate::event_texts::push_event;
use crate::reply_texts::push_reply;
use crate::text::push_key;
use crate::{Event, Line, Reply};
use link_base::{ItemList, Key};
use std::alloc::AllocError;

/// What became of a key in a run.
#[derive(Clone, Copy, Debug, PartialEq, Eq)]
pub struct Total {
    /// The bearer and the way.
    pub key: Key,
    /// How many SDUs were submitted.
    pub submitted: u64,
    /// How many SDUs were handed up.
    pub handed: u64,
    /// How many of its first SDUs are confirmed.
    pub confirmed: u64,
}

/// Totals in the order of their keys.
pub type TotalList = ItemList<Total>;

/// Adds what a line prints: its events and its reply, each a line of its own; nothing for the version, table lines and `end`.
pub fn push_answer(
    out: &mut String,
    line: &Line,
    events: &[Event],
    reply: &Reply,
) -> Result<(), AllocError>
    ensures { OnOk result
        (string_bytes out.new ≡ string_bytes out.old ++ entry_text line.now events.now reply.now) }
{
    if is_printed(line) {
        push_events_and_reply(out, events, reply)
    } else {
        Ok(())
    }
}

/// Whether a line's answer is printed.
fn is_printed(line: &Line) -> bool
    ensures { result ≡ is_printed line.now }
{
    match line {
        Line::Submit { .. }
        | Line::Grant { .. }
        | Line::Deliver { .. }
        | Line::Repeat { .. }
        | Line::Lose { .. }
        | Line::Stage { .. }
        | Line::Expire { .. }
        | Line::Push { .. }
        | Line::Pull { .. }
        | Line::Burst
        | Line::Report { .. }
        | Line::Plan { .. }
        | Line::Apply { .. }
        | Line::Drain => true,
        _ => false,
    }
}

fn push_events_and_reply(
    out: &mut String,
    events: &[Event],
    reply: &Reply,
) -> Result<(), AllocError>
    ensures { OnOk result
        (string_bytes out.new ≡ string_bytes out.old ++ answer_text events.now reply.now) }
{
    for event in events {
        push_event_line(out, event)?;
    }
    push_reply(out, reply)?;
    out.push_str("\n")
}

fn push_event_line(out: &mut String, event: &Event) -> Result<(), AllocError>
    ensures { OnOk result (string_bytes out.new ≡ string_bytes out.old ++ event_line event.now) }
{
    out.push_str("  ")?;
    push_event(out, event)?;
    out.push_str("\n")
}

/// Adds the last line of a run that stops at a bad line: its number, from 1, and the word of the reason.
pub fn push_bad_line(out: &mut String, number: u64, reason: &str) -> Result<(), AllocError>
    ensures { OnOk result
        (string_bytes out.new ≡ string_bytes out.old ++ bad_text number reason.now) }
{
    write!(out, "bad {number} {reason}\n")
}

/// Adds the last line of a run that meets a line past the script's greatest length.
pub fn push_too_long(out: &mut String) -> Result<(), AllocError>
    ensures { OnOk result (string_bytes out.new ≡ string_bytes out.old ++ too_long_text) }
{
    out.push_str("too long\n")
}

fn push_total(out: &mut String, total: &Total) -> Result<(), AllocError>
    ensures { OnOk result (string_bytes out.new ≡ string_bytes out.old ++ total_text total.now) }
{
    let submitted = total.submitted;
    let handed = total.handed;
    let confirmed = total.confirmed;
    out.push_str("total")?;
    push_key(out, &total.key)?;
    write!(out, " {submitted} {handed} {confirmed}\n")
}

fn push_totals(out: &mut String, totals: &[Total]) -> Result<(), AllocError>
    ensures { OnOk result (string_bytes out.new ≡ string_bytes out.old ++ totals_text totals.now) }
{
    for total in totals {
        push_total(out, total)?;
    }
    Ok(())
}

/// Adds the totals of a run that came to its end, and its last line.
pub fn push_totals_and_done(out: &mut String, totals: &[Total]) -> Result<(), AllocError>
    ensures { OnOk result
        (string_bytes out.new ≡ string_bytes out.old ++ totals_text totals.now ++ done_text) }
{
    push_totals(out, totals)?;
    out.push_str("done\n")
}
