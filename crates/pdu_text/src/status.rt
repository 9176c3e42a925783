// The text of STATUS PDUs.
ghost use Rattle.std.specs.Prelude.{◌≡◌, ◌++◌, OnOk, IfOk, string_bytes};
ghost use Rattle.std.specs.List.{flat_map};
ghost use Rattle.pdu_text.specs.Texts.{line_of, nack_text, part_text, range_text, status_text, status_words};
ghost use Rattle.pdu_text.specs.Explains.{AddsExplanation};

use crate::Form;
use crate::text::push_refused;
use link_base::{Memory, SnSize};
use rlc_status::{Nack, Status, StatusFault, decode_status};
use script_text::status_fault_text;
use std::alloc::{AllocError, Global};

/// Adds the text of the STATUS PDU that bytes spell, or that of their first fault. Answers whether they spell one.
pub(crate) fn push_shown_status(
    alloc: Global,
    out: &mut String,
    size: SnSize,
    bytes: &[u8],
) -> Result<bool, Memory>
    ensures { IfOk result
        (λ read. AddsExplanation (Form.Status size) bytes.now read (string_bytes out.old)
        (string_bytes out.new)) }
{
    match decode_status(alloc, size, bytes) {
        Ok(status) => {
            push_status(out, &status)?;
            Ok(true)
        }
        Err(StatusFault::Memory) => Err(Memory),
        Err(fault) => {
            push_refused(out, status_fault_text(fault))?;
            Ok(false)
        }
    }
}

fn push_status(out: &mut String, status: &Status) -> Result<(), AllocError>
    ensures { OnOk result (string_bytes out.new ≡ string_bytes out.old ++ status_text status.now) }
{
    push_acknowledgement(out, status)?;
    push_nacks(out, status.nacks.as_slice())
}

/// Adds the first line: ACK_SN, and how many elements there are.
fn push_acknowledgement(out: &mut String, status: &Status) -> Result<(), AllocError>
    ensures { OnOk result
        (string_bytes out.new ≡ string_bytes out.old ++ line_of (status_words status.now)) }
{
    let ack = status.ack;
    let nacks = status.nacks.len();
    write!(out, "status ack {ack} nacks {nacks}\n")
}

fn push_nacks(out: &mut String, nacks: &[Nack]) -> Result<(), AllocError>
    ensures { OnOk result
        (string_bytes out.new ≡ string_bytes out.old ++ flat_map nack_text nacks.now) }
{
    for nack in nacks {
        push_nack(out, nack)?;
    }
    Ok(())
}

fn push_nack(out: &mut String, nack: &Nack) -> Result<(), AllocError>
    ensures { OnOk result (string_bytes out.new ≡ string_bytes out.old ++ nack_text nack.now) }
{
    let sn = nack.sn;
    write!(out, "nack {sn} part ")?;
    push_part(out, nack.part)?;
    out.push_str(" range ")?;
    push_range(out, nack.range)?;
    out.push_str("\n")
}

/// Adds the places of the first and the last missing byte, or a dash where all are missing.
fn push_part(out: &mut String, part: Option<(u16, u16)>) -> Result<(), AllocError>
    ensures { OnOk result (string_bytes out.new ≡ string_bytes out.old ++ part_text part) }
{
    match part {
        Some((start, end)) => write!(out, "{start}-{end}"),
        None => out.push_str("-"),
    }
}

/// Adds how many SDUs are named, or a dash where there is no range.
fn push_range(out: &mut String, range: Option<u8>) -> Result<(), AllocError>
    ensures { OnOk result (string_bytes out.new ≡ string_bytes out.old ++ range_text range) }
{
    match range {
        Some(range) => write!(out, "{range}"),
        None => out.push_str("-"),
    }
}
