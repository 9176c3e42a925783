// The text of AMD PDUs.
ghost use Rattle.std.specs.Prelude.{◌≡◌, ◌++◌, OnOk, IfOk, string_bytes};
ghost use Rattle.rlc_pdu.specs.Amd.{amd_of};
ghost use Rattle.pdu_text.specs.Texts.{amd_text, si_text};
ghost use Rattle.pdu_text.specs.Explains.{AddsExplanation};

use crate::Form;
use crate::text::{push_body, push_refused};
use link_base::{Memory, SnSize};
use rlc_pdu::{AmdView, Si, decode_amd};
use script_text::amd_fault_text;
use std::alloc::AllocError;

/// Adds the text of the AMD PDU that bytes spell, or that of their first fault. Answers whether they spell one.
pub(crate) fn push_shown_amd(out: &mut String, size: SnSize, bytes: &[u8]) -> Result<bool, Memory>
    ensures { IfOk result
        (λ read. AddsExplanation (Form.Amd size) bytes.now read (string_bytes out.old)
        (string_bytes out.new)) }
{
    match decode_amd(size, bytes) {
        Ok(pdu) => {
            push_amd(out, &pdu)?;
            Ok(true)
        }
        Err(fault) => {
            push_refused(out, amd_fault_text(fault))?;
            Ok(false)
        }
    }
}

fn push_amd(out: &mut String, pdu: &AmdView<'_>) -> Result<(), AllocError>
    ensures { OnOk result
        (string_bytes out.new ≡ string_bytes out.old ++ amd_text (amd_of pdu.now)) }
{
    let sn = pdu.sn;
    let poll = u8::from(pdu.poll);
    let si = si_text(pdu.si);
    let so = pdu.so;
    write!(out, "amd sn {sn} poll {poll} si {si} so {so}")?;
    push_body(out, pdu.body)
}

/// The word for the part of an SDU that a PDU carries.
fn si_text(si: Si) -> &'static str
    ensures { result.now ≡ si_text si }
{
    match si {
        Si::Whole => "whole",
        Si::First => "first",
        Si::Last => "last",
        Si::Middle => "middle",
    }
}
