// The text of SRAP data PDUs.
ghost use Rattle.std.specs.Prelude.{◌≡◌, ◌++◌, OnOk, IfOk, string_bytes};
ghost use Rattle.srap_header.specs.Srap.{srap_of};
ghost use Rattle.pdu_text.specs.Texts.{srap_text, srap_fault_text};
ghost use Rattle.pdu_text.specs.Explains.{AddsExplanation};

use crate::Form;
use crate::text::{push_body, push_refused};
use link_base::Memory;
use srap_header::{SrapFault, SrapView, read};
use std::alloc::AllocError;

/// Adds the text of the SRAP data PDU that bytes spell, or that of their first fault. Answers whether they spell one.
pub(crate) fn push_shown_srap(out: &mut String, bytes: &[u8]) -> Result<bool, Memory>
    ensures { IfOk result
        (λ read. AddsExplanation Form.Srap bytes.now read (string_bytes out.old)
        (string_bytes out.new)) }
{
    match read(bytes) {
        Ok(pdu) => {
            push_srap(out, &pdu)?;
            Ok(true)
        }
        Err(fault) => {
            push_refused(out, fault_text(fault))?;
            Ok(false)
        }
    }
}

fn push_srap(out: &mut String, pdu: &SrapView<'_>) -> Result<(), AllocError>
    ensures { OnOk result
        (string_bytes out.new ≡ string_bytes out.old ++ srap_text (srap_of pdu.now)) }
{
    let bearer = pdu.bearer;
    let ue = pdu.ue;
    write!(out, "srap bearer {bearer} ue {ue}")?;
    push_body(out, pdu.body)
}

/// The word for what is wrong with a SRAP data PDU.
fn fault_text(fault: SrapFault) -> &'static str
    ensures { result.now ≡ srap_fault_text fault }
{
    match fault {
        SrapFault::Short => "short",
        SrapFault::Control => "control",
        SrapFault::NoBody => "no-body",
    }
}
