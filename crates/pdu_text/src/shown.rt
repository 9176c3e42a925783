// The text of a PDU of any form.
ghost use Rattle.std.specs.Prelude.{IfOk, string_bytes};
ghost use Rattle.pdu_text.specs.Explains.{AddsExplanation};

use crate::Form;
use crate::amd::push_shown_amd;
use crate::pdcp::push_shown_pdcp;
use crate::srap::push_shown_srap;
use crate::status::push_shown_status;
use link_base::Memory;
use std::alloc::Global;

/// Adds the text of the PDU that bytes spell in a form, in lines that each end with an LF. Where they spell none, it adds
/// the line `refused` with the word for their first fault. Answers whether they spell one.
///
/// It fails only for want of memory, and then a part of the text may be added.
pub fn push_shown(alloc: Global, out: &mut String, form: Form, bytes: &[u8]) -> Result<bool, Memory>
    ensures { IfOk result
        (λ read. AddsExplanation form bytes.now read (string_bytes out.old)
        (string_bytes out.new)) }
{
    match form {
        Form::Amd(size) => push_shown_amd(out, size, bytes),
        Form::Status(size) => push_shown_status(alloc, out, size, bytes),
        Form::Pdcp(size) => push_shown_pdcp(out, size, bytes),
        Form::Srap => push_shown_srap(out, bytes),
    }
}
