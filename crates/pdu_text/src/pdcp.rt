// The text of PDCP PDUs.
ghost use Rattle.std.specs.Prelude.{◌≡◌, ◌++◌, OnOk, IfOk, string_bytes};
ghost use Rattle.pdcp_pdu.specs.Pdcp.{pdcp_of};
ghost use Rattle.pdu_text.specs.Texts.{pdcp_text, pdcp_fault_text};
ghost use Rattle.pdu_text.specs.Explains.{AddsExplanation};

use crate::Form;
use crate::text::{push_body, push_octets, push_refused};
use link_base::{Memory, SnSize};
use pdcp_pdu::{PdcpFault, PdcpView, decode_pdcp};
use std::alloc::AllocError;

/// Adds the text of the PDCP PDU that bytes spell, or that of their first fault. Answers whether they spell one.
pub(crate) fn push_shown_pdcp(out: &mut String, size: SnSize, bytes: &[u8]) -> Result<bool, Memory>
    ensures { IfOk result
        (λ read. AddsExplanation (Form.Pdcp size) bytes.now read (string_bytes out.old)
        (string_bytes out.new)) }
{
    match decode_pdcp(size, bytes) {
        Ok(pdu) => {
            push_pdcp(out, &pdu)?;
            Ok(true)
        }
        Err(fault) => {
            push_refused(out, fault_text(fault))?;
            Ok(false)
        }
    }
}

fn push_pdcp(out: &mut String, pdu: &PdcpView<'_>) -> Result<(), AllocError>
    ensures { OnOk result
        (string_bytes out.new ≡ string_bytes out.old ++ pdcp_text (pdcp_of pdu.now)) }
{
    match *pdu {
        PdcpView::Sdu { sn, body } => {
            write!(out, "sdu sn {sn}")?;
            push_body(out, body)
        }
        PdcpView::Report { fmc, map } => {
            write!(out, "report fmc {fmc} map ")?;
            push_octets(out, map)
        }
    }
}

/// The word for what is wrong with a PDCP PDU.
fn fault_text(fault: PdcpFault) -> &'static str
    ensures { result.now ≡ pdcp_fault_text fault }
{
    match fault {
        PdcpFault::Short => "short",
        PdcpFault::ReservedType => "reserved-type",
        PdcpFault::Empty => "empty",
        PdcpFault::Long => "long",
    }
}
