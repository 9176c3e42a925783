// Pieces of text that formats share.
ghost use Rattle.std.specs.Prelude.{◌≡◌, [], ◌∷◌, ◌++◌, OnOk, string_bytes, codes};
ghost use Rattle.script_text.specs.Fields.{spaced};
ghost use Rattle.script_text.specs.Words.{hex_text};
ghost use Rattle.pdu_text.specs.Texts.{refused_text};

use script_text::push_hex;
use std::alloc::AllocError;

/// Adds the body of a PDU, with which its line ends.
pub(crate) fn push_body(out: &mut String, body: &[u8]) -> Result<(), AllocError>
    ensures { OnOk result
        (string_bytes out.new ≡ string_bytes out.old
        ++ spaced (codes "body" ∷ hex_text body.now ∷ []) ++ 10 ∷ []) }
{
    out.push_str(" body ")?;
    push_octets(out, body)
}

/// Adds octets, with which their line ends.
pub(crate) fn push_octets(out: &mut String, octets: &[u8]) -> Result<(), AllocError>
    ensures { OnOk result
        (string_bytes out.new ≡ string_bytes out.old ++ hex_text octets.now ++ 10 ∷ []) }
{
    push_hex(out, octets)?;
    out.push_str("\n")
}

/// Adds the line for bytes with a fault that has this word.
pub(crate) fn push_refused(out: &mut String, fault: &str) -> Result<(), AllocError>
    ensures { OnOk result (string_bytes out.new ≡ string_bytes out.old ++ refused_text fault.now) }
{
    write!(out, "refused {fault}\n")
}
