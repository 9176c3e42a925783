// The forms of PDUs, and their names.
ghost use Rattle.std.specs.Prelude.{◌≡◌, ◌≢◌, IfSome, IfNone};
ghost use Rattle.pdu_text.specs.declared.form.Form.{Form as AForm};
ghost use Rattle.pdu_text.specs.Forms.{form_text};

use link_base::SnSize;

/// The format that bytes are read in.
#[derive(Clone, Copy, Debug, PartialEq, Eq)]
pub enum Form {
    /// An AMD PDU with sequence numbers of this size (TS 38.322 clause 6.2.2.4).
    Amd(SnSize),
    /// A STATUS PDU with sequence numbers of this size (TS 38.322 clause 6.2.2.5).
    Status(SnSize),
    /// A PDCP data PDU or status report, with sequence numbers of this size (TS 38.323 clauses 6.2.2 and 6.2.3.1).
    Pdcp(SnSize),
    /// A SRAP data PDU (TS 38.351 clause 6.2.2).
    Srap,
}

/// The form with this name: `amd12`, `amd18`, `status12`, `status18`, `pdcp12`, `pdcp18` or `srap`.
pub fn form_of(word: &[u8]) -> Option<Form>
    ensures found { IfSome result (λ form. form_text form ≡ word.now) }
    ensures none { IfNone result ((form : AForm) → form_text form ≢ word.now) }
    ensures named { (form : AForm) → form_text form ≡ word.now → result ≡ Some form }
{
    match word {
        b"amd12" => Some(Form::Amd(SnSize::S12)),
        b"amd18" => Some(Form::Amd(SnSize::S18)),
        b"status12" => Some(Form::Status(SnSize::S12)),
        b"status18" => Some(Form::Status(SnSize::S18)),
        b"pdcp12" => Some(Form::Pdcp(SnSize::S12)),
        b"pdcp18" => Some(Form::Pdcp(SnSize::S18)),
        b"srap" => Some(Form::Srap),
        _ => None,
    }
}
