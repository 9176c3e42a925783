// What holds of explanations alone.
ghost use Rattle.pdu_text.specs.Laws.{AllExplained, OneExplanation};

/// A law: bytes have at most one explanation in a form, so they are a PDU of it or refused, and one text tells which.
pub fn one_explanation()
    ensures { OneExplanation }
{}

/// A law: octets have an explanation in each form.
pub fn all_explained()
    ensures { AllExplained }
{}
