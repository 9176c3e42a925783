// The laws of a transmitter, whatever STATUS PDUs it hears.
ghost use Rattle.rlc_law.specs.Transmitter.{SendsWithin, ConfirmsReceived, StaysConfirmed};

/// A law: a data PDU has at most the octets granted.
pub fn transmitter_sends_within_its_grant()
    ensures { SendsWithin }
{}

/// A law: a STATUS that is carried out confirms exactly the unconfirmed numbers that it says received; and what is
/// confirmed stays so under every call, so the tag of each SDU is told once.
pub fn transmitter_confirms_what_is_received()
    ensures received { ConfirmsReceived }
    ensures stays { StaysConfirmed }
{}
