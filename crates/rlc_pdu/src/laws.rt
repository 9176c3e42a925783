// Laws of the format.
ghost use Rattle.rlc_pdu.specs.Laws.{OneReading, ReadsBack, OneSpelling, FreeReserved, PduOrFault, NotBoth, OneFault};

/// A law: bytes spell one PDU at most.
pub fn one_reading()
    ensures { OneReading }
{}

/// A law: what is written has R bits 0, and spells the PDU that was written and no other.
pub fn reads_back()
    ensures { ReadsBack }
{}

/// A law: with R bits 0 a PDU has one spelling, that which is written.
pub fn one_spelling()
    ensures { OneSpelling }
{}

/// A law: R bits don't matter.
pub fn reserved_bits_are_free()
    ensures { FreeReserved }
{}

/// A law: bytes either spell a PDU or have just one fault.
pub fn pdu_or_fault()
    ensures either { PduOrFault }
    ensures not_both { NotBoth }
    ensures one_fault { OneFault }
{}
