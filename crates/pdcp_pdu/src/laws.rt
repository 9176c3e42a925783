// What holds of the format alone.
ghost use Rattle.pdcp_pdu.specs.Laws.{OneReading, NoFaultWhereRead, OneSpellingWithoutReservedBits, WhatIsReadFits};
ghost use Rattle.pdcp_pdu.specs.Reports.{WorkedReport};

/// A law: octets spell at most one PDU. So a PDU that is encoded is decoded again as it was.
pub fn one_reading()
    ensures { OneReading }
{}

/// A law: octets that spell a PDU have no fault.
pub fn no_fault_where_read()
    ensures { NoFaultWhereRead }
{}

/// A law: a PDU has one spelling whose reserved bits are 0, the one that is encoded.
pub fn one_spelling_without_reserved_bits()
    ensures { OneSpellingWithoutReservedBits }
{}

/// A law: a PDU that octets spell can be encoded.
pub fn what_is_read_fits()
    ensures { WhatIsReadFits }
{}

/// A law: a report with FMC 0 and the bitmap 11000000 says that COUNTs 1 and 2 were received, and no others.
pub fn worked_report()
    ensures { WorkedReport }
{}
