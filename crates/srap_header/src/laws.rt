// What holds of the format alone.
ghost use Rattle.srap_header.specs.Laws.{OneReading, NoFaultWhereRead, OneSpellingWithoutReservedBits, WhatIsReadFits};

/// A law: octets spell at most one PDU. So a PDU that is written is read again as it was.
pub fn one_reading()
    ensures { OneReading }
{}

/// A law: octets that spell a PDU have no fault.
pub fn no_fault_where_read()
    ensures { NoFaultWhereRead }
{}

/// A law: a PDU has one spelling whose reserved bits are 0, the one that is written.
pub fn one_spelling_without_reserved_bits()
    ensures { OneSpellingWithoutReservedBits }
{}

/// A law: a PDU that octets spell can be written.
pub fn what_is_read_fits()
    ensures { WhatIsReadFits }
{}
