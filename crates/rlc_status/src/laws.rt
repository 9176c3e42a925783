// What holds of the format alone.
ghost use Rattle.rlc_status.specs.Laws.{OneReading, NoFault, ReadOrRefused, OneFault, OneSpelling, SpeltFits, WorkedStatusSays};

/// A law: octets spell at most one STATUS.
pub fn one_reading()
    ensures { OneReading }
{}

/// A law: octets that spell a STATUS have no fault.
pub fn no_fault()
    ensures { NoFault }
{}

/// A law: octets spell a STATUS or have a fault.
pub fn read_or_refused()
    ensures { ReadOrRefused }
{}

/// A law: octets have at most one fault.
pub fn one_fault()
    ensures { OneFault }
{}

/// A law: a STATUS that the format can hold has one spelling with reserved bits 0, `encode_status`'s.
pub fn one_spelling()
    ensures { OneSpelling }
{}

/// A law: a STATUS that octets spell is one that the format can hold.
pub fn spelt_fits()
    ensures { SpeltFits }
{}

/// A law: the STATUS `0003800010`, where its ACK_SN stands for 3, says that 0 and 2 were received and 1 is missing.
pub fn worked_status_says()
    ensures { WorkedStatusSays }
{}
