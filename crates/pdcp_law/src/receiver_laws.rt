// The laws of a receiving side.
ghost use Rattle.pdcp_law.specs.Hearings.{OneHearing, SomeHearing, HandsUpTheHandUp, EachIsHeard, ReportsWhatWasHeard, TestsReports};

/// A law: an SDU that comes with an SN of the receiving side's size has one answer, and leaves one receiving side (TS 38.323
/// clause 5.2.2.1).
pub fn hearing_has_one_answer()
    ensures one { OneHearing }
    ensures some { SomeHearing }
{}

/// A law: over any list of data PDUs, what a receiving side has handed up are the SDUs of the longest run of COUNTs from the
/// first one on that were heard. A data PDU is heard under each COUNT that its SN has (TS 38.323 clause 5.2.2.1).
pub fn what_goes_up_is_the_hand_up()
    ensures handed { HandsUpTheHandUp }
    ensures heard { EachIsHeard }
{}

/// A law: the status report of a receiving side says that a COUNT from the first one on was received exactly where it was
/// heard (TS 38.323 clause 5.4.1).
pub fn reports_name_what_was_heard()
    ensures { ReportsWhatWasHeard }
{}

/// A law: the test of a status report tells what the report says of a COUNT (TS 38.323 clauses 6.3.9 and 6.3.10).
pub fn reports_are_decided()
    ensures { TestsReports }
{}
