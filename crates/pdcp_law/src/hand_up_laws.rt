// The laws of what is handed up.
ghost use Rattle.pdcp_law.specs.HandUps.{OneHandUp, SomeHandUp, OneSdu};
ghost use Rattle.pdcp_law.specs.Submitted.{MoreMayBeSubmitted, OneMoreIsHeard, HeardAsSubmitted, GoesUpAsSubmitted};

/// A law: of data PDUs in an order one list of SDUs is handed up, and each COUNT was heard as one SDU (TS 38.323 clause
/// 5.2.2.1).
pub fn hand_up_has_one_list()
    ensures list { OneHandUp }
    ensures some { SomeHandUp }
    ensures sdu { OneSdu }
{}

/// A law: where each data PDU that is heard is of an SDU submitted before, under a COUNT near the one that is handed up next,
/// the SDUs are handed up as they were submitted and in order from the first one (TS 38.323 clause 5.2.2.1). More may be
/// submitted between two of them.
pub fn what_was_submitted_goes_up()
    ensures more { MoreMayBeSubmitted }
    ensures next { OneMoreIsHeard }
    ensures heard { HeardAsSubmitted }
    ensures up { GoesUpAsSubmitted }
{}
