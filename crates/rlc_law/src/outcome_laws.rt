// Each step of an entity is determined.
ghost use Rattle.rlc_law.specs.OneOutcome.{OneHearing, OneReport, OneReassemblyExpiry, OneGiving, OneGrant, OneStatusHearing, OnePollExpiry};

/// A law: each step of a receiver has at most one answer and leaves one state, as far as what is got of each number, place
/// by place, and the variables tell. For a STATUS that is made this is said of a sound receiver.
pub fn receiver_has_one_outcome()
    ensures hearing { OneHearing }
    ensures report { OneReport }
    ensures expiry { OneReassemblyExpiry }
{}

/// A law: each step of a transmitter has at most one answer and leaves one state.
pub fn transmitter_has_one_outcome()
    ensures giving { OneGiving }
    ensures grant { OneGrant }
    ensures status { OneStatusHearing }
    ensures expiry { OnePollExpiry }
{}
