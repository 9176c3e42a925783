// The laws of what arrives and what is handed up.
ghost use Rattle.item_law.specs.HandUps.{RelaysForOwner, ArrivesForOwner, RelayTakesAttached, GnbTakesAttached, RemoteTakesAll, HearsSubmitted, HandsUpPrefix, HandsUpAll, LiveInWindow, HeardInWindow};

/// A law: what the relay routes for a remote, and what the gNB or a remote takes for one, was given or injected for this same
/// remote. So nothing that a remote injects reaches a bearer of another one (TS 38.351 clauses 5.2 and 5.3). This holds of all
/// remotes.
pub fn items_arrive_for_their_owner()
    ensures relay { RelaysForOwner }
    ensures ends { ArrivesForOwner }
{}

/// A law: the relay and the gNB take what bears an identity that they attach, and a remote takes all that it hears. So of
/// clean remotes nothing is discarded but for an identity that the node doesn't attach (TS 38.351 clause 5.4).
pub fn only_unknown_identities_are_discarded()
    ensures relay { RelayTakesAttached }
    ensures gnb { GnbTakesAttached }
    ensures remote { RemoteTakesAll }
{}

/// A law: under each COUNT that a clean remote's key heard it heard the SDU submitted under it for this same key; what is
/// handed up, the SDUs of the longest run of COUNTs heard, is a prefix of what was submitted; and it is all of it where no plan
/// is open, no channel has failed since the last one, and nothing of the key is live or left to give (TS 38.323 clause 5.2.2.1).
pub fn what_was_submitted_is_handed_up()
    ensures heard { HearsSubmitted }
    ensures prefix { HandsUpPrefix }
    ensures all { HandsUpAll }
{}

/// A law: what is live of a clean remote's key, and what it heard, is within the bearer's limit behind what was handed up. So
/// with a limit of a window at most, an SN on its way stands for its own COUNT (TS 38.323 clause 7.2).
pub fn counts_are_within_the_window()
    ensures live { LiveInWindow }
    ensures heard { HeardInWindow }
{}
