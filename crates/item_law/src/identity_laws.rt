// The laws of local identities and of path switches.
ghost use Rattle.item_law.specs.Switches.{IdsApart, IdsHaveRows, HeldForOwner, HeldAsAttached, AppliedWaits, NothingOfPlan, NothingUnderPlan, PlannedIdIsFree};

/// A law: a local identity that a node attaches to a remote, or that the remote's open plan asks for, is of no other remote;
/// and each bearer of such a remote has its row in the relay's mapping (TS 38.351 clause 5.2). This holds of all remotes, clean
/// or not.
pub fn identities_are_apart()
    ensures apart { IdsApart }
    ensures rows { IdsHaveRows }
{}

/// A law: what a transmitter, a slot or a queue holds under a remote's identity is of this remote; and if the remote is clean,
/// it was given in the epoch in which the remote got the identity. On a PC5 hop, in a slot and in the queue of a PC5 port it
/// bears the identity that the node attaches to the remote of the port or of the slot's route. This holds of all remotes.
pub fn what_is_held_is_its_owners()
    ensures owner { HeldForOwner }
    ensures attached { HeldAsAttached }
{}

/// A law: while a plan of a clean remote is open, its senders at an end that has applied it wait, nothing was given in the
/// plan's epoch, and nothing is held under the identity that it asks for (TS 38.300 clause 16.12.6).
pub fn open_plans_have_given_nothing()
    ensures waits { AppliedWaits }
    ensures epoch { NothingOfPlan }
    ensures identity { NothingUnderPlan }
{}

/// A law: where a plan that asks for an identity is accepted, no node attaches the identity, and no transmitter, slot or queue
/// holds anything under it. So no old PDU reaches a later holder of the identity. This holds of all remotes.
pub fn planned_identities_are_free()
    ensures { PlannedIdIsFree }
{}
