// The laws of one copy.
ghost use Rattle.item_law.specs.OneCopy.{ConfirmsHeard, LiveOnce, LiveUnheard, NoneLiveInWait, ReportsNameHeard, WaitEnds, GivenArrives, PlaceIsNext};
ghost use Rattle.item_law.specs.Recovery.{HearsSecondCopy};

/// A law: a COUNT that the sender of a clean remote doesn't keep any more was heard at the receiving end. So what a relay
/// acknowledged and then discarded is still kept (TS 38.323 clause 5.4.1).
pub fn confirmed_counts_were_heard()
    ensures { ConfirmsHeard }
{}

/// A law: no COUNT of a clean remote is at two live places, that is, in two transmitters, slots or queues from which it may
/// still arrive; and no live COUNT was heard. So no SDU is handed up twice, and none is heard in a second copy.
pub fn counts_have_one_live_copy()
    ensures once { LiveOnce }
    ensures unheard { LiveUnheard }
{}

/// A law: while a sender of a clean remote waits for a status report, no COUNT is live where both its ends are in one epoch;
/// and each live status report names all that was heard. So the first one that arrives tells what is to be given again, and
/// what is given then has no older copy on its way (TS 38.323 clauses 5.1.2 and 5.4.1).
pub fn waiting_senders_have_nothing_live()
    ensures sdus { NoneLiveInWait }
    ensures reports { ReportsNameHeard }
{}

/// A law: where no plan of a clean remote is open, and no channel has failed under it since its last one, a sender that waits
/// has a status report that is wanted or live; and of one that doesn't wait each COUNT that it gave was heard or is live. So
/// nothing is lost that isn't given again (TS 38.300 clause 16.12.6).
pub fn given_counts_arrive()
    ensures waits { WaitEnds }
    ensures given { GivenArrives }
{}

/// A law: of a sender of a clean remote that doesn't wait no COUNT is live from its place on, and each one from there on that
/// was heard is confirmed. So it never gives what is on its way or was heard.
pub fn places_are_next()
    ensures { PlaceIsNext }
{}

/// A law, shown by a run: an SDU is given over the relay and arrives there, is purged as its remote switches to its direct path
/// (TS 38.300 clause 16.12.6), and is heard over that path from a second copy, once a status report told that it is missing.
/// So the steps reach what the other laws speak of.
pub fn a_purged_copy_is_given_again()
    ensures { HearsSecondCopy }
{}
