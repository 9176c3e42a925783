// The laws of runs that switch paths.
ghost use Rattle.item_run.specs.Laws.{OfItemRuns, OfRunsPastGo};
ghost use Rattle.item_run.specs.Laws.{DiscardsUnattachedAlone, GhostsHaveOneCopy, IsOneCopiedThroughout};
ghost use Rattle.item_run.specs.Laws.{HasOneCopyThroughout};
ghost use Rattle.item_run.specs.Laws.{PlansFindUnborne, RunsInWindows, AppliesFindFree, HandsUpSettledWhenQuiet};

use crate::foundations::{laws_of_books, laws_of_pdus, laws_of_tables};
use carried_law::{laws_of_ends, laws_of_hops};
use heard_law::histories_tell_the_chain;
use item_chain::runs_stand;

/// A law: where each line of a run takes items by steps, path switches among them, one of the replies comes that never come where
/// paths stand: an SDU may be discarded whose UE ID the node that hears it attaches to no remote (TS 38.351 clause 5.2). Each
/// discard is of that kind.
pub fn discards_are_of_unattached_identities()
    ensures { OfItemRuns DiscardsUnattachedAlone }
{
    laws_of_pdus();
    laws_of_books();
    laws_of_tables();
    runs_stand();
}

/// A law: at each moment of such a run behind go, whatever paths it switches, items stand for the chain of which each COUNT has one
/// copy: what a sender doesn't keep any more was heard; no COUNT is at two places from which it may still arrive, and none that was
/// heard; while a sender waits none is on its way, and a status report tells all; and while no plan is open each COUNT given was
/// heard or is on its way (TS 38.300 clause 16.12.6, TS 38.323 clauses 5.1.2 and 5.4.1). So each COUNT that a sending end doesn't
/// keep any more is one that the receiving end has.
pub fn counts_have_one_copy()
    ensures ghosts { GhostsHaveOneCopy }
    ensures runs { OfRunsPastGo IsOneCopiedThroughout }
{
    laws_of_pdus();
    laws_of_books();
    laws_of_tables();
    runs_stand();
}

/// A law: at each moment of such a run behind go the same holds of the chain's own places, for both keys of each bearer. A COUNT is
/// live at a number of a hop, in a slot or at a position of a queue, where each node ahead attaches its UE ID and each hop ahead
/// is open at both sides in one epoch; and it is heard where the PDUs that were delivered complete its SDU.
pub fn places_have_one_copy()
    ensures { OfRunsPastGo HasOneCopyThroughout }
{
    laws_of_pdus();
    laws_of_books();
    laws_of_tables();
    laws_of_hops();
    laws_of_ends();
    runs_stand();
}

/// A law: where in such a run a plan is accepted that asks for a local identity, no node attaches the identity, no other plan asks
/// for it, and no slot, queue or unconfirmed SDU of a Uu transmitter bears it. So no old PDU reaches a later holder of the identity
/// (TS 38.351 clause 5.2).
pub fn plans_find_identities_free()
    ensures { OfItemRuns PlansFindUnborne }
{
    laws_of_pdus();
    laws_of_books();
    laws_of_tables();
    runs_stand();
}

/// A law: while in such a run a plan is open that asks for a local identity, none of the three nodes attaches the identity to
/// another remote. So whichever node applies the plan next, it finds the identity free (TS 38.300 clause 16.12.6).
pub fn applies_find_identities_free()
    ensures { OfItemRuns AppliesFindFree }
{
    laws_of_pdus();
    laws_of_books();
    laws_of_tables();
    histories_tell_the_chain();
    runs_stand();
}

/// A law: at each moment of such a run each PDU on the air that an open side may be handed is read there under the number with which
/// it was made, a STATUS PDU with its own ACK_SN (TS 38.322 clause 7.1); and the SN of each PDCP data PDU that a receiving end hears
/// stands for a COUNT under which the sending end still keeps just this SDU (TS 38.323 clause 5.2.2.1).
pub fn numbers_are_within_windows()
    ensures { OfItemRuns RunsInWindows }
{
    laws_of_pdus();
    laws_of_books();
    laws_of_tables();
    runs_stand();
}

/// A law: where such a run leaves the chain quiet, each bearer whose remote has no open plan has handed up in both ways all that
/// was submitted, whatever paths were switched: nothing is on its way any more, what a purge dropped was given again, and what was
/// given and isn't on its way was heard (TS 38.323 clauses 5.1.2 and 5.4.1).
pub fn settled_keys_hand_up_all()
    ensures { OfItemRuns HandsUpSettledWhenQuiet }
{
    laws_of_pdus();
    laws_of_books();
    laws_of_tables();
    runs_stand();
}
