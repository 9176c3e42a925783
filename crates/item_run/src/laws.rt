// The laws of standing runs.
ghost use Rattle.item_run.specs.Laws.{StandingLinesAreHonest, DeclaredTablesAreGood, OfItemRuns, OfStandingRuns};
ghost use Rattle.item_run.specs.Laws.{IsHonestRun, KeepsBooks, HasSoundReplies, HandsUpAllWhenQuiet};

use crate::foundations::{laws_of_books, laws_of_pdus, laws_of_tables};
use crate::switching_laws::settled_keys_hand_up_all;
use item_chain::runs_stand;

/// A law: where a ghost stands for the chain before a line, the line is honest to both keys of each bearer: a receiving end hears
/// of no SDU but those submitted, each under its COUNT and none too old, and each COUNT that RLC or a status report confirms is one
/// that the receiving end has. It holds of each line, whatever it does.
pub fn standing_lines_are_honest()
    ensures { StandingLinesAreHonest }
{
    laws_of_pdus();
}

/// A law: behind go the tables that the lines declared are such that items can stand for their chains: identities are of one
/// remote, a remote that begins on the relay has a map row for each bearer, and names and first COUNTs are in their ranges.
pub fn declared_tables_are_good()
    ensures { DeclaredTablesAreGood }
{
    laws_of_tables();
}

/// A law: where each line takes items by steps, the run keeps the book of each bearer in both ways: it hands up what was submitted,
/// in order from the first SDU on, confirms no more than was handed up, and has handed up and confirmed all behind a drain that is
/// answered `ok`.
pub fn runs_keep_the_book()
    ensures honest { OfItemRuns IsHonestRun }
    ensures book { OfItemRuns KeepsBooks }
{
    laws_of_pdus();
    laws_of_books();
    laws_of_tables();
    runs_stand();
}

/// A law: where in such a run no line switches a path, some replies never come: that RLC finds a PDU outside its window, in
/// conflict with what it holds, beyond what it sent or unreadable (TS 38.322 clauses 5.2.3.2 and 5.3.3); that PDCP finds an SDU
/// handed up before, stored already or without a COUNT (TS 38.323 clause 5.2.2); and that an SDU is discarded, as one without a
/// header, a route or a PDCP PDU, or a report of what wasn't submitted (TS 38.351 clause 5.2).
pub fn replies_that_never_come()
    ensures { OfStandingRuns HasSoundReplies }
{
    laws_of_pdus();
    laws_of_books();
    laws_of_tables();
    runs_stand();
}

/// A law: where no line of such a run switches a path, and the chain is quiet behind it, each bearer has handed up in both ways all
/// that was submitted: no plan is open.
pub fn quiet_runs_hand_up_all()
    ensures { OfStandingRuns HandsUpAllWhenQuiet }
{
    laws_of_books();
    settled_keys_hand_up_all();
}
