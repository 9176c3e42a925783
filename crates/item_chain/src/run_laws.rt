// The laws of runs.
ghost use Rattle.item_chain.specs.Fed.{ReportsTellAll};
ghost use Rattle.item_chain.specs.Runs.{FeedingGoesByItemSteps, StepsGoByItemSteps, PastsStand, PastsAreRemembered, RunsStand};

use crate::foundations::laws_of_runs;
use crate::laws::{lines_go_by_item_steps, opened_chains_stand};

/// A law: where a ghost stands for a chain, the status report of each receiving end can tell of all that is stored: no more SDUs
/// were submitted than may be unconfirmed behind the first one that isn't heard (TS 38.323 clauses 5.4.1 and 7.2).
pub fn reports_tell_all()
    ensures { ReportsTellAll }
{}

/// A law: where a ghost stands for a chain, what the ends give to their transmitters is what steps of its items do, on the direct
/// path and over the relay; so is each of the lines that `lines_go_by_item_steps` names, with the feeding behind it. The
/// ghost that they leave stands for the chain behind (TS 38.323 clauses 5.2.1 and 5.4.1).
pub fn steps_go_by_item_steps()
    ensures feeding { FeedingGoesByItemSteps }
    ensures steps { StepsGoByItemSteps }
{
    lines_go_by_item_steps();
}

/// A law: in each run over good tables whose lines are such ones, drains among them, a ghost stands for the chain behind each
/// line, to which steps of items have led from the ghost without items that stands for the chain that the tables open. One does
/// that remembers what transmitters kept, also where their sides are closed by now: the hop of a port in an epoch was given, under
/// its number, whatever SDU its transmitter had behind some line.
pub fn runs_stand()
    ensures lines { PastsStand }
    ensures memory { PastsAreRemembered }
    ensures runs { RunsStand }
{
    laws_of_runs();
    opened_chains_stand();
    steps_go_by_item_steps();
}
