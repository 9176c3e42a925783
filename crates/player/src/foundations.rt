// The laws of other crates on which a run stands.
ghost use Rattle.player.specs.Foundations.{LineLaws, RunLaws};

use book_law::{confirmed_numbers_are_told, hand_ups_are_told, senders_keep_the_book};
use call_law::{chains_can_be_opened, steps_can_be_carried_out};
use carried_law::runs_are_carried;
use heard_law::reports_are_true;
use item_run::{quiet_runs_hand_up_all, replies_that_never_come, runs_keep_the_book};
use orderly_law::hand_ups_are_exact;

/// What is proved of the next line of a run: its tables can open a chain, and the chain can carry it out.
pub(crate) fn laws_of_lines()
    ensures { LineLaws }
{
    chains_can_be_opened();
    steps_can_be_carried_out();
}

/// What is proved of each run: it keeps the book of each bearer, which the ends of the bearer tell; it hands up what delivered
/// PDUs complete; its data PDUs carry what its ends gave; its STATUS PDUs are true; some replies never come; and where its chain
/// is quiet it has handed up all that was submitted.
pub(crate) fn laws_of_runs()
    ensures { RunLaws }
{
    senders_keep_the_book();
    confirmed_numbers_are_told();
    hand_ups_are_told();
    runs_keep_the_book();
    replies_that_never_come();
    quiet_runs_hand_up_all();
    hand_ups_are_exact();
    runs_are_carried();
    reports_are_true();
}
