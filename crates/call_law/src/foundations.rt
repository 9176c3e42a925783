// The laws of other crates on which those of calls stand.
ghost use Rattle.call_law.specs.Foundations.{RunLaws};

use book_law::runs_pass_line_by_line;
use chain_law::numbers_stay_within_tickets;
use orderly_law::sides_are_found;
use table_law::tables_are_sound;
use tag_law::direct_ports_keep_their_tags;

/// What book_law, chain_law, orderly_law, tag_law and table_law prove of each run.
pub(crate) fn laws_of_runs()
    ensures { RunLaws }
{
    runs_pass_line_by_line();
    numbers_stay_within_tickets();
    sides_are_found();
    direct_ports_keep_their_tags();
    tables_are_sound();
}
