// The laws of runs on direct ports.
ghost use Rattle.direct_run_law.specs.Laws.{DirectRunsAreHonest, DirectRunsKeepBook, DirectPortsKeepOwnTags};

use crate::foundations::{laws_of_books, laws_of_hops};

/// A law: where each remote begins on its direct path and no line plans or applies a switch of paths, each line is honest to both
/// keys of each bearer: a receiving end hears of no SDU but those submitted, each under its COUNT, and each COUNT that is
/// confirmed is one that the receiving end has.
pub fn direct_runs_are_honest()
    ensures { DirectRunsAreHonest }
{
    laws_of_hops();
    laws_of_books();
}

/// A law: such a run keeps the book of each bearer in both ways: it hands up what was submitted, in order from the first SDU
/// on, confirms no more than was handed up, and has handed up and confirmed all behind a drain that is answered `ok`.
pub fn the_book_is_kept_on_direct_ports()
    ensures { DirectRunsKeepBook }
{
    laws_of_hops();
    laws_of_books();
}

/// A law: where the tables have no channels of the relay either, each open port of such a run is a direct one, and the
/// transmitter of each of its sides keeps data PDUs of that key alone which the side sends.
pub fn direct_ports_keep_their_own_tags()
    ensures { DirectPortsKeepOwnTags }
{
    laws_of_hops();
    laws_of_books();
}
