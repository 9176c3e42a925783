// The laws of other crates on which those of the refinement stand.
ghost use Rattle.item_chain.specs.Foundations.{PduLaws, RunLaws};

use book_law::runs_pass_line_by_line;
use pdcp_pdu::{no_fault_where_read, one_reading, one_spelling_without_reserved_bits};

/// What pdcp_pdu proves of how PDUs are read and spelt.
pub(crate) fn laws_of_pdus()
    ensures { PduLaws }
{
    one_reading();
    no_fault_where_read();
    one_spelling_without_reserved_bits();
}

/// What book_law proves of runs.
pub(crate) fn laws_of_runs()
    ensures { RunLaws }
{
    runs_pass_line_by_line();
}
