// The laws of other crates on which those of runs stand.
ghost use Rattle.item_chain.specs.Foundations.{PduLaws};
ghost use Rattle.item_run.specs.Foundations.{BookLaws, TableLaws};

use book_law::{
    an_honest_run_keeps_the_book, hand_ups_are_told, runs_pass_line_by_line, senders_keep_the_book,
};
use pdcp_pdu::{no_fault_where_read, one_reading, one_spelling_without_reserved_bits};
use table_law::{tables_are_mapped, tables_are_sound};

/// What pdcp_pdu proves of how PDUs are read and spelt.
pub(crate) fn laws_of_pdus()
    ensures { PduLaws }
{
    one_reading();
    no_fault_where_read();
    one_spelling_without_reserved_bits();
}

/// What book_law proves of each run.
pub(crate) fn laws_of_books()
    ensures { BookLaws }
{
    runs_pass_line_by_line();
    senders_keep_the_book();
    hand_ups_are_told();
    an_honest_run_keeps_the_book();
}

/// What table_law proves of the tables of runs.
pub(crate) fn laws_of_tables()
    ensures { TableLaws }
{
    tables_are_sound();
    tables_are_mapped();
}
