// The laws of other crates on which those of direct runs stand.
ghost use Rattle.direct_run_law.specs.Foundations.{HopLaws, CallLaws, BookLaws, PdcpLaws};

use book_law::{
    an_honest_run_keeps_the_book, confirmed_numbers_are_told, hand_ups_are_told,
    receivers_have_what_was_heard, runs_pass_line_by_line, senders_keep_the_book,
};
use chain_law::{calls_keep_what_was_given, entities_are_those_of_ports, what_is_heard_was_given};
use pdcp_law::{hand_up_has_one_list, what_goes_up_is_the_hand_up};
use pdcp_pdu::{no_fault_where_read, one_reading, one_spelling_without_reserved_bits};
use rlc_law::{hop_is_reliable, port_goes_on, sdus_are_kept_as_given};

/// What rlc_law and chain_law prove of hops and of the entities of a chain.
pub(crate) fn laws_of_hops()
    ensures hops { HopLaws }
    ensures calls { CallLaws }
{
    port_goes_on();
    sdus_are_kept_as_given();
    hop_is_reliable();
    entities_are_those_of_ports();
    what_is_heard_was_given();
    calls_keep_what_was_given();
}

/// What book_law proves of each run, and what pdcp_pdu and pdcp_law prove of PDCP PDUs.
pub(crate) fn laws_of_books()
    ensures books { BookLaws }
    ensures pdus { PdcpLaws }
{
    one_reading();
    no_fault_where_read();
    one_spelling_without_reserved_bits();
    hand_up_has_one_list();
    what_goes_up_is_the_hand_up();
    runs_pass_line_by_line();
    senders_keep_the_book();
    confirmed_numbers_are_told();
    hand_ups_are_told();
    receivers_have_what_was_heard();
    an_honest_run_keeps_the_book();
}
