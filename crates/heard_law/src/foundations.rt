// The laws of other crates on which those of what is heard stand.
ghost use Rattle.heard_law.specs.Foundations.{HeardLaws, HearingLaws};

use book_law::hand_ups_are_told;
use chain_law::{calls_keep_what_was_given, laws_of_ports};
use node_law::an_sdu_leads_to_one_target;
use pdcp_law::what_goes_up_is_the_hand_up;
use rlc_law::{pdus_are_pieces, port_goes_on, status_is_true, what_is_complete_was_heard};
use rlc_pdu::{one_reading, reads_back};

/// What rlc_pdu, rlc_status, rlc_law and chain_law prove of PDUs, hops and entities.
pub(crate) fn laws_of_hops()
    ensures { HeardLaws }
{
    one_reading();
    reads_back();
    pdus_are_pieces();
    port_goes_on();
    what_is_complete_was_heard();
    status_is_true();
    rlc_status::one_spelling();
    calls_keep_what_was_given();
    laws_of_ports();
}

/// What pdcp_pdu, pdcp_law, node_law and book_law prove of what the receiving end of a bearer hears.
pub(crate) fn laws_of_hearings()
    ensures { HearingLaws }
{
    pdcp_pdu::one_reading();
    pdcp_pdu::no_fault_where_read();
    what_goes_up_is_the_hand_up();
    an_sdu_leads_to_one_target();
    hand_ups_are_told();
}
