// The laws of other crates on which those of what is sent stand.
ghost use Rattle.carried_law.specs.Foundations.{EndLaws, SentLaws};
ghost use Rattle.heard_law.specs.Foundations.{HeardLaws, HearingLaws};

use book_law::{hand_ups_are_told, receivers_have_what_was_heard, senders_keep_the_book};
use chain_law::{calls_keep_what_was_given, laws_of_ports};
use node_law::an_sdu_leads_to_one_target;
use orderly_law::runs_keep_chains_orderly;
use pdcp_law::{reports_are_decided, what_goes_up_is_the_hand_up};
use pdcp_pdu::no_fault_where_read;
use rlc_law::{
    hop_is_reliable, pdus_are_pieces, port_goes_on, sdus_are_kept_as_given, status_is_true,
    what_is_complete_was_heard,
};
use rlc_pdu::reads_back;

/// What rlc_pdu, rlc_status, rlc_law and chain_law prove of PDUs, hops and entities.
fn laws_of_hearing()
    ensures { HeardLaws }
{
    rlc_pdu::one_reading();
    reads_back();
    pdus_are_pieces();
    port_goes_on();
    what_is_complete_was_heard();
    status_is_true();
    rlc_status::one_spelling();
    calls_keep_what_was_given();
    laws_of_ports();
}

/// What the laws of what is sent need of them.
pub fn laws_of_hops()
    ensures { SentLaws }
{
    laws_of_hearing();
    sdus_are_kept_as_given();
    hop_is_reliable();
}

/// What pdcp_pdu, pdcp_law, node_law and book_law prove of what the receiving end of a bearer hears.
fn laws_of_hearings()
    ensures { HearingLaws }
{
    pdcp_pdu::one_reading();
    no_fault_where_read();
    what_goes_up_is_the_hand_up();
    an_sdu_leads_to_one_target();
    hand_ups_are_told();
}

/// What the law of what is carried needs of the ends of bearers.
pub fn laws_of_ends()
    ensures { EndLaws }
{
    laws_of_hearings();
    senders_keep_the_book();
    receivers_have_what_was_heard();
    runs_keep_chains_orderly();
    reports_are_decided();
}
