// Each step of a node is determined.
ghost use Rattle.node_law.specs.OneOutcome.{OnePush, OnePull, OneFeeding, OnePortGrant, OnePortExpiry, OneTarget, OnePdcpHearing, OneNodeHearing, NodesHearAlike, FeedsAlike};

/// A law: a push and a pull of the relay have one answer each, and leave one node.
pub fn relaying_has_one_outcome()
    ensures push { OnePush }
    ensures pull { OnePull }
{}

/// A law: a node that feeds its transmitters gives one list of reports, and leaves one node. Nodes that nothing tells apart
/// give the same reports, and leave such nodes.
pub fn feeding_has_one_outcome()
    ensures one { OneFeeding }
    ensures alike { FeedsAlike }
{}

/// A law: a port that is granted one PDU, and one whose timer is to run out, has one answer and leaves one node. For a grant
/// this is said where the node's receivers are sound.
pub fn a_port_has_one_outcome()
    ensures grant { OnePortGrant }
    ensures expiry { OnePortExpiry }
{}

/// A law: an SDU that a receiver completed leads to one target, over map rows in order and attachments that share neither a
/// remote nor a local identity.
pub fn an_sdu_leads_to_one_target()
    ensures { OneTarget }
{
    bearer_map::one_answer();
    srap_header::one_reading();
    srap_header::no_fault_where_read();
}

/// A law: a PDCP PDU that comes to an end of bearers has one answer, and leaves one node.
pub fn a_pdcp_pdu_has_one_answer()
    ensures { OnePdcpHearing }
{
    pdcp_pdu::one_reading();
    pdcp_pdu::no_fault_where_read();
}

/// A law: a PDU that comes to a node has one answer and leaves one state, as far as what is got of each RLC number, place by
/// place, and the variables tell. Nodes that nothing tells apart answer it alike, and leave such nodes. This is said over map
/// rows in order and attachments that share neither a remote nor a local identity.
pub fn hearing_has_one_outcome()
    ensures one { OneNodeHearing }
    ensures alike { NodesHearAlike }
{
    an_sdu_leads_to_one_target();
    a_pdcp_pdu_has_one_answer();
}
