// The laws of what a history tells.
ghost use Rattle.heard_law.specs.Laws.{HistoriesTellTheChain, RunsTellTheChain, NodesLeadAsTold};
ghost use Rattle.heard_law.specs.Tickets.{TicketsHeardAreTold};
ghost use Rattle.heard_law.specs.Delivering.{DeliversWhatComes};
ghost use Rattle.heard_law.specs.Receiving.{ReceiversHaveWhatWasDelivered};
ghost use Rattle.heard_law.specs.HandingUp.{OrderlyHandUpsAreExact};
ghost use Rattle.heard_law.specs.Reporting.{ReportsAreTrue};

use crate::foundations::{laws_of_hearings, laws_of_hops};
use chain_law::what_is_heard_was_given;

/// A law: behind each line of each run, those of a drain among them, a PDU on the air is the one that the grant showed which sent
/// it, with the epoch of its sending side; each node attaches to each remote the local identity that the remote's plans say; and
/// each open side of a port is in the epoch that counts the plans which its node applied (TS 38.300 clause 16.12.6). So an SDU that
/// a node completed leads where it leads by what the history tells (TS 38.351 clause 5.2).
pub fn histories_tell_the_chain()
    ensures lines { HistoriesTellTheChain }
    ensures runs { RunsTellTheChain }
    ensures leads { NodesLeadAsTold }
{}

/// A law: a history tells of a line that a ticket's PDU was heard by it exactly where it was: the line brings the PDU from the air
/// and the side that it goes to takes it, or the line is a burst that shows it as heard, and an ingress port of the relay took it.
pub fn heard_tickets_are_told()
    ensures { TicketsHeardAreTold }
{}

/// A law: each data PDU that an entity hears by a line is one that the history delivers by that line over the entity's hop, in its
/// epoch, under the number that the PDU was given, and with the fields that the entity read (TS 38.322 clause 5.2.3.2.2).
pub fn what_comes_is_delivered()
    ensures { DeliversWhatComes }
{
    what_is_heard_was_given();
}

/// A law: behind each run, whatever its lines, what an open receiver has of its hop and epoch is what the history delivers over
/// that hop: a number is complete exactly where its PDUs were heard, and as one SDU; of another number a byte is
/// held, and the length known, exactly where a PDU that was delivered has it (TS 38.322 clause 5.2.3.2).
pub fn receivers_have_what_was_delivered()
    ensures { ReceiversHaveWhatWasDelivered }
{
    laws_of_hops();
}

/// A law: behind each run, whatever its lines, what was handed up of each key is at each moment the SDUs of the longest run of
/// COUNTs from the first one on that the bytes of the delivered PDUs complete (TS 38.323 clause 5.2.2.1). It is said where each
/// chain is orderly, so that an SDU leads to one target.
pub fn orderly_hand_ups_are_exact()
    ensures { OrderlyHandUpsAreExact }
{
    laws_of_hops();
    laws_of_hearings();
}

/// A law: each STATUS PDU that a run sends, at an end or at the relay, is true of the PDUs delivered before it: a number said
/// received was heard, one that is named wasn't, and of that the places said missing are those that no PDU has a byte for (TS
/// 38.322 clause 5.3.4).
pub fn reports_are_true()
    ensures { ReportsAreTrue }
{
    laws_of_hops();
}
