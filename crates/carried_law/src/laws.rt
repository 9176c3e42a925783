// The laws of what a run sends.
ghost use Rattle.carried_law.specs.Carrying.{RunsAreCarried};
ghost use Rattle.carried_law.specs.Order.{SentNumbersBeginInOrder};
ghost use Rattle.carried_law.specs.Pieces.{SentPdusArePieces};

use crate::foundations::{laws_of_ends, laws_of_hops};

/// A law: in each run, whatever its lines, there is one SDU for each number of a port in a way and an epoch, and each data PDU
/// that is sent under this number is read by the format with the port's SNs, has the number's SN, and is a piece of that SDU (TS
/// 38.322 clauses 5.2.3.1 and 6.2.2.4).
pub fn sent_pdus_are_pieces()
    ensures { SentPdusArePieces }
{
    laws_of_hops();
}

/// A law: in each run, whatever its lines, each data PDU of a number above 0 is sent behind one of the number below, over the same
/// port in the same way and epoch (TS 38.322 clause 5.2.3.1.1).
pub fn sent_numbers_begin_in_order()
    ensures { SentNumbersBeginInOrder }
{
    laws_of_hops();
}

/// A law: in each run, whatever its lines and paths, the SDU of each number that is sent over a hop was given by the end that
/// sends, or heard by the relay. An end gives the PDCP data PDU of an SDU that was submitted for a key which it sends, with the SN
/// of its COUNT (TS 38.323 clauses 5.2.1 and 6.2.2), or a status report about a key which it receives, that says received of exactly
/// the COUNTs that delivered PDUs had completed when it was given (TS 38.323 clause 5.4.1); on the relay path with a SRAP header
/// (TS 38.351 clause 5.3). The relay sends what delivered PDUs completed at it, over the port to which the local identities that
/// it attached then led it (TS 38.351 clause 5.2): each completion once, and those of one ingress port in their order.
pub fn runs_are_carried()
    ensures { RunsAreCarried }
{
    laws_of_hops();
    laws_of_ends();
}
