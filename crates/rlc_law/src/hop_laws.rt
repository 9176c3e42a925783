// The laws of a hop whose transmitter and receiver are the two ends of one air.
ghost use Rattle.rlc_law.specs.Laws.{ReachesMore, SendsPieces, SendsInOrder, CompletesAsGiven, CompletesOnce, ConfirmsComplete, ReadsOwnNumber, ReadsOwnAck, NoneOutside, NoneBeyond, MakesTrue, StaysTrue, CompletesHeard, HeardAsGiven, HoldsHeard, KnowsHeardEnd, NumbersBounded, GivesInOrder, KeepsGiven, HearsSent};

/// A law: an event takes a hop that can be reached to one that can be reached.
pub fn hop_goes_on()
    ensures { ReachesMore }
{}

/// A law: each data PDU made is a piece of the SDU given under its number, has that number's SN and fits its format, and
/// no place of a number is sent before a place of the number below it.
pub fn pdus_are_pieces()
    ensures pieces { SendsPieces }
    ensures order { SendsInOrder }
{}

/// A law: SDUs have the numbers up to TX_Next, in the order in which they were given, and from 1 to 9,005 bytes; one that
/// isn't confirmed is kept as it was given.
pub fn sdus_are_kept_as_given()
    ensures order { GivesInOrder }
    ensures kept { KeepsGiven }
{}

/// A law: each SDU given is handed up at most once, as it was given, and it is confirmed only where it was handed up.
pub fn hop_is_reliable()
    ensures as_given { CompletesAsGiven }
    ensures once { CompletesOnce }
    ensures confirms { ConfirmsComplete }
{}

/// A law: a PDU that isn't stale is read under the number that it was made with, and under no other. So no data PDU is
/// outside the window or in conflict with what is held, and no STATUS speaks of what was never sent.
pub fn pdus_are_read_as_sent()
    ensures number { ReadsOwnNumber }
    ensures ack { ReadsOwnAck }
    ensures none_outside { NoneOutside }
    ensures none_beyond { NoneBeyond }
{}

/// A law: a STATUS is true of its receiver when it is made, and what it says received is complete ever after, however old
/// the STATUS is.
pub fn status_is_true()
    ensures made { MakesTrue }
    ensures stays { StaysTrue }
{}

/// A law: what is heard was sent, and a number is complete exactly where the data PDUs delivered so far, as a set of bytes by number and place, hold
/// each byte of an SDU up to its end; and that SDU is the one given. Of a number that isn't complete those bytes and that end
/// are held that some of them have.
pub fn what_is_complete_was_heard()
    ensures sent { HearsSent }
    ensures complete { CompletesHeard }
    ensures as_given { HeardAsGiven }
    ensures holds { HoldsHeard }
    ensures ends { KnowsHeardEnd }
{}

/// A law: TX_Next_Ack is at most the number of data PDUs made, TX_Next lies at most a window above that, and RX_Next is at
/// most TX_Next.
pub fn numbers_are_bounded()
    ensures { NumbersBounded }
{}
