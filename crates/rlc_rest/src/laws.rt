// The laws of a hop that goes on.
ghost use Rattle.rlc_rest.specs.Progress.{EachCallProgresses, Progresses};
ghost use Rattle.rlc_rest.specs.Rest.{DataFalls, StatusFalls, PollFalls, ProhibitFalls, RestBounded, SdusCounted};
ghost use Rattle.rlc_rest.specs.Moves.{MovesWhileUnconfirmed, MoveFalls, DownIsStatus, PollRuns};

/// A law: a transmitter with an unconfirmed SDU can go on, whatever STATUS PDUs it hears: its poll timer runs, or bytes
/// wait that will carry a poll or bring what is missing. Each of its calls keeps that, and so does every run of a hop.
pub fn transmitter_progresses()
    ensures each_call { EachCallProgresses }
    ensures every_run { Progresses }
{}

/// A law: the number `rest` of a hop, what is left for it to do, falls where a data PDU is sent and heard at once, where a
/// STATUS is made and heard at once, where the poll timer runs out with an SDU unconfirmed, nothing waiting and no STATUS
/// triggered, and where the prohibit timer runs out.
pub fn what_is_left_falls()
    ensures data_pdu { DataFalls }
    ensures status { StatusFalls }
    ensures poll { PollFalls }
    ensures prohibit { ProhibitFalls }
{}

/// A law: what is left of one way is below 2^65.
pub fn what_is_left_is_bounded()
    ensures { RestBounded }
{}

/// A law: t-PollRetransmit runs where an SDU is unconfirmed and no byte waits.
pub fn poll_timer_runs()
    ensures { PollRuns }
{}

/// A law: a port has a next move exactly where an SDU is unconfirmed. Carried out, each leaves a port that can be reached
/// and has less left to do: a grant of 6 octets or more sends a PDU, which the other side hears as one at once, and a timer
/// that is to run out runs. While an SDU up is unconfirmed, a grant down comes only where a STATUS about the SDUs up is due.
pub fn next_moves_end()
    ensures comes { MovesWhileUnconfirmed }
    ensures falls { MoveFalls }
    ensures down { DownIsStatus }
{}

/// A law: the SDUs given are those handed up and those that the receiver doesn't hold complete.
pub fn sdus_are_counted()
    ensures { SdusCounted }
{}
