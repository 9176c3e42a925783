// The laws of tags.
ghost use Rattle.tag_law.specs.Laws.{DirectPortsKeepTheirTags, DirectPortsKeepUnconfirmed, DirectPathsAreOpen};

use chain_law::calls_keep_what_was_given;

/// A law: in each run, whatever its lines, a side of a direct port keeps data PDUs of that key alone which the side sends. So a
/// STATUS PDU that is heard there confirms SDUs of this key, and of no other (TS 38.323 clause 5.3).
pub fn direct_ports_keep_their_tags()
    ensures { DirectPortsKeepTheirTags }
{
    calls_keep_what_was_given();
}

/// A law: in each run, whatever its lines, where a sender doesn't wait for a status report and its bearer's direct port is open
/// at its end, the port's transmitter there keeps each SDU that the sender gave since the last wait and nobody has confirmed,
/// under its COUNT. So where nothing is left unconfirmed at that port, all that was given is confirmed (TS 38.323 clauses 5.1.2
/// and 5.3).
pub fn direct_ports_keep_unconfirmed()
    ensures { DirectPortsKeepUnconfirmed }
{
    calls_keep_what_was_given();
}

/// A law: in each run, whatever its lines, an end that sends a key and doesn't attach the key's remote has the bearer's direct
/// port open. So an end gives PDUs to an open port while its path is direct.
pub fn direct_paths_are_open()
    ensures { DirectPathsAreOpen }
{}
