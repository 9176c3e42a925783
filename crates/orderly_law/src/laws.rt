// What each run keeps in order.
ghost use Rattle.heard_law.specs.HandingUp.{HandUpsAreExact};
ghost use Rattle.orderly_law.specs.Laws.{SidesAreFound, RunsKeepChainsOrderly, RunsHaveOneOutcome};

use chain_law::laws_of_ports;
use heard_law::orderly_hand_ups_are_exact;
use step_law::a_step_has_one_outcome;

/// A law: at each node of each chain that comes up in a run no name of a port stands twice, so each side is found by its port's
/// name; and the node is the owner of that side of the port.
pub fn sides_are_found()
    ensures { SidesAreFound }
{
    laws_of_ports();
}

/// A law: each chain that comes up in a run is orderly. The map rows of its tables ascend, the receivers of its open sides are
/// sound, and what a node attaches shares neither a remote nor a local identity: a plan is refused while a node attaches the
/// identity that it asks for, or another open plan asks for it (TS 38.300 clause 16.12.6). So a step from it has one outcome.
pub fn runs_keep_chains_orderly()
    ensures { RunsKeepChainsOrderly }
{
    laws_of_ports();
}

/// A law: two runs over the same lines are answered alike, line by line, and lead to chains that nothing tells apart. This is
/// said of lines none of which is `burst`, whose definition leaves the order of the relay's ports open, or `drain`.
pub fn runs_have_one_outcome()
    ensures { RunsHaveOneOutcome }
{
    runs_keep_chains_orderly();
    a_step_has_one_outcome();
}

/// A law: behind each run, whatever its lines and paths, what was handed up of each key is at each moment the SDUs of the longest
/// run of COUNTs from the first one on that the bytes of the delivered PDUs complete (TS 38.323 clause 5.2.2.1).
pub fn hand_ups_are_exact()
    ensures { HandUpsAreExact }
{
    orderly_hand_ups_are_exact();
    runs_keep_chains_orderly();
}
