// The laws of ends that are fed.
ghost use Rattle.item_chain.specs.Fed.{StepsLeaveFed, PastsAreFed, RunsAreFed};

use crate::foundations::laws_of_runs;

/// A law: behind each line of each run, whatever the line, the ends are fed: of no key an end has both an SDU to give and room
/// for it in the transmitter of its first hop; and a status report that is to be given has no room, or can't tell of all that is
/// stored and isn't asked for any more (TS 38.323 clauses 5.2.1 and 5.4.1).
pub fn runs_are_fed()
    ensures steps { StepsLeaveFed }
    ensures lines { PastsAreFed }
    ensures runs { RunsAreFed }
{
    laws_of_runs();
}
