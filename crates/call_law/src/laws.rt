// The laws of calls of the chain.
ghost use Rattle.call_law.specs.Laws.{StepsCanBeCarriedOut, ChainsCanBeOpened, TablesAreDeclared};

use crate::foundations::laws_of_runs;

/// A law: behind each line of a run each line that a chain carries out can be carried out: both ends of each key are there, the
/// numbers of all entities are small enough before the line and when the ends feed behind it, and the transmitters of direct
/// ports keep data PDUs of their own key alone.
pub fn steps_can_be_carried_out()
    ensures { StepsCanBeCarriedOut }
{
    laws_of_runs();
}

/// A law: of the tables that the lines of a run declare a chain can be opened: first COUNTs are COUNTs, the bearers that are
/// mapped and their channels are declared, and no two remotes begin with one local identity.
pub fn chains_can_be_opened()
    ensures { ChainsCanBeOpened }
{
    laws_of_runs();
}

/// A law: the tables of a run's chain are those that its lines declared.
pub fn runs_have_declared_tables()
    ensures { TablesAreDeclared }
{
    laws_of_runs();
}
