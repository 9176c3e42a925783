// What holds of runs alone.
ghost use Rattle.player.specs.Outcome.{OneStatus};
ghost use Rattle.player.specs.Runs.{OneEnding, OneText, ScriptsEnd};

use orderly_law::runs_have_one_outcome;

/// A law: a run over a script of the grammar comes to its end, `done`.
pub fn scripts_end()
    ensures { ScriptsEnd }
{}

/// A law: all runs over an input have one ending and, unless that is `done`, stop at one line.
pub fn one_ending()
    ensures { OneEnding }
{}

/// A law: a run whose input was read and whose text was written has one status, which the bytes of the source decide.
pub fn one_status()
    ensures { OneStatus }
{}

/// A law: all runs over an input write one text. So the bytes of a script determine its trace.
pub fn one_text()
    ensures { OneText }
{
    runs_have_one_outcome();
}
