// The laws of declared tables.
ghost use Rattle.table_law.specs.Laws.{TablesAreSound, TablesAreMapped, RelayedRemotesAreMapped};

use book_law::runs_pass_line_by_line;

/// A law: the tables that lines declare are sound, and so are those of the chain to which the lines lead. Rows stand in the
/// order of their names, and none twice; names are in their ranges; remotes, bearers and channels that a row names are declared;
/// first COUNTs are COUNTs (TS 38.323 clause 7.1); a bearer has one map row at most, and no two remotes begin with one local
/// identity (TS 38.351 clauses 5.2 and 6.3.2).
pub fn tables_are_sound()
    ensures { TablesAreSound }
{
    runs_pass_line_by_line();
}

/// A law: behind the tables each bearer of a remote that begins on the relay has a map row (TS 38.351 clause 5.2).
pub fn tables_are_mapped()
    ensures { TablesAreMapped }
{
    runs_pass_line_by_line();
}

/// A law: in each run behind the tables so has each bearer of a remote that a node attaches, or of which the last plan asks for
/// the relay: a plan is refused while a bearer of its remote has no map row (TS 38.300 clause 16.12.6).
pub fn relayed_remotes_are_mapped()
    ensures { RelayedRemotesAreMapped }
{
    runs_pass_line_by_line();
}
