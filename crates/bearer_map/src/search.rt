// What table lines ask and change of whole lists of rows.
ghost use Rattle.std.specs.Prelude.{◌≡◌, map};
ghost use Rattle.std.specs.List.{list_any};
ghost use Rattle.bearer_map.specs.Contents.{bearers_of};
ghost use Rattle.bearer_map.specs.Lines.{begins_at, begins_direct, goes_to, goes_by, has_each_map, is_mapped, is_taken};

use crate::order::{Row, has_rank, pair};
use crate::{BearerRow, MapRow, RemoteRow};
use link_base::{Goal, Key, LocalId, Remote, Way};

/// How many bearers a remote has.
pub(crate) fn bearers_of(rows: &[BearerRow], remote: Remote) -> usize
    ensures { result ≡ bearers_of remote.0 rows.now }
{
    rows.iter().filter(|row| row.remote.0 == remote.0).count()
}

/// Whether a remote has the local identity of this goal in its path.
pub(crate) fn is_taken(goal: Goal, rows: &[RemoteRow]) -> bool
    ensures { result ≡ is_taken goal rows.now }
{
    match goal {
        Goal::Direct => false,
        Goal::Relay(id) => is_used(id, rows),
    }
}

/// Whether a remote has this local identity in its path.
fn is_used(id: LocalId, rows: &[RemoteRow]) -> bool
    ensures { result ≡ list_any (λ row. goes_by id.0 row.goal) rows.now }
{
    rows.iter().any(|row| goes_by(row.goal, id))
}

/// Whether the goal is the relay with this local identity.
fn goes_by(goal: Goal, id: LocalId) -> bool
    ensures { result ≡ goes_by id.0 goal }
{
    match goal {
        Goal::Direct => false,
        Goal::Relay(other) => other.0 == id.0,
    }
}

/// Gives a key its first COUNT.
pub(crate) fn begin_at(rows: &mut [BearerRow], key: Key, first: u32)
    ensures { rows.new ≡ map (begins_at key first) rows.old }
{
    for row in rows.iter_mut() {
        *row = begins_at(*row, key, first);
    }
}

/// The row with the first COUNT of the key, where it is that of the key's bearer.
fn begins_at(row: BearerRow, key: Key, first: u32) -> BearerRow
    ensures { result ≡ begins_at key first row }
{
    if row.rank() != pair(key.remote, key.drb.0) {
        return row;
    }
    match key.way {
        Way::Ul => BearerRow {
            first_ul: first,
            ..row
        },
        Way::Dl => BearerRow {
            first_dl: first,
            ..row
        },
    }
}

/// Gives a remote its path at the start.
pub(crate) fn set_goal(rows: &mut [RemoteRow], remote: Remote, goal: Goal)
    ensures { rows.new ≡ map (goes_to remote goal) rows.old }
{
    for row in rows.iter_mut() {
        *row = goes_to(*row, remote, goal);
    }
}

/// The row with this path, where it is that of this remote.
fn goes_to(row: RemoteRow, remote: Remote, goal: Goal) -> RemoteRow
    ensures { result ≡ goes_to remote goal row }
{
    if row.remote.0 == remote.0 {
        RemoteRow { goal, ..row }
    } else {
        row
    }
}

/// Whether each remote that begins on the relay has a map row for each of its bearers.
pub(crate) fn is_mapped(remotes: &[RemoteRow], bearers: &[BearerRow], maps: &[MapRow]) -> bool
    ensures { result ≡ is_mapped remotes.now bearers.now maps.now }
{
    remotes.iter().all(|row| begins_direct(row.goal) || has_each_map(row.remote, bearers, maps))
}

fn begins_direct(goal: Goal) -> bool
    ensures { result ≡ begins_direct goal }
{
    matches!(goal, Goal::Direct)
}

/// Whether each bearer of the remote has a map row.
fn has_each_map(remote: Remote, bearers: &[BearerRow], maps: &[MapRow]) -> bool
    ensures { result ≡ has_each_map remote bearers.now maps.now }
{
    bearers.iter().all(|row| row.remote.0 != remote.0 || has_rank(maps, row.rank()))
}
