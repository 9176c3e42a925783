// Whether a remote may go to a path.
ghost use Rattle.std.specs.Prelude.{◌≡◌};
ghost use Rattle.bearer_map.specs.Contents.{map_rank, pair};
ghost use Rattle.bearer_map.specs.Lines.{has_each_map};
ghost use Rattle.bearer_map.specs.Order.{has_row};
ghost use Rattle.node_model.specs.Tables.{has_path};

use bearer_map::{BearerRow, MapRow, Tables};
use link_base::{Drb, Goal, Remote};

/// Whether the remote may go there: for the relay each of its bearers needs its channels.
pub(crate) fn has_path(tables: &Tables, remote: Remote, goal: Goal) -> bool
    ensures { result ≡ has_path tables.now remote goal }
{
    match goal {
        Goal::Direct => true,
        Goal::Relay(_) => has_each_map(remote, tables.bearers(), tables.maps()),
    }
}

// Whether each bearer of the remote has a map row.
fn has_each_map(remote: Remote, bearers: &[BearerRow], maps: &[MapRow]) -> bool
    ensures { result ≡ has_each_map remote bearers.now maps.now }
{
    bearers.iter().all(|row| row.remote.0 != remote.0 || has_map(rank(row.remote, row.drb), maps))
}

// Whether the bearer of this rank has a map row.
fn has_map(bearer: u32, maps: &[MapRow]) -> bool
    ensures { result ≡ has_row map_rank maps.now bearer }
{
    maps.iter().any(|row| rank(row.remote, row.drb) == bearer)
}

// Where a bearer stands among all: by remote, then by its identity.
fn rank(remote: Remote, drb: Drb) -> u32
    ensures { result ≡ pair remote.0 drb.0 }
{
    u32::from(remote.0) * 256 + u32::from(drb.0)
}
