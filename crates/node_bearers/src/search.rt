// Bearers by their key.
ghost use Rattle.std.specs.Prelude.{◌≡◌, ◌<◌, IfSome, IfNone};
ghost use Rattle.bearer_map.specs.Contents.{pair};
ghost use Rattle.node_model.specs.Names.{is_way};
ghost use Rattle.node_bearers.specs.Order.{IsInOrder, IsAt, IsOf, HasRank, HasNone, HasNoRank};

use crate::bearer::Bearer;
use link_base::{Drb, Key, Remote, Way};

/// The place of the bearer whose key in `way` is this; None where there is none, or the key's way is the other.
pub(crate) fn place_of(rows: &[Bearer], way: Way, key: Key) -> Option<usize>
    requires { IsInOrder rows.now }
    ensures some { IfSome result (IsAt (IsOf way key) rows.now) }
    ensures none { IfNone result (HasNone way key rows.now) }
{
    if !is_way(key.way, way) {
        return None;
    }
    place_with(rows, rank_of(key.remote, key.drb))
}

/// The place of the bearer of this rank.
pub(crate) fn place_with(rows: &[Bearer], of: u32) -> Option<usize>
    requires { IsInOrder rows.now }
    ensures some { IfSome result (IsAt (HasRank of) rows.now) }
    ensures none { IfNone result (HasNoRank of rows.now) }
{
    rows.binary_search_by_key(&of, |row| rank_of(row.remote, row.drb))
        .ok()
}

/// Where a bearer stands among all: by remote, then by its identity.
pub(crate) fn rank_of(remote: Remote, drb: Drb) -> u32
    ensures value { result ≡ pair remote.0 drb.0 }
    ensures octet { drb.0 < 256 }
{
    u32::from(remote.0) * 256 + u32::from(drb.0)
}

fn is_way(a: Way, b: Way) -> bool
    ensures { result ≡ is_way a b }
{
    matches!((a, b), (Way::Ul, Way::Ul) | (Way::Dl, Way::Dl))
}
