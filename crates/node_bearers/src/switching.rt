// Bearers take part in a path switch.
ghost use Rattle.std.specs.Prelude.{◌≡◌, map};
ghost use Rattle.node_bearers.specs.Switching.{bearer_after, bearer_closed};

use crate::bearer::Bearer;
use link_base::Remote;

/// This end has applied a plan of a remote.
pub(crate) fn apply(rows: &mut [Bearer], remote: Remote)
    ensures { rows.new ≡ map (bearer_after remote) rows.old }
{
    for row in rows.iter_mut() {
        row.apply(remote);
    }
}

/// All nodes have applied a plan of a remote.
pub(crate) fn finish(rows: &mut [Bearer], remote: Remote)
    ensures { rows.new ≡ map (bearer_closed remote) rows.old }
{
    for row in rows.iter_mut() {
        row.finish(remote);
    }
}
