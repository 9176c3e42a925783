// The local identities with which a session begins.
ghost use Rattle.std.specs.Prelude.{◌≡◌, IfOk};
ghost use Rattle.bearer_map.specs.Ids.{AreIds};
ghost use Rattle.node_model.specs.Opening.{all_attached};

use bearer_map::{Ids, Tables};
use link_base::{Goal, Memory};
use std::alloc::Global;

/// The local identities of the remotes that begin on the relay path (TS 38.351 clause 6.3.2). No two of them may be one.
pub fn attached(alloc: Global, tables: &Tables) -> Result<Ids, Memory>
    requires { AreIds (all_attached tables.now) }
    ensures { IfOk result (λ ids. ids ≡ all_attached tables.now) }
{
    let mut ids = Ids::new(alloc)?;
    for row in tables.remotes() {
        if let Goal::Relay(id) = row.goal {
            ids.attach(row.remote, id)?;
        }
    }
    Ok(ids)
}
