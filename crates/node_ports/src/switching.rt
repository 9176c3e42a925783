// The sides of ports take part in a path switch.
ghost use Rattle.std.specs.Prelude.{◌≡◌, map, length, Option, IfOk};
ghost use Rattle.rlc_model.specs.Sides.{Entity};
ghost use Rattle.node_model.specs.State.{PortSide};
ghost use Rattle.node_ports.specs.Switching.{entity_after, side_with};

use crate::entity::RlcEntity;
use crate::side::PortSide;
use bearer_map::Settings;
use link_base::{Goal, Memory, Remote};
use std::alloc::Global;

/// The entities with which the sides of a remote begin that are open on its new path, each at the place of its side.
pub(crate) fn entities_after(
    alloc: Global,
    sides: &[PortSide],
    settings: Settings,
    remote: Remote,
    goal: Goal,
    epoch: u32,
) -> Result<Vec<Option<RlcEntity>>, Memory>
    ensures { IfOk result (λ entities. entities.items
        ≡ map (entity_after settings remote goal epoch) sides.now) }
{
    let mut entities = Vec::with_capacity(alloc, sides.len())?;
    for side in sides {
        entities.push(side.entity_after(alloc, settings, remote, goal, epoch)?)?;
    }
    Ok(entities)
}

/// The node has applied a plan of a remote, of which these are the entities at the places of the sides.
pub(crate) fn apply(sides: &mut [PortSide], remote: Remote, entities: &mut [Option<RlcEntity>])
    requires { length entities.old ≡ length sides.old }
    ensures { (entity_of : PortSide → Option Entity)
        → entities.old ≡ map entity_of sides.old
        → sides.new ≡ map (λ side. side_with remote (entity_of side) side) sides.old }
{
    for place in 0..sides.len() {
        sides[place].apply(remote, &mut entities[place]);
    }
}
