// The sides of ports at which nothing has happened.
ghost use Rattle.std.specs.Prelude.{◌≡◌, ◌++◌, map, OnOk};
ghost use Rattle.std.specs.List.{filter};
ghost use Rattle.node_model.specs.Names.{is_remote};
ghost use Rattle.node_model.specs.Opening.{direct_side, pc5_side, uu_side};
ghost use Rattle.node_model.specs.Tables.{is_open_on};

use crate::side::PortSide;
use bearer_map::{BearerRow, Pc5Row, RemoteRow, Settings, UuRow};
use link_base::{Goal, Memory, PortName};
use std::alloc::Global;

/// Adds the sides of the direct ports of a remote.
pub(crate) fn add_direct(
    alloc: Global,
    sides: &mut Vec<PortSide>,
    settings: Settings,
    row: RemoteRow,
    bearers: &[BearerRow],
) -> Result<(), Memory>
    ensures { OnOk result (sides.new.items ≡ sides.old.items
        ++ map (direct_side settings row.goal)
        (filter (λ b. is_remote row.remote b.remote) bearers.now)) }
{
    for bearer in bearers {
        if row.remote.0 == bearer.remote.0 {
            let name = PortName::Direct(bearer.remote, bearer.drb);
            sides.push(PortSide::new(
                alloc,
                settings,
                name,
                bearer.direct,
                is_open_on(row.goal, name),
            )?)?;
        }
    }
    Ok(())
}

/// Adds the sides of the PC5 ports of a remote.
pub(crate) fn add_pc5(
    alloc: Global,
    sides: &mut Vec<PortSide>,
    settings: Settings,
    row: RemoteRow,
    pc5s: &[Pc5Row],
) -> Result<(), Memory>
    ensures { OnOk result (sides.new.items ≡ sides.old.items
        ++ map (pc5_side settings row.goal)
        (filter (λ p. is_remote row.remote p.remote) pc5s.now)) }
{
    for pc5 in pc5s {
        if row.remote.0 == pc5.remote.0 {
            let name = PortName::Pc5(pc5.remote, pc5.chan);
            sides.push(PortSide::new(
                alloc,
                settings,
                name,
                pc5.size,
                is_open_on(row.goal, name),
            )?)?;
        }
    }
    Ok(())
}

/// Adds the sides of the Uu ports.
pub(crate) fn add_uu(
    alloc: Global,
    sides: &mut Vec<PortSide>,
    settings: Settings,
    uus: &[UuRow],
) -> Result<(), Memory>
    ensures { OnOk result (sides.new.items ≡ sides.old.items ++ map (uu_side settings) uus.now) }
{
    for uu in uus {
        sides.push(PortSide::new(alloc, settings, PortName::Uu(uu.chan), uu.size, true)?)?;
    }
    Ok(())
}

/// Whether a port of a remote is open while its path is this.
pub(crate) fn is_open_on(goal: Goal, port: PortName) -> bool
    ensures { result ≡ is_open_on goal port }
{
    matches!(
        (goal, port),
        (Goal::Direct, PortName::Direct(..)) | (Goal::Relay(_), PortName::Pc5(..))
    )
}
