// Whether what the calls of a relay need of its tables and numbers holds.
ghost use Rattle.std.specs.Prelude.{◌≡◌, ◌++◌, IsTrue, Some, IfOk, IfSome};
ghost use Rattle.bearer_map.specs.Contents.{Contents};
ghost use Rattle.bearer_map.specs.Ids.{AreIds, IsAttached};
ghost use Rattle.link_base.specs.declared.names.Remote.{Remote};
ghost use Rattle.rlc_model.specs.Sides.{Entity};
ghost use Rattle.node_model.specs.Opening.{all_attached, attachments};
ghost use Rattle.node_model.specs.Standing.{IsFreeFor};
ghost use Rattle.node_model.specs.State.{entity_at};
ghost use Rattle.node_ports.specs.Sides.{IsSmall};
ghost use Rattle.relay_core.specs.Opening.{HasChannels, HaveChannels};

use bearer_map::{Ids, MapRow, RemoteRow, Tables};
use link_base::{Goal, LocalId, Memory, PortName, Remote};
use relay_core::Relay;
use std::alloc::Global;

const MOST: u64 = 1 << 62;

/// Whether a port is closed here, or what it sends and hears can go on.
pub(crate) fn can_go_on(relay: &Relay, port: PortName) -> bool
    ensures { IsTrue result → (entity : Entity) → entity_at relay.now.node port ≡ Some entity
        → IsSmall entity }
{
    let Some(tx) = relay.tx(port) else {
        return true;
    };
    let Some(rx) = relay.rx(port) else {
        return true;
    };
    tx.next() < MOST && rx.next() < MOST
}

/// Whether no other remote has the local identity of a remote's new path.
pub(crate) fn is_free_for(relay: &Relay, remote: Remote, goal: Goal) -> bool
    ensures { IsTrue result → IsFreeFor relay.now.node.attached remote goal }
{
    match goal {
        Goal::Direct => true,
        Goal::Relay(id) => is_free(relay, remote, id),
    }
}

// Whether no other remote has a local identity.
fn is_free(relay: &Relay, remote: Remote, id: LocalId) -> bool
    ensures { IsTrue result → (other : Remote) → IsAttached relay.now.node.attached other id.0
        → other ≡ remote }
{
    match relay.remote_of(id) {
        None => true,
        Some(other) => other.0 == remote.0,
    }
}

/// Whether a relay can be opened with these tables.
pub(crate) fn can_open(alloc: Global, tables: &Tables) -> Result<bool, Memory>
    ensures { IfOk result (λ answer. IsTrue answer → HaveChannels tables.now
        × AreIds (all_attached tables.now)) }
{
    let has_channels = have_channels(tables);
    let ids = ids_of(alloc, tables)?;
    Ok(has_channels && ids.is_some())
}

// Whether each bearer that is mapped has channels that are declared.
fn have_channels(tables: &Tables) -> bool
    ensures { IsTrue result → HaveChannels tables.now }
{
    for row in tables.maps() {
        if !has_channels(tables, *row) {
            return false;
        }
    }
    true
}

// Whether the channels to which a bearer is mapped are declared, and its remote is.
fn has_channels(tables: &Tables, row: MapRow) -> bool
    ensures { IsTrue result → HasChannels tables.now row }
{
    let (remotes, pc5s, uus) = (tables.remotes(), tables.pc5s(), tables.uus());
    let has_remote = remotes.iter().any(|r| row.remote.0 == r.remote.0);
    let has_pc5 = pc5s
        .iter()
        .any(|p| row.remote.0 == p.remote.0 && row.pc5.0 == p.chan.0);
    let has_uu = uus.iter().any(|u| row.uu.0 == u.chan.0);
    has_remote && has_pc5 && has_uu
}

// The local identities of the remotes that begin on the relay, or None where two begin with one.
fn ids_of(alloc: Global, tables: &Tables) -> Result<Option<Ids>, Memory>
    ensures { IfOk result (λ found. IfSome found (λ ids. ids ≡ all_attached tables.now)) }
{
    let mut ids = Ids::new(alloc)?;
    for row in tables.remotes() {
        if !attach(&mut ids, *row)? {
            return Ok(None);
        }
    }
    Ok(Some(ids))
}

// Attaches a remote where it begins on the relay, and says whether it and its local identity were free.
fn attach(ids: &mut Ids, row: RemoteRow) -> Result<bool, Memory>
    ensures { IfOk result (λ answer. IsTrue answer
        → ids.new ≡ ids.old ++ attachments row.remote row.goal) }
{
    let Goal::Relay(id) = row.goal else {
        return Ok(true);
    };
    let None = ids.id_of(row.remote) else {
        return Ok(false);
    };
    let None = ids.remote_of(id) else {
        return Ok(false);
    };
    ids.attach(row.remote, id)?;
    Ok(true)
}
