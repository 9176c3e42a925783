// What an end has: its tables, its ports and its bearers.
ghost use Rattle.std.specs.Prelude.{◌≡◌, ◌≤◌, ◌&&◌, ◌==◌, true, length, find, is_some, IfOk};
ghost use Rattle.node_model.specs.Names.{is_remote};
ghost use Rattle.node_model.specs.State.{id_in, incoming};
ghost use Rattle.node_model.specs.Tables.{relay_port};
ghost use Rattle.node_model.specs.Feeding.{port_on, under, wants_report};
ghost use Rattle.node_end.specs.Node.{name_of, side_of, node_of};

use bearer_map::{Ids, MapRow, Tables};
use link_base::{Bytes, Drb, Key, LocalId, Memory, PortName, Remote, Side, Way};
use node_bearers::Bearers;
use node_ports::Ports;
use srap_header::write;
use std::alloc::Global;

/// What an end of bearers has. It keeps a copy of the tables, by which it finds routes.
#[derive(Drop)]
pub(crate) struct EndNode {
    pub(crate) alloc: Global,
    pub(crate) tables: Tables,
    // The remote whose end this is, or None at the gNB.
    pub(crate) remote: Option<Remote>,
    // The local identities of the remotes that are on the relay path here.
    pub(crate) ids: Ids,
    pub(crate) ports: Ports,
    pub(crate) bearers: Bearers,
}

impl EndNode {
    /// Which side of its ports this end has.
    pub(crate) fn side(&self) -> Side
        ensures { result ≡ side_of (name_of self.now.remote) }
    {
        match self.remote {
            Some(_) => Side::Low,
            None => Side::High,
        }
    }

    /// The local identity of a remote on the relay path; None of one on its direct path.
    pub(crate) fn id_of(&self, remote: Remote) -> Option<LocalId>
        ensures { result ≡ id_in self.now.ids remote }
    {
        self.ids.id_of(remote)
    }

    /// Whether a status report about a key that is received here is to be given.
    pub(crate) fn wants_report(&self, key: Key) -> bool
        ensures { result ≡ wants_report self.now.tables (node_of self.now)
            (incoming (node_of self.now) key) }
    {
        let every = self.tables.settings().report;
        let on_relay = self.id_of(key.remote).is_some();
        self.bearers.wants_report(key, every, on_relay)
    }

    /// The port over which PDUs of a key are sent where its remote has this identity, or None for its direct path (TS 38.351
    /// clause 5.2). None where the bearer isn't mapped to a channel.
    pub(crate) fn port_on(&self, id: Option<LocalId>, key: Key) -> Option<PortName>
        ensures { result ≡ port_on self.now.tables id key }
    {
        if id.is_none() {
            return Some(PortName::Direct(key.remote, key.drb));
        }
        let row = map_row(self.tables.maps(), key.remote, key.drb)?;
        Some(relay_port(key.way, row))
    }
}

// The row of a bearer.
fn map_row(maps: &[MapRow], remote: Remote, drb: Drb) -> Option<MapRow>
    ensures { result ≡ find
        (λ row. is_remote remote row.remote && (drb.0 == row.drb.0)) maps.now }
{
    maps.iter()
        .copied()
        .find(|row| remote.0 == row.remote.0 && drb.0 == row.drb.0)
}

// The port of a bearer's first hop in a way on the relay path.
fn relay_port(way: Way, row: MapRow) -> PortName
    ensures { result ≡ relay_port way row }
{
    match way {
        Way::Ul => PortName::Pc5(row.remote, row.pc5),
        Way::Dl => PortName::Uu(row.uu),
    }
}

/// A PDCP PDU of a bearer as RLC is given it: on the relay path a SRAP header with the remote's local identity stands before
/// it (TS 38.351 clause 5.2).
pub(crate) fn under(
    alloc: Global,
    id: Option<LocalId>,
    drb: Drb,
    pdu: Bytes,
) -> Result<Bytes, Memory>
    requires pdu { 1 ≤ length pdu }
    requires from_1 { is_some id ≡ true → 1 ≤ drb.0 }
    requires to_32 { is_some id ≡ true → drb.0 ≤ 32 }
    ensures { IfOk result (λ bytes. bytes ≡ under id drb pdu) }
{
    match id {
        None => Ok(pdu),
        Some(id) => write(alloc, drb.0 - 1, id.0, pdu.as_slice()),
    }
}
