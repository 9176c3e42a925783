// The routes at the relay, at the gNB and at a remote. They take no memory.
ghost use Rattle.std.specs.Prelude.{◌≡◌, ◌≢◌, IfSome, IfNone};
ghost use Rattle.bearer_map.specs.Routes.{MapsBearer, is_row_of, key_in, UpRoute, DownRoute, GnbRoute, RemoteRoute};

use crate::{Ids, MapRow, Route, RouteFault, Tables};
use link_base::{Chan, Key, LocalId, PortName, Remote, Way};

/// Where the relay sends a PDU on that came from a remote over a PC5 channel, by the UE ID and the BEARER ID of its SRAP
/// header (TS 38.351 clause 5.3).
///
/// `UnknownUe` where no remote is attached with the UE ID, `ForeignUe` where another remote is, `UnknownBearer` where
/// the remote has no such bearer over this channel.
pub fn up_route(
    tables: &Tables,
    ids: &Ids,
    from: (Remote, Chan),
    ue: u8,
    bearer: u8,
) -> Result<Route, RouteFault>
    ensures { UpRoute tables.now.maps ids.now from.0 from.1 ue bearer result }
{
    let Some(remote) = ids.remote_of(LocalId(ue)) else {
        return Err(RouteFault::UnknownUe);
    };
    if remote != from.0 {
        return Err(RouteFault::ForeignUe);
    }
    match row_over_pc5(tables.maps(), remote, bearer, from.1) {
        Some(row) => Ok(Route {
            egress: PortName::Uu(row.uu),
            key: key_in(Way::Ul, row),
        }),
        None => Err(RouteFault::UnknownBearer),
    }
}

/// Where the relay sends a PDU on that came from the gNB over a Uu channel, by the UE ID and the BEARER ID of its SRAP
/// header (TS 38.351 clause 5.2).
///
/// `UnknownUe` where no remote is attached with the UE ID, `UnknownBearer` where that remote has no such bearer over
/// this channel.
pub fn down_route(
    tables: &Tables,
    ids: &Ids,
    from: Chan,
    ue: u8,
    bearer: u8,
) -> Result<Route, RouteFault>
    ensures { DownRoute tables.now.maps ids.now from ue bearer result }
{
    let Some(remote) = ids.remote_of(LocalId(ue)) else {
        return Err(RouteFault::UnknownUe);
    };
    match row_over_uu(tables.maps(), remote, bearer, from) {
        Some(row) => Ok(Route {
            egress: PortName::Pc5(row.remote, row.pc5),
            key: key_in(Way::Dl, row),
        }),
        None => Err(RouteFault::UnknownBearer),
    }
}

/// Whose a PDU is that the gNB heard over a Uu channel, by the UE ID and the BEARER ID of its SRAP header
/// (TS 38.351 clause 5.3).
///
/// `UnknownUe` where no remote is attached with the UE ID, `UnknownBearer` where that remote has no such bearer over
/// this channel.
pub fn gnb_route(
    tables: &Tables,
    ids: &Ids,
    from: Chan,
    ue: u8,
    bearer: u8,
) -> Result<Key, RouteFault>
    ensures { GnbRoute tables.now.maps ids.now from ue bearer result }
{
    let Some(remote) = ids.remote_of(LocalId(ue)) else {
        return Err(RouteFault::UnknownUe);
    };
    match row_over_uu(tables.maps(), remote, bearer, from) {
        Some(row) => Ok(key_in(Way::Ul, row)),
        None => Err(RouteFault::UnknownBearer),
    }
}

/// Whose a PDU is that a remote heard over a PC5 channel, by the UE ID and the BEARER ID of its SRAP header
/// (TS 38.351 clause 5.2).
///
/// `UnknownUe` where the UE ID isn't the remote's own, `UnknownBearer` where it has no such bearer over this channel.
pub fn remote_route(
    tables: &Tables,
    own: LocalId,
    from: (Remote, Chan),
    ue: u8,
    bearer: u8,
) -> Result<Key, RouteFault>
    ensures { RemoteRoute tables.now.maps own.0 from.0 from.1 ue bearer result }
{
    if ue != own.0 {
        return Err(RouteFault::UnknownUe);
    }
    match row_over_pc5(tables.maps(), from.0, bearer, from.1) {
        Some(row) => Ok(key_in(Way::Dl, row)),
        None => Err(RouteFault::UnknownBearer),
    }
}

/// The row's bearer in one way.
fn key_in(way: Way, row: MapRow) -> Key
    ensures { result ≡ key_in way row }
{
    Key {
        remote: row.remote,
        drb: row.drb,
        way,
    }
}

/// The row of a bearer of a remote, if it is mapped over this PC5 channel.
fn row_over_pc5(rows: &[MapRow], remote: Remote, bearer: u8, chan: Chan) -> Option<MapRow>
    ensures found { IfSome result
        (λ row. MapsBearer rows.now remote bearer row × (row.pc5 ≡ chan)) }
    ensures none { IfNone result
        ((row : MapRow) → MapsBearer rows.now remote bearer row → row.pc5 ≢ chan) }
{
    rows.iter().copied().find(|row| is_row_of(row, remote, bearer) && row.pc5.0 == chan.0)
}

/// The row of a bearer of a remote, if it is mapped over this Uu channel.
fn row_over_uu(rows: &[MapRow], remote: Remote, bearer: u8, chan: Chan) -> Option<MapRow>
    ensures found { IfSome result (λ row. MapsBearer rows.now remote bearer row × (row.uu ≡ chan)) }
    ensures none { IfNone result
        ((row : MapRow) → MapsBearer rows.now remote bearer row → row.uu ≢ chan) }
{
    rows.iter()
        .copied()
        .find(|row| is_row_of(row, remote, bearer) && row.uu.0 == chan.0)
}

/// Whether the row is that of this bearer of the remote, whose identity is BEARER ID plus 1.
fn is_row_of(row: &MapRow, remote: Remote, bearer: u8) -> bool
    ensures { result ≡ is_row_of remote bearer row.now }
{
    row.remote.0 == remote.0 && u32::from(row.drb.0) == u32::from(bearer) + 1
}
