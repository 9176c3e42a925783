// The tables of two remotes behind one relay, and the routes that follow from them.
use super::stage_behind;
use bearer_map::{Ids, Tables, down_route, gnb_route, remote_route, up_route};
use link_base::{Chan, LocalId, Memory, Remote};
use std::alloc::{AllocError, Global};
use std::process::Abort;
use std::test::Fail;

const TWO_REMOTES: &str = "\
relayscript 1
set queue 1024
set maxretx 255
remote 2
bearer 2 1 18 12
remote 1
bearer 1 1 12 18
uu 1 12
pc5 1 1 12
pc5 2 1 12
map 1 1 1 1
map 2 1 1 1
start 1 1 dl 7
path 1 relay 5
path 2 relay 6
go";

fn attach(rt: &impl Abort, ids: &mut Ids, remote: Remote, id: LocalId) -> Result<(), Memory> {
    match (ids.id_of(remote), ids.remote_of(id)) {
        (None, None) => ids.attach(remote, id),
        _ => panic!(rt; "attached already"),
    }
}

/// The tables of two remotes, and the identities with which they are attached.
fn two_remotes(rt: &impl Abort, alloc: Global) -> Result<(Tables, Ids), Fail> {
    let mut stage = stage_behind(alloc, TWO_REMOTES)?;
    let Some(tables) = stage.take_tables() else {
        panic!(rt; "no tables behind go");
    };
    let mut ids = Ids::new(alloc)?;
    attach(rt, &mut ids, Remote(1), LocalId(5))?;
    attach(rt, &mut ids, Remote(2), LocalId(6))?;
    Ok((tables, ids))
}

/// The route of what comes up over a channel of remote 1 to the relay, down over a channel to the relay, up over it to the
/// gNB, or down to remote 2: the channel, UE ID and BEARER ID stand behind the direction.
fn route(
    rt: &impl Abort,
    alloc: Global,
    tables: &Tables,
    ids: &Ids,
    call: &str,
) -> Result<String, Fail> {
    let mut words = call.split(' ');
    let (Some(direction), Some(chan), Some(ue), Some(bearer)) = (
        words.next(),
        words.next(),
        words.next(),
        words.next(),
    ) else {
        panic!(rt; "a row with too few words");
    };
    let (chan, ue, bearer) = (Chan(chan.parse()?), ue.parse()?, bearer.parse()?);
    let text = match direction {
        "up" => {
            let found = up_route(tables, ids, (Remote(1), chan), ue, bearer);
            format!(in alloc; "{found:?}")
        }
        "down" => {
            let found = down_route(tables, ids, chan, ue, bearer);
            format!(in alloc; "{found:?}")
        }
        "gnb" => {
            let found = gnb_route(tables, ids, chan, ue, bearer);
            format!(in alloc; "{found:?}")
        }
        _ => {
            let found = remote_route(tables, LocalId(6), (Remote(2), chan), ue, bearer);
            format!(in alloc; "{found:?}")
        }
    };
    Ok(text?)
}

const ROUTES: &str = "\
up 1 5 0|Ok(Route { egress: Uu(Chan(1)), key: Key { remote: Remote(1), drb: Drb(1), way: Ul } })
up 1 6 0|Err(ForeignUe)
up 1 9 0|Err(UnknownUe)
up 1 5 7|Err(UnknownBearer)
up 1 5 255|Err(UnknownBearer)
up 2 5 0|Err(UnknownBearer)
down 1 6 0|Ok(Route { egress: Pc5(Remote(2), Chan(1)), key: Key { remote: Remote(2), drb: Drb(1), way: Dl } })
down 1 9 0|Err(UnknownUe)
down 1 6 1|Err(UnknownBearer)
down 2 6 0|Err(UnknownBearer)
gnb 1 6 0|Ok(Key { remote: Remote(2), drb: Drb(1), way: Ul })
gnb 1 9 0|Err(UnknownUe)
gnb 1 6 1|Err(UnknownBearer)
gnb 2 6 0|Err(UnknownBearer)
remote 1 6 0|Ok(Key { remote: Remote(2), drb: Drb(1), way: Dl })
remote 1 5 0|Err(UnknownUe)
remote 1 6 1|Err(UnknownBearer)
remote 2 6 0|Err(UnknownBearer)";

#[test]
fn routes_by_attachments_and_map_rows(rt: HostRuntime) -> Result<(), Fail> {
    let alloc = rt.alloc();
    let (tables, ids) = two_remotes(&rt, alloc)?;
    for row in ROUTES.split('\n') {
        let Some((call, want)) = row.split_once('|') else {
            panic!(rt; "a row without a bar");
        };
        let said = route(&rt, alloc, &tables, &ids, call)?;
        assert_eq!(rt; said.as_str(), want, "{call}");
    }
    Ok(())
}

/// The remote with the local identity 5, and the identities of remotes 1 and 2.
fn attached(alloc: Global, ids: &Ids) -> Result<String, Fail> {
    let remote = ids.remote_of(LocalId(5));
    let (first, second) = (ids.id_of(Remote(1)), ids.id_of(Remote(2)));
    Ok(format!(in alloc; "{remote:?} {first:?} {second:?}")?)
}

#[test]
fn detaches_one_remote(rt: HostRuntime) -> Result<(), Fail> {
    let alloc = rt.alloc();
    let (_, mut ids) = two_remotes(&rt, alloc)?;
    let both = attached(alloc, &ids)?;
    assert_eq!(rt;
        both.as_str(),
        "Some(Remote(1)) Some(LocalId(5)) Some(LocalId(6))"
    );
    ids.detach(Remote(1));
    let one = attached(alloc, &ids)?;
    assert_eq!(rt; one.as_str(), "None None Some(LocalId(6))");
    Ok(())
}

// The rows of each table in the order of their names, and the settings.
const ROWS: &str = "\
[RemoteRow { remote: Remote(1), goal: Relay(LocalId(5)) }, RemoteRow { remote: Remote(2), goal: Relay(LocalId(6)) }]
[BearerRow { remote: Remote(1), drb: Drb(1), pdcp: S12, direct: S18, first_ul: 0, first_dl: 7 }, BearerRow { remote: Remote(2), drb: Drb(1), pdcp: S18, direct: S12, first_ul: 0, first_dl: 0 }]
[UuRow { chan: Chan(1), size: S12 }]
[Pc5Row { remote: Remote(1), chan: Chan(1), size: S12 }, Pc5Row { remote: Remote(2), chan: Chan(1), size: S12 }]
[MapRow { remote: Remote(1), drb: Drb(1), pc5: Chan(1), uu: Chan(1) }, MapRow { remote: Remote(2), drb: Drb(1), pc5: Chan(1), uu: Chan(1) }]
Settings { queue: 1024, report: 512, poll_pdu: 32, poll_byte: 0, max_retx: 255 }";

/// The rows of each table, and the settings.
fn rows_of(alloc: Global, tables: &Tables) -> Result<String, AllocError> {
    let (remotes, bearers, uus) = (tables.remotes(), tables.bearers(), tables.uus());
    let (pc5s, maps, settings) = (tables.pc5s(), tables.maps(), tables.settings());
    format!(in alloc; "{remotes:?}\n{bearers:?}\n{uus:?}\n{pc5s:?}\n{maps:?}\n{settings:?}")
}

#[test]
fn keeps_rows_in_order(rt: HostRuntime) -> Result<(), Fail> {
    let (given, _) = two_remotes(&rt, rt.alloc())?;
    let tables = given.copy(rt.alloc())?;
    let rows = rows_of(rt.alloc(), &tables)?;
    assert_eq!(rt; rows.as_str(), ROWS);
    Ok(())
}
