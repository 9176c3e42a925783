// Bearers of several remotes, both ways, with status reports and all sizes of sequence numbers.
use super::{Session, expect_sessions, rows_of};
use std::alloc::{AllocError, Global};
use std::test::Fail;

// The last COUNTs of a bearer, of which the receiver reports that all before 2^32 - 1 were heard.
const THE_LAST_COUNTS: &str = "\
relayscript 1
remote 1
bearer 1 1 12 12
start 1 1 ul 4294967293
go
submit 1 1 ul 61|ok 4294967293
submit 1 1 ul 61|ok 4294967294
submit 1 1 ul 61|spent
grant d1.1 ul 100|air 1 data 0 80008ffd61
grant d1.1 ul 100|air 2 data 1 c0018ffe61
deliver 2|ok waiting
deliver 1|  up 1 1 ul 61|  up 1 1 ul 61|ok up 2
repeat 2|noair
report 1 1 ul|  rep 1 1 ul|ok
grant d1.1 dl 100|air 3 status 2 000200
grant d1.1 dl 100|air 4 data 0 c00000ffffffff
deliver 4|  conf 1 1 ul 2|ok report
end|total 1 1 ul 2 2 2|total 1 1 dl 0 0 0|done";

// A status report confirms what RLC had not, and one about the other way names nothing.
const REPORTS_OF_BOTH_WAYS: &str = "\
relayscript 1
remote 1
bearer 1 1 12 12
go
submit 1 1 ul 6869|ok 0
grant d1.1 ul 100|air 1 data 0 c00080006869
deliver 1|  up 1 1 ul 6869|ok up 1
report 1 1 ul|  rep 1 1 ul|ok
grant d1.1 dl 100|air 2 status 1 000100
grant d1.1 dl 100|air 3 data 0 c0000000000001
deliver 3|  conf 1 1 ul 1|ok report
report 1 1 dl|  rep 1 1 dl|ok
grant d1.1 ul 100|air 4 status 1 000100
deliver 4|ok acks 1
report 1 2 ul|nobearer
report 2 1 dl|nobearer
end|total 1 1 ul 1 1 1|total 1 1 dl 0 0 0|done";

// PDCP with 18 bits over RLC with 12, and the other way round; a first COUNT of many cycles; three bearers side by side.
const SIZES_ONE_OVER_THE_OTHER: &str = "\
relayscript 1
remote 1
remote 7
bearer 1 1 18 12
bearer 1 3 12 18
bearer 7 1 12 12
start 7 1 dl 70000
path 7 direct
set report 3
go
submit 1 1 ul 61|ok 0
submit 1 1 dl 62|ok 0
submit 1 3 ul 63|ok 0
submit 7 1 ul 64|ok 0
submit 7 1 dl 65|ok 70000
submit 7 3 dl 66|nobearer
grant d7.1 dl 100|air 1 data 0 c000817065
grant d1.3 ul 100|air 2 data 0 c00000800063
grant d1.1 ul 100|air 3 data 0 c00080000061
grant d1.1 dl 100|air 4 data 0 c00080000062
grant d7.1 ul 100|air 5 data 0 c000800064
grant d7.3 ul 100|noport
deliver 1|  up 7 1 dl 65|ok up 1
deliver 2|  up 1 3 ul 63|ok up 1
deliver 3|  up 1 1 ul 61|ok up 1
deliver 4|  up 1 1 dl 62|ok up 1
deliver 5|  up 7 1 ul 64|ok up 1
submit 1 3 ul 67|ok 1
submit 1 3 ul 68|ok 2
grant d1.3 ul 100|air 6 data 1 800001800167
grant d1.3 ul 100|air 7 data 2 c00002800268
deliver 7|ok waiting
grant d1.3 dl 100|air 8 status 1 000004
deliver 8|  conf 1 3 ul 1|ok acks 1
report 1 3 ul|  rep 1 3 ul|ok
grant d1.3 dl 100|air 9 data 0 c00000000000000180
deliver 6|  up 1 3 ul 67|  up 1 3 ul 68|ok up 2
grant d1.3 dl 100|idle
lose 9|ok
expire d1.3 high prohibit|ok
grant d1.3 dl 100|air 10 status 3 00000c
grant d1.3 dl 100|idle
deliver 10|  conf 1 3 ul 3|ok acks 2
end|total 1 1 ul 1 1 0|total 1 1 dl 1 1 0|total 1 3 ul 3 3 3|total 1 3 dl 0 0 0|total 7 1 ul 1 1 0|total 7 1 dl 1 1 0|done";

/// How many remotes the long session has, and how many bearers each of them.
const EIGHT: u32 = 8;

/// Adds rows for each bearer, with its ticket of those from a first one on. In their text `R` and `D` stand for its remote and
/// for itself, and `#` for the ticket.
fn push_for_each(
    session: &mut Session,
    alloc: Global,
    first: u32,
    rows: &str,
) -> Result<(), AllocError> {
    for place in 0..EIGHT * EIGHT {
        let (remote, drb) = (place / EIGHT + 1, place % EIGHT + 1);
        let ticket = u64::from(first) + u64::from(place);
        let numbers = [
            ('R', u64::from(remote)),
            ('D', u64::from(drb)),
            ('#', ticket),
        ];
        let text = rows_of(alloc, rows, &numbers)?;
        session.push(text.as_str())?;
    }
    Ok(())
}

#[test]
fn bearers_both_ways(rt: HostRuntime) -> Result<(), Fail> {
    expect_sessions(
        &rt,
        rt.alloc(),
        &[
            THE_LAST_COUNTS,
            REPORTS_OF_BOTH_WAYS,
            SIZES_ONE_OVER_THE_OTHER,
        ],
    )
}

// Each bearer has two SDUs up and one down. The second PDU up comes first, the first is lost and sent again, and all is confirmed.
#[test]
fn sixty_four_bearers_to_their_end(rt: HostRuntime) -> Result<(), Fail> {
    let alloc = rt.alloc();
    let mut session = Session::new(alloc);
    session.push("relayscript 1")?;
    for remote in 1..=EIGHT {
        session.push(format!(in alloc; "remote {remote}")?.as_str())?;
    }
    push_for_each(&mut session, alloc, 0, "bearer R D 18 12")?;
    session.push("go")?;
    for (first, rows) in [
        (0, "submit R D ul 61|ok 0"),
        (0, "submit R D ul 62|ok 1"),
        (0, "submit R D dl 63|ok 0"),
        (1, "grant dR.D ul 100|air # data 0 800080000061"),
        (65, "grant dR.D ul 100|air # data 1 c00180000162"),
        (129, "grant dR.D dl 100|air # data 0 c00080000063"),
        (65, "deliver #|ok waiting"),
        (1, "lose #|ok"),
        (129, "deliver #|  up R D dl 63|ok up 1"),
        (193, "grant dR.D ul 100|air # status 1 000100"),
        (193, "deliver #|  conf R D dl 1|ok acks 1"),
        (0, "expire dR.D high reasm|ok"),
        (257, "grant dR.D dl 100|air # status 2 0002800000"),
        (257, "deliver #|ok acks 1"),
        (321, "grant dR.D ul 100|air # data 0 c00080000061"),
        (321, "deliver #|  up R D ul 61|  up R D ul 62|ok up 2"),
        (0, "expire dR.D high prohibit|ok"),
        (385, "grant dR.D dl 100|air # status 2 000200"),
        (385, "deliver #|  conf R D ul 2|ok acks 1"),
    ] {
        push_for_each(&mut session, alloc, first, rows)?;
    }
    session.push("end")?;
    push_for_each(
        &mut session,
        alloc,
        0,
        "|total R D ul 2 2 2|total R D dl 1 1 1",
    )?;
    session.push("|done")?;
    session.expect(&rt)
}
