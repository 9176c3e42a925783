// Eight remotes on the relay, over one Uu channel and over eight, both ways and with losses at each hop.
use super::{Session, rows_of};
use std::alloc::{AllocError, Global};
use std::ops::RangeInclusive;
use std::test::Fail;

/// Adds rows for each remote, with its ticket of those from a first one on. In their text `R` stands for the remote, `N` for the
/// number of remotes before it, and `#` for the ticket.
fn push_for_each(
    session: &mut Session,
    alloc: Global,
    remotes: RangeInclusive<u8>,
    first: u64,
    rows: &str,
) -> Result<(), AllocError> {
    let mut ticket = first;
    for remote in remotes {
        let numbers = [
            ('R', u64::from(remote)),
            ('N', u64::from(remote).saturating_sub(1)),
            ('#', ticket),
        ];
        session.push(rows_of(alloc, rows, &numbers)?.as_str())?;
        ticket = ticket.saturating_add(1);
    }
    Ok(())
}

/// Adds several such groups of rows for eight remotes.
fn push_for_eight(
    session: &mut Session,
    alloc: Global,
    groups: &[(u64, &str)],
) -> Result<(), AllocError> {
    for (first, rows) in groups {
        push_for_each(session, alloc, 1..=8, *first, *rows)?;
    }
    Ok(())
}

/// A session that begins with these lines, and in whose tables each remote has these.
fn session_of(alloc: Global, head: &str, tables: &str) -> Result<Session, AllocError> {
    let mut session = Session::new(alloc);
    session.push(head)?;
    push_for_each(&mut session, alloc, 1..=8, 0, tables)?;
    session.push("go")?;
    Ok(session)
}

/// The end of a session, with the totals of each remote.
fn push_end(session: &mut Session, alloc: Global, totals: &str) -> Result<(), AllocError> {
    session.push("end")?;
    push_for_each(session, alloc, 1..=8, 0, totals)?;
    session.push("|done")
}

// Each PDU polls. The channel's STATUS names the SDU of remote 1, which was lost, among those of all.
#[test]
fn eight_remotes_on_one_uu_channel(rt: HostRuntime) -> Result<(), Fail> {
    let alloc = rt.alloc();
    let tables = "remote R\nbearer R 1 12 12\npc5 R 1 12\nmap R 1 1 1\npath R relay R";
    let mut session = session_of(alloc, "relayscript 1\nset pollpdu 1\nuu 1 12", tables)?;
    push_for_eight(
        &mut session,
        alloc,
        &[
            (0, "submit R 1 ul 61|ok 0"),
            (1, "grant pR.1 ul 100|air # data 0 c000800R800061"),
            (1, "lose #|ok"),
            (0, "expire pR.1 low poll|ok"),
            (9, "grant pR.1 ul 100|air # data 0 c000800R800061"),
            (9, "deliver #|ok slot u1\npush pR.1|ok u1"),
            (0, "pull u1|ok N"),
            (17, "grant u1 ul 100|air # data N c00N800R800061"),
        ],
    )?;
    session.push("lose 17|ok")?;
    push_for_each(
        &mut session,
        alloc,
        2..=8,
        18,
        "deliver #|  up R 1 ul 61|ok up 1",
    )?;
    session.push(
        "\
expire u1 high reasm|ok
grant u1 dl 100|air 25 status 8 0008800000
deliver 25|ok acks 7
grant u1 ul 100|air 26 data 0 c0008001800061
deliver 26|  up 1 1 ul 61|ok up 1",
    )?;
    push_for_eight(
        &mut session,
        alloc,
        &[
            (27, "grant pR.1 dl 100|air # status 1 000100"),
            (27, "deliver #|ok acks 1"),
            (0, "submit R 1 dl 62|ok 0"),
        ],
    )?;
    session.push(
        "\
expire u1 high prohibit|ok
grant u1 dl 100|air 35 status 8 000800
deliver 35|ok acks 1",
    )?;
    push_for_each(
        &mut session,
        alloc,
        1..=8,
        36,
        "grant u1 dl 100|air # data N c00N800R800062",
    )?;
    session.push("lose 36|ok")?;
    push_for_each(
        &mut session,
        alloc,
        2..=8,
        37,
        "deliver #|ok slot pR.1\npush u1|ok pR.1",
    )?;
    session.push(
        "\
expire u1 low reasm|ok
grant u1 ul 100|air 44 status 8 0008800000
deliver 44|ok acks 7
grant u1 dl 100|air 45 data 0 c0008001800062
deliver 45|ok slot p1.1
push u1|ok p1.1",
    )?;
    push_for_eight(
        &mut session,
        alloc,
        &[
            (0, "pull pR.1|ok 0"),
            (46, "grant pR.1 dl 100|air # data 0 c000800R800062"),
            (46, "lose #|ok"),
            (0, "expire pR.1 high poll|ok"),
            (54, "grant pR.1 dl 100|air # data 0 c000800R800062"),
            (54, "deliver #|  up R 1 dl 62|ok up 1"),
        ],
    )?;
    push_end(
        &mut session,
        alloc,
        "|total R 1 ul 1 1 0|total R 1 dl 1 1 0",
    )?;
    session.expect(&rt)
}

// A report about each SDU comes back over both hops, and its PDUs are lost once, too.
#[test]
fn eight_remotes_on_eight_uu_channels(rt: HostRuntime) -> Result<(), Fail> {
    let alloc = rt.alloc();
    let tables = "remote R\nbearer R 1 12 12\nuu R 12\npc5 R 1 12\nmap R 1 1 R\npath R relay R";
    let mut session = session_of(alloc, "relayscript 1\nset report 1", tables)?;
    push_for_eight(
        &mut session,
        alloc,
        &[
            (0, "submit R 1 ul 61|ok 0"),
            (1, "grant pR.1 ul 100|air # data 0 c000800R800061"),
            (1, "lose #|ok"),
            (0, "expire pR.1 low poll|ok"),
            (9, "grant pR.1 ul 100|air # data 0 c000800R800061"),
            (9, "deliver #|ok slot uR"),
            (0, "push pR.1|ok uR"),
            (0, "pull uR|ok 0"),
            (17, "grant uR ul 100|air # data 0 c000800R800061"),
            (17, "lose #|ok"),
            (0, "expire uR low poll|ok"),
            (25, "grant uR ul 100|air # data 0 c000800R800061"),
            (25, "deliver #|  up R 1 ul 61|  rep R 1 ul|ok up 1"),
            (33, "grant uR dl 100|air # status 1 000100"),
            (33, "deliver #|ok acks 1"),
            (41, "grant uR dl 100|air # data 0 c000800R0000000001"),
            (41, "lose #|ok"),
            (0, "expire uR high poll|ok"),
            (49, "grant uR dl 100|air # data 0 c000800R0000000001"),
            (49, "deliver #|ok slot pR.1"),
            (0, "push uR|ok pR.1"),
            (0, "pull pR.1|ok 0"),
            (57, "grant pR.1 dl 100|air # status 1 000100"),
            (57, "deliver #|ok acks 1"),
            (65, "grant pR.1 dl 100|air # data 0 c000800R0000000001"),
            (65, "lose #|ok"),
            (0, "expire pR.1 high poll|ok"),
            (73, "grant pR.1 dl 100|air # data 0 c000800R0000000001"),
            (73, "deliver #|  conf R 1 ul 1|ok report"),
            (81, "grant uR ul 100|air # status 1 000100"),
            (81, "deliver #|ok acks 1"),
            (89, "grant pR.1 ul 100|air # status 1 000100"),
            (89, "deliver #|ok acks 1"),
            (0, "submit R 1 dl 62|ok 0"),
            (97, "grant uR dl 100|air # data 1 c001800R800062"),
            (97, "lose #|ok"),
            (0, "expire uR high poll|ok"),
            (105, "grant uR dl 100|air # data 1 c001800R800062"),
            (105, "deliver #|ok slot pR.1"),
            (0, "push uR|ok pR.1"),
            (0, "pull pR.1|ok 1"),
            (113, "grant pR.1 dl 100|air # data 1 c001800R800062"),
            (113, "lose #|ok"),
            (0, "expire pR.1 high poll|ok"),
            (121, "grant pR.1 dl 100|air # data 1 c001800R800062"),
            (121, "deliver #|  up R 1 dl 62|  rep R 1 dl|ok up 1"),
        ],
    )?;
    push_end(
        &mut session,
        alloc,
        "|total R 1 ul 1 1 1|total R 1 dl 1 1 0",
    )?;
    session.expect(&rt)
}
