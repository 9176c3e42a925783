// Full windows, and PDUs that are too old to be heard.
use super::{Session, TABLES, WIDE_TABLES};
use std::alloc::{AllocError, Global};
use std::process::Abort;
use std::test::Fail;

/// The tables of one bearer, with 18-bit RLC sequence numbers where they are wide.
fn new_session(alloc: Global, wide: bool) -> Result<Session, AllocError> {
    let mut session = Session::new(alloc);
    session.push(if wide { WIDE_TABLES } else { TABLES }.trim_end())?;
    Ok(session)
}

/// SDUs are accepted that get these COUNTs.
fn push_submits(session: &mut Session, from: u32, to: u32) -> Result<(), AllocError> {
    for count in from..to {
        let row = format!(in session.alloc; "submit 1 1 ul 61|ok {count}")?;
        session.push(row.as_str())?;
    }
    Ok(())
}

/// The header of an AMD PDU with a whole SDU, in hexadecimal digits.
fn header(alloc: Global, wide: bool, number: u32, polls: bool) -> Result<String, AllocError> {
    let first = if polls { 0xc0 } else { 0x80 };
    let sn = number % 4096;
    if wide {
        format!(in alloc; "{first:02x}{sn:04x}")
    } else {
        let both = 256 * first + sn;
        format!(in alloc; "{both:04x}")
    }
}

/// The SDUs with these RLC numbers go, whole, with tickets from this one on. Each 32nd PDU polls, and so does the last.
fn push_grants(
    session: &mut Session,
    wide: bool,
    from: u32,
    to: u32,
    ticket: u32,
) -> Result<(), AllocError> {
    for place in 0..to.saturating_sub(from) {
        let number = from.saturating_add(place);
        let ticket = ticket.saturating_add(place);
        let polls = place % 32 == 31 || number == to.saturating_sub(1);
        let header = header(session.alloc, wide, number, polls)?;
        let pdcp = 0x8000 + number % 4096;
        let row = format!(in session.alloc;
            "grant d1.1 ul 100|air {ticket} data {number} {header}{pdcp:04x}61"
        )?;
        session.push(row.as_str())?;
    }
    Ok(())
}

/// A full window of SDUs is accepted and sent.
fn push_window(session: &mut Session, wide: bool) -> Result<(), AllocError> {
    push_submits(session, 0, 2048)?;
    session.push("submit 1 1 ul 61|full 0")?;
    push_grants(session, wide, 0, 2048, 1)
}

/// PDUs come that have these tickets, and each hands up its SDU.
fn push_deliveries(session: &mut Session, from: u32, to: u32) -> Result<(), AllocError> {
    for ticket in from..to {
        let row = format!(in session.alloc; "deliver {ticket}|  up 1 1 ul 61|ok up 1")?;
        session.push(row.as_str())?;
    }
    Ok(())
}

/// A line that submits so many bytes, and what it is answered.
fn push_long_submit(session: &mut Session, bytes: u32, answer: &str) -> Result<(), AllocError> {
    let mut row = String::from_str(session.alloc, "submit 1 1 ul ")?;
    for _ in 0..bytes {
        row.push_str("61")?;
    }
    write!(row, "|{answer}")?;
    session.push(row.as_str())
}

/// What is refused behind a full window, as long as nothing is confirmed.
fn play_full_window(rt: &impl Abort, alloc: Global, wide: bool) -> Result<(), Fail> {
    let mut session = new_session(alloc, wide)?;
    push_window(&mut session, wide)?;
    push_long_submit(&mut session, 9000, "full 0")?;
    push_long_submit(&mut session, 9001, "long")?;
    session.push(
        "\
grant d1.1 ul 100|idle
end|total 1 1 ul 2048 0 0|total 1 1 dl 0 0 0|done",
    )?;
    session.expect(rt)
}

#[test]
fn full_windows_and_long_sdus(rt: HostRuntime) -> Result<(), Fail> {
    play_full_window(&rt, rt.alloc(), false)?;
    play_full_window(&rt, rt.alloc(), true)
}

/// With a window of PDUs on the air, of which 100 come: the STATUS that they ask for makes room for 100 SDUs.
#[test]
fn a_status_makes_room(rt: HostRuntime) -> Result<(), Fail> {
    let mut session = new_session(rt.alloc(), false)?;
    push_window(&mut session, false)?;
    push_deliveries(&mut session, 1, 101)?;
    session.push(
        "\
submit 1 1 ul 61|full 0
grant d1.1 dl 100|air 2049 status 100 006400
deliver 2049|  conf 1 1 ul 100|ok acks 100",
    )?;
    push_submits(&mut session, 2048, 2148)?;
    session.push(
        "\
submit 1 1 ul 61|full 100
submit 1 1 ul -|empty
submit 1 2 ul 61|nobearer
end|total 1 1 ul 2148 100 100|total 1 1 dl 0 0 0|done",
    )?;
    session.expect(&rt)
}

/// A data PDU is heard that is a whole window behind RX_Next, and one that is further behind isn't.
#[test]
fn data_is_stale_behind_a_window(rt: HostRuntime) -> Result<(), Fail> {
    let mut session = new_session(rt.alloc(), false)?;
    push_window(&mut session, false)?;
    session.push("repeat 1|  up 1 1 ul 61|ok up 1")?;
    push_deliveries(&mut session, 2, 2049)?;
    session.push(
        "\
repeat 1|ok repeat
grant d1.1 dl 100|air 2049 status 2048 080000
deliver 2049|  conf 1 1 ul 2048|ok acks 2048
submit 1 1 ul 61|ok 2048
grant d1.1 ul 100|air 2050 data 2048 c800880061
deliver 2050|  up 1 1 ul 61|ok up 1
repeat 1|stale 0 2049
deliver 1|stale 0 2049
lose 1|ok
end|total 1 1 ul 2049 2049 2048|total 1 1 dl 0 0 0|done",
    )?;
    session.expect(&rt)
}

/// A STATUS is heard whose ACK is less than a window behind TX_Next_Ack, and one that is a whole window behind isn't.
#[test]
fn a_status_is_stale_at_a_window(rt: HostRuntime) -> Result<(), Fail> {
    let mut session = new_session(rt.alloc(), false)?;
    session.push(
        "\
submit 1 1 ul 61|ok 0
grant d1.1 ul 100|air 1 data 0 c000800061
deliver 1|  up 1 1 ul 61|ok up 1
grant d1.1 dl 100|air 2 status 1 000100
repeat 2|  conf 1 1 ul 1|ok acks 1
expire d1.1 high prohibit|ok",
    )?;
    push_submits(&mut session, 1, 2048)?;
    push_grants(&mut session, false, 1, 2048, 3)?;
    push_deliveries(&mut session, 3, 2050)?;
    session.push(
        "\
grant d1.1 dl 100|air 2050 status 2048 080000
deliver 2050|  conf 1 1 ul 2048|ok acks 2047
repeat 2|ok past
submit 1 1 ul 61|ok 2048
grant d1.1 ul 100|air 2051 data 2048 c800880061
deliver 2051|  up 1 1 ul 61|ok up 1
repeat 2|ok past
expire d1.1 high prohibit|ok
grant d1.1 dl 100|air 2052 status 2049 080100
deliver 2052|  conf 1 1 ul 2049|ok acks 1
repeat 2|stale 1 2049
deliver 2|stale 1 2049
lose 2|ok
end|total 1 1 ul 2049 2049 2049|total 1 1 dl 0 0 0|done",
    )?;
    session.expect(&rt)
}
