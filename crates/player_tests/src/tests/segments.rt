// Scripts whose SDUs go in segments, and the traces that they give.
use super::{Session, TABLES, expect_sessions};
use std::alloc::{AllocError, Global};
use std::test::Fail;

// Three segments come out of order.
const THREE_SEGMENTS: &str = "\
relayscript 1
remote 1
bearer 1 1 12 12
go
submit 1 1 ul 0102030405060708090a|ok 0
grant d1.1 ul 5|air 1 data 0 9000800001
grant d1.1 ul 8|air 2 data 0 b000000302030405
grant d1.1 ul 100|air 3 data 0 e0000007060708090a
deliver 3|ok stored
deliver 1|ok stored
deliver 2|  up 1 1 ul 0102030405060708090a|ok up 1
end|total 1 1 ul 1 1 0|total 1 1 dl 0 0 0|done";

// A grant has to have room for the header and one byte.
const SMALL_GRANTS: &str = "\
relayscript 1
remote 1
bearer 1 1 12 12
go
submit 1 1 ul 0102030405060708090a|ok 0
grant d1.1 ul 2|small 3
grant d1.1 ul 5|air 1 data 0 9000800001
grant d1.1 ul 4|small 5
end|total 1 1 ul 1 0 0|total 1 1 dl 0 0 0|done";

// Segments that come again bring nothing new.
const REPEATED_SEGMENTS: &str = "\
relayscript 1
remote 1
bearer 1 1 12 12
go
submit 1 1 ul 0102030405060708090a|ok 0
grant d1.1 ul 1|small 3
grant d1.1 ul 13|air 1 data 0 90008000010203040506070809
grant d1.1 ul 4|small 5
grant d1.1 ul 5|air 2 data 0 e000000b0a
grant d1.1 ul 1|idle
repeat 2|ok stored
repeat 2|ok repeat
deliver 2|ok repeat
repeat 1|  up 1 1 ul 0102030405060708090a|ok up 1
repeat 1|ok repeat
deliver 1|ok repeat
end|total 1 1 ul 1 1 0|total 1 1 dl 0 0 0|done";

// With 18 bits a header has an octet more.
const WIDE_SEGMENTS: &str = "\
relayscript 1
remote 1
bearer 1 1 12 18
go
submit 1 1 ul 0102030405060708090a|ok 0
grant d1.1 ul 3|small 4
grant d1.1 ul 6|air 1 data 0 900000800001
grant d1.1 ul 5|small 6
grant d1.1 ul 9|air 2 data 0 b00000000302030405
grant d1.1 ul 100|air 3 data 0 e000000007060708090a
deliver 3|ok stored
repeat 1|ok stored
deliver 1|ok repeat
deliver 2|  up 1 1 ul 0102030405060708090a|ok up 1
end|total 1 1 ul 1 1 0|total 1 1 dl 0 0 0|done";

// An SDU that is lost waits for a STATUS or for the poll timer.
const A_LOST_SDU: &str = "\
relayscript 1
remote 1
bearer 1 1 12 18
go
submit 1 1 ul 0102030405060708090a|ok 0
grant d1.1 ul 15|air 1 data 0 c0000080000102030405060708090a
lose 1|ok
deliver 1|noair
grant d1.1 ul 15|idle
end|total 1 1 ul 1 0 0|total 1 1 dl 0 0 0|done";

#[test]
fn segments_and_their_traces(rt: HostRuntime) -> Result<(), Fail> {
    expect_sessions(
        &rt,
        rt.alloc(),
        &[
            THREE_SEGMENTS,
            SMALL_GRANTS,
            REPEATED_SEGMENTS,
            WIDE_SEGMENTS,
            A_LOST_SDU,
        ],
    )
}

/// The bytes of an SDU of 9,000 bytes, in hexadecimal digits.
fn long_sdu(alloc: Global) -> Result<String, AllocError> {
    let mut digits = String::new(alloc);
    for place in 0..9000 {
        let byte = place % 251;
        write!(digits, "{byte:02x}")?;
    }
    Ok(digits)
}

/// The grant that makes this ticket, where SDUs of 9,000 bytes go byte by byte: the first PDU of each has the two bytes of
/// the PDCP header and one of the SDU, the others have one byte of it.
fn push_byte_grant(session: &mut Session, ticket: u32) -> Result<(), AllocError> {
    let before = ticket.saturating_sub(1);
    let number = before / 9000;
    let place = before % 9000;
    let byte = place % 251;
    let first = match place {
        0 => 0x90,
        8999 => 0xa0,
        _ => 0xb0,
    };
    let first = if ticket % 32 == 0 {
        first + 0x40
    } else {
        first
    };
    let header = if place == 0 {
        format!(in session.alloc; "{first:02x}{number:02x}80{number:02x}")?
    } else {
        let offset = place + 2;
        format!(in session.alloc; "{first:02x}{number:02x}{offset:04x}")?
    };
    let row = format!(in session.alloc;
        "grant d1.1 ul 5|air {ticket} data {number} {header}{byte:02x}"
    )?;
    session.push(row.as_str())
}

/// Two SDUs of 9,000 bytes are accepted.
fn push_two_submits(session: &mut Session, digits: &str) -> Result<(), AllocError> {
    for count in 0..2 {
        let row = format!(in session.alloc; "submit 1 1 ul {digits}|ok {count}")?;
        session.push(row.as_str())?;
    }
    Ok(())
}

/// The first SDU comes from its end to its front.
fn push_reverse(session: &mut Session, digits: &str) -> Result<(), AllocError> {
    for ticket in (2..9001).rev() {
        let row = format!(in session.alloc; "deliver {ticket}|ok stored")?;
        session.push(row.as_str())?;
    }
    let row = format!(in session.alloc; "deliver 1|  up 1 1 ul {digits}|ok up 1")?;
    session.push(row.as_str())
}

#[test]
fn a_full_air_and_an_sdu_byte_by_byte(rt: HostRuntime) -> Result<(), Fail> {
    let mut session = Session::new(rt.alloc());
    let digits = long_sdu(rt.alloc())?;
    session.push(TABLES.trim_end())?;
    push_two_submits(&mut session, digits.as_str())?;
    for ticket in 1..16_385 {
        push_byte_grant(&mut session, ticket)?;
    }
    session.push(
        "\
grant d1.1 ul 5|airfull
grant d1.2 ul 5|noport
repeat 9001|ok stored
grant d1.1 ul 2|airfull
lose 16384|ok
grant d1.1 ul 4|small 5",
    )?;
    push_byte_grant(&mut session, 16_385)?;
    session.push("grant d1.1 ul 5|airfull")?;
    push_reverse(&mut session, digits.as_str())?;
    push_byte_grant(&mut session, 16_386)?;
    session.push("end|total 1 1 ul 2 1 0|total 1 1 dl 0 0 0|done")?;
    session.expect(&rt)
}
