// Every order in which five PDUs may come.
use super::Session;
use std::alloc::{AllocError, Global};
use std::process::Abort;
use std::test::Fail;

/// The tickets 1 to 5 in the order with this code, which has a digit for each ticket; none where one stands twice.
fn order_of(alloc: Global, code: u32) -> Result<Option<Vec<u32>>, AllocError> {
    let mut order = Vec::new(alloc);
    let mut rest = code;
    for _ in 0..5 {
        let ticket = rest % 5 + 1;
        if order.contains(&ticket) {
            return Ok(None);
        }
        order.push(ticket)?;
        rest /= 5;
    }
    Ok(Some(order))
}

// Five SDUs go, each in one PDU.
const FIVE_SDUS: &str = "\
relayscript 1
remote 1
bearer 1 1 12 12
go
submit 1 1 ul 61|ok 0
submit 1 1 ul 62|ok 1
submit 1 1 ul 63|ok 2
submit 1 1 ul 64|ok 3
submit 1 1 ul 65|ok 4
grant d1.1 ul 100|air 1 data 0 8000800061
grant d1.1 ul 100|air 2 data 1 8001800162
grant d1.1 ul 100|air 3 data 2 8002800263
grant d1.1 ul 100|air 4 data 3 8003800364
grant d1.1 ul 100|air 5 data 4 c004800465";

/// The five PDUs come in an order. All SDUs without a gap go up.
fn push_deliveries(session: &mut Session, order: &[u32]) -> Result<(), AllocError> {
    let mut heard = Vec::new(session.alloc);
    let mut up = 0;
    for ticket in order {
        heard.push(*ticket)?;
        let from = up;
        let mut row = format!(in session.alloc; "deliver {ticket}")?;
        for number in 1..6 {
            if number > up && heard.contains(&number) && up == number - 1 {
                write!(row, "|  up 1 1 ul 6{number}")?;
                up = number;
            }
        }
        match up.saturating_sub(from) {
            0 => row.push_str("|ok waiting")?,
            count => write!(row, "|ok up {count}")?,
        }
        session.push(row.as_str())?;
    }
    Ok(())
}

/// Plays the five deliveries in an order.
fn play_deliveries(rt: &impl Abort, alloc: Global, order: &[u32]) -> Result<(), Fail> {
    let mut session = Session::new(alloc);
    session.push(FIVE_SDUS)?;
    push_deliveries(&mut session, order)?;
    session.push("end|total 1 1 ul 5 5 0|total 1 1 dl 0 0 0|done")?;
    session.expect(rt)
}

#[test]
fn every_order_of_five_deliveries(rt: HostRuntime) -> Result<(), Fail> {
    for code in 0..3125 {
        if let Some(order) = order_of(rt.alloc(), code)? {
            play_deliveries(&rt, rt.alloc(), &order)?;
        }
    }
    Ok(())
}

// Two SDUs go in three segments and in two.
const FIVE_SEGMENTS: &str = "\
relayscript 1
remote 1
bearer 1 1 12 12
go
submit 1 1 ul 606260|ok 0
submit 1 1 ul 616261|ok 1
grant d1.1 ul 5|air 1 data 0 9000800060
grant d1.1 ul 5|air 2 data 0 b000000362
grant d1.1 ul 100|air 3 data 0 a000000460
grant d1.1 ul 5|air 4 data 1 9001800161
grant d1.1 ul 100|air 5 data 1 e00100036261";

/// The five segments come in an order, each twice. The second time a segment brings nothing new. The first time it is
/// stored, unless all segments of its SDU have come; then the SDU waits for a lower one, or goes up with those behind it
/// that wait.
fn push_segments(session: &mut Session, order: &[u32]) -> Result<(), AllocError> {
    let mut missing: [u32; 2] = [3, 2];
    let mut up = 0;
    for ticket in order {
        let number = if *ticket <= 3 { 0 } else { 1 };
        if let Some(left) = missing.get_mut(number) {
            *left = left.saturating_sub(1);
        }
        let from = up;
        let mut row = format!(in session.alloc; "repeat {ticket}")?;
        for (number, left) in missing.iter().enumerate() {
            if up == number && *left == 0 {
                write!(row, "|  up 1 1 ul 6{number}626{number}")?;
                up = number.saturating_add(1);
            }
        }
        match up.saturating_sub(from) {
            0 if missing.get(number) == Some(&0) => row.push_str("|ok waiting")?,
            0 => row.push_str("|ok stored")?,
            count => write!(row, "|ok up {count}")?,
        }
        write!(row, "\ndeliver {ticket}|ok repeat")?;
        session.push(row.as_str())?;
    }
    Ok(())
}

/// Plays the five segments in an order.
fn play_segments(rt: &impl Abort, alloc: Global, order: &[u32]) -> Result<(), Fail> {
    let mut session = Session::new(alloc);
    session.push(FIVE_SEGMENTS)?;
    push_segments(&mut session, order)?;
    session.push("end|total 1 1 ul 2 2 0|total 1 1 dl 0 0 0|done")?;
    session.expect(rt)
}

#[test]
fn every_order_of_five_segments(rt: HostRuntime) -> Result<(), Fail> {
    for code in 0..3125 {
        if let Some(order) = order_of(rt.alloc(), code)? {
            play_segments(&rt, rt.alloc(), &order)?;
        }
    }
    Ok(())
}
