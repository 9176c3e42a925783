// Calls on a receiving side, each beside what it answers.
use crate::rows::call_and_answer;
use link_base::SnSize::{self, S12, S18};
use pdcp_rx::{PdcpHeard, PdcpRx};
use std::alloc::Global;
use std::process::Abort;
use std::test::Fail;

const IN_ORDER: &str = "\
2048 61|before start
0 61|up 61
0 61|old
report|0000000001";

// A report names what waits: bit 1 stands for the COUNT behind FMC.
const A_GAP: &str = "\
1 61|stored
2 62|stored
report|0000000000c0
2 63|repeat
9 64|stored
report|0000000000c080
0 60|up 60 61 62
report|000000000304
1 61|old
deliv|3";

const THE_LAST_COUNTS: &str = "\
4095 62|past end
4094 61|stored
report|00fffffffd80
4093 60|up 60 61
4094 61|old
4095 62|past end
0 63|past end
report|00ffffffff
deliv|4294967295";

const THE_LAST_COUNT: &str = "\
4095 61|past end
4094 61|up 61
4094 61|old
deliv|4294967295";

// SNs begin anew at COUNT 262,144. An SDU a window ahead is taken for one that was handed up.
const A_WRAP_OF_18_BITS: &str = "\
262143 62|stored
0 63|stored
262142 61|up 61 62 63
1 64|up 64
131074 65|old
report|0000040002
131073 65|stored
report|none
deliv|262146";

/// What hearing an SDU answers.
fn heard(
    rt: &impl Abort,
    alloc: Global,
    rx: &mut PdcpRx,
    sn: u32,
    sdu: &[u8],
) -> Result<String, Fail> {
    assert!(rt; u64::from(sn) < rx.size().modulus() && !sdu.is_empty() && sdu.len() <= 9_000);
    let word = match rx.hear(sn, sdu)? {
        PdcpHeard::Up(sdus) => {
            let mut text = String::from_str(alloc, "up")?;
            for sdu in sdus.as_slice() {
                let digits = hex::encode(alloc, sdu.as_slice())?;
                text.push_str(" ")?;
                text.push_str(digits.as_str())?;
            }
            return Ok(text);
        }
        PdcpHeard::Stored => "stored",
        PdcpHeard::Old => "old",
        PdcpHeard::Repeat => "repeat",
        PdcpHeard::BeforeStart => "before start",
        PdcpHeard::PastEnd => "past end",
    };
    Ok(String::from_str(alloc, word)?)
}

/// The digits of a status report, or `none` where none can tell of all that is stored.
fn report(alloc: Global, rx: &PdcpRx) -> Result<String, Fail> {
    if !rx.can_report() {
        return Ok(String::from_str(alloc, "none")?);
    }
    let octets = rx.make_report()?;
    Ok(hex::encode(alloc, octets.as_slice())?)
}

/// Does a call, `report`, `deliv`, or an SN and an SDU to hear, and says what it answers.
fn said(rt: &impl Abort, alloc: Global, rx: &mut PdcpRx, call: &str) -> Result<String, Fail> {
    if call == "report" {
        return report(alloc, rx);
    }
    if call == "deliv" {
        return Ok(format!(in alloc; "{}", rx.deliv())?);
    }
    let Some((sn, digits)) = call.split_once(' ') else {
        panic!(rt; "no such call: {call}");
    };
    let sdu = hex::decode(alloc, digits.as_bytes())?;
    heard(rt, alloc, rx, sn.parse()?, &sdu)
}

/// Does the calls of a table on a receiving side with this first COUNT: each row is a call and, behind a bar, what it
/// answers.
fn expect_rows(
    rt: &impl Abort,
    alloc: Global,
    size: SnSize,
    first: u32,
    rows: &str,
) -> Result<(), Fail> {
    assert!(rt; first < u32::MAX);
    let mut rx = PdcpRx::new(alloc, size, first)?;
    for row in rows.split('\n') {
        let (call, want) = call_and_answer(rt, row);
        let said = said(rt, alloc, &mut rx, call)?;
        assert_eq!(rt; said.as_str(), want, "{call}");
    }
    Ok(())
}

#[test]
fn answers_and_reports(rt: HostRuntime) -> Result<(), Fail> {
    let alloc = rt.alloc();
    expect_rows(&rt, alloc, S12, 0, IN_ORDER)?;
    expect_rows(&rt, alloc, S12, 0, A_GAP)?;
    expect_rows(&rt, alloc, S12, 4_294_967_293, THE_LAST_COUNTS)?;
    expect_rows(&rt, alloc, S12, 4_294_967_294, THE_LAST_COUNT)?;
    expect_rows(&rt, alloc, S18, 262_142, A_WRAP_OF_18_BITS)
}

// A window of SDUs comes in reverse order, and goes up in order at the last one.
#[test]
fn hands_up_a_window_in_order(rt: HostRuntime) -> Result<(), Fail> {
    let mut rx = PdcpRx::new(rt.alloc(), S12, 4_000)?;
    for ahead in (1..2_048_u32).rev() {
        let sdu = ahead.to_be_bytes();
        let said = heard(&rt, rt.alloc(), &mut rx, (4_000 + ahead) % 4_096, &sdu)?;
        assert_eq!(rt; said.as_str(), "stored");
    }
    let octets = if rx.can_report() {
        rx.make_report()?
    } else {
        return Err(Fail::new("none"))
    };
    assert_eq!(rt; octets.len(), 5 + 256);
    assert_eq!(rt; rx.handed(), 0);
    assert!(rt; 4_000 < rx.size().modulus());
    let PdcpHeard::Up(sdus) = rx.hear(4_000, &[0; 4])? else {
        panic!(rt; "the next one doesn't go up");
    };
    assert_eq!(rt; rx.handed(), 2_048);
    assert_eq!(rt; sdus.len(), 2_048);
    for (number, sdu) in (0..2_048_u32).zip(sdus.as_slice()) {
        assert_eq!(rt; sdu.as_slice(), number.to_be_bytes().as_slice());
    }
    Ok(())
}

// The widest store that a report can tell of has a COUNT 65,535 above RX_DELIV.
#[test]
fn reports_the_widest_store(rt: HostRuntime) -> Result<(), Fail> {
    let mut rx = PdcpRx::new(rt.alloc(), S18, 0)?;
    heard(&rt, rt.alloc(), &mut rx, 65_535, b"a")?;
    let digits = report(rt.alloc(), &rx)?;
    assert_eq!(rt; digits.len(), 2 * 8_197);
    assert!(rt; digits.as_str().ends_with("0002"));
    assert!(rt; digits.as_str().starts_with("000000000000"));
    heard(&rt, rt.alloc(), &mut rx, 65_536, b"b")?;
    let none = report(rt.alloc(), &rx)?;
    assert_eq!(rt; none.as_str(), "none");
    Ok(())
}
