// The air, and the PDUs that a side still hears.
use link_base::{Drb, PortName, Remote, SnSize, Way, copy_bytes};
use rlc_hop::{Air, AirFault, Pdu, may_pass};
use std::alloc::Global;
use std::process::Abort;
use std::test::Fail;

// The epoch of each PDU.
const EPOCH: u32 = 7;

fn new_pdu(alloc: Global, status: bool, number: u64) -> Result<Pdu, Fail> {
    Ok(Pdu {
        port: PortName::Direct(Remote(1), Drb(1)),
        way: Way::Ul,
        epoch: EPOCH,
        status,
        number,
        bytes: copy_bytes(alloc, b"\x80\x00a")?,
    })
}

/// The number of a PDU.
fn number_text(alloc: Global, pdu: Option<&Pdu>) -> Result<String, Fail> {
    match pdu {
        None => Ok(String::from_str(alloc, "none")?),
        Some(pdu) => {
            let number = pdu.number;
            Ok(format!(in alloc; "{number}")?)
        }
    }
}

/// Puts the data PDU of a number on the air. Its ticket.
fn put(rt: &impl Abort, alloc: Global, air: &mut Air, number: u64) -> Result<String, Fail> {
    assert!(rt; air.made() < 1 << 61 && air.len() < 16_384);
    let ticket = air.put(new_pdu(alloc, false, number)?)?;
    Ok(format!(in alloc; "{ticket}")?)
}

/// How many PDUs were put on the air, how many are there, whether none is, and the lowest ticket.
fn state(alloc: Global, air: &Air) -> Result<String, Fail> {
    let (made, len, is_empty, lowest) = (air.made(), air.len(), air.is_empty(), air.lowest());
    Ok(format!(in alloc; "{made} {len} {is_empty} {lowest:?}")?)
}

/// Does a call, whose argument stands behind a space, and says what it answers.
fn said(rt: &impl Abort, alloc: Global, air: &mut Air, call: &str) -> Result<String, Fail> {
    let (word, argument) = call.split_once(' ').unwrap_or((call, "0"));
    let number = argument.parse()?;
    match word {
        "put" => put(rt, alloc, air, number),
        "get" => number_text(alloc, air.get(number)),
        "take" => number_text(alloc, air.take(number).as_ref()),
        "air" => state(alloc, air),
        _ => panic!(rt; "no such call: {call}"),
    }
}

// PDUs come off the air in order and out of order, each once.
const CALLS: &str = "\
air|0 0 true None
put 3|1
air|1 1 false Some(1)
get 0|none
get 1|3
get 2|none
take 1|3
take 1|none
air|1 0 true None
put 10|2
put 11|3
put 12|4
put 13|5
put 14|6
air|6 5 false Some(2)
take 3|11
air|6 4 false Some(2)
take 2|10
air|6 3 false Some(4)
take 6|14
air|6 2 false Some(4)
take 4|12
take 4|none
air|6 1 false Some(5)
take 5|13
air|6 0 true None
put 15|7
air|7 1 false Some(7)";

#[test]
fn takes_each_pdu_off_the_air_once(rt: HostRuntime) -> Result<(), Fail> {
    let alloc = rt.alloc();
    let mut air = Air::new(alloc)?;
    for row in CALLS.split('\n') {
        let Some((call, want)) = row.split_once('|') else {
            panic!(rt; "a row without a bar");
        };
        let answer = said(&rt, alloc, &mut air, call)?;
        assert_eq!(rt; answer.as_str(), want, "{call}");
    }
    Ok(())
}

/// Whether a PDU with a number may be heard by a side that stands at another one.
fn passing(
    alloc: Global,
    pdu: &Pdu,
    epoch: Option<u32>,
    next: u64,
    size: SnSize,
) -> Result<String, Fail> {
    let text = match may_pass(pdu, epoch, next, size) {
        Ok(()) => String::from_str(alloc, "passes"),
        Err(AirFault::Gone) => String::from_str(alloc, "gone"),
        Err(AirFault::Stale { number, next }) => format!(in alloc; "stale {number} {next}"),
    };
    Ok(text?)
}

#[test]
fn passes_no_pdu_of_another_epoch(rt: HostRuntime) -> Result<(), Fail> {
    let pdu = new_pdu(rt.alloc(), false, 5)?;
    for epoch in [None, Some(EPOCH - 1), Some(EPOCH + 1)] {
        for next in [5, 1_000_000] {
            let said = passing(rt.alloc(), &pdu, epoch, next, SnSize::S12)?;
            assert_eq!(rt; said.as_str(), "gone");
        }
    }
    Ok(())
}

// A PDU with its number, the number at which the side stands, and whether it is heard. What lies above is never stale, and
// no number is too great.
const NARROW: &str = "\
data 5 2053|passes
data 5 2054|stale 5 2054
status 5 2052|passes
status 5 2053|stale 5 2053
data 18446744073709551615 0|passes";

const WIDE: &str = "\
data 5 131077|passes
data 5 131078|stale 5 131078
status 5 131076|passes
status 5 131077|stale 5 131077
status 18446744073709551615 5|passes
data 0 18446744073709551615|stale 0 18446744073709551615";

/// Tries each row of a table.
fn expect_passing(rt: &impl Abort, alloc: Global, size: SnSize, rows: &str) -> Result<(), Fail> {
    for row in rows.split('\n') {
        let Some((pdu, want)) = row.split_once('|') else {
            panic!(rt; "a row without a bar");
        };
        let (kind, numbers) = pdu.split_once(' ').unwrap_or((pdu, ""));
        let (number, next) = numbers.split_once(' ').unwrap_or((numbers, ""));
        let pdu = new_pdu(alloc, kind == "status", number.parse()?)?;
        let said = passing(alloc, &pdu, Some(EPOCH), next.parse()?, size)?;
        assert_eq!(rt; said.as_str(), want, "{row}");
    }
    Ok(())
}

#[test]
fn passes_no_stale_pdu(rt: HostRuntime) -> Result<(), Fail> {
    expect_passing(&rt, rt.alloc(), SnSize::S12, NARROW)?;
    expect_passing(&rt, rt.alloc(), SnSize::S18, WIDE)
}
