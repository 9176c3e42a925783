// Runs of a receiver, and the order and the amount of what it hears.
use super::{Hop, expect_tables};
use link_base::SnSize;
use std::alloc::{AllocError, Global};
use std::process::Abort;
use std::test::Fail;

const OUTSIDE: &str = "\
hear 8fff61|outside";

// A byte past the known length.
const A_BYTE_PAST_THE_END: &str = "\
hear a00000056162|stored
hear b000000763|conflict";

const ANOTHER_LENGTH: &str = "\
hear a00000056162|stored
hear a0000005616263|conflict";

// A segment that ends at the known length and isn't the last.
const NOT_THE_LAST: &str = "\
hear a00000056162|stored
hear b000000361626364|conflict";

// A length below a place held.
const A_SHORT_END: &str = "\
hear b0000005616263|stored
hear a00000056162|conflict";

const A_WHOLE_SDU: &str = "\
hear c00061|complete 0 61
receiver|1 1 true true false
prohibit|stopped
make 2|small 3
make 3|ack 1 000100
receiver|1 1 false false false
prohibit|done";

// An element for the two numbers has six octets with the header.
const NO_ROOM_FOR_AN_ELEMENT: &str = "\
hear 800261|complete 2 61
reassembly|done
make 5|ack 0 000000";

// A poll at a number that isn't below RX_Highest_Status waits for t-Reassembly.
const A_POLL_THAT_WAITS: &str = "\
reassembly|stopped
hear c00261|complete 2 61
receiver|0 0 false false true
reassembly|done
receiver|0 3 true true false
make 5|ack 0 000000
prohibit|done
hear c00261|repeat
make 6|ack 3 000380000202";

// The gaps of a number are named together or not at all.
const GAPS: &str = "\
hear b00000026162|stored
hear b00000066162|stored
hear 800161|complete 1 61
reassembly|done
make 20|ack 0 000000
prohibit|done
hear c00161|repeat
make 21|ack 2 000280000c00000001000c0004000500040008ffff
prohibit|done
hear a00000097a|stored
hear c00161|repeat
make 21|ack 2 000280000c00000001000c00040005000400080008";

const RUNS_OF_NUMBERS: &str = "\
hear 81ff61|complete 511 61
reassembly|done
make 100|ack 512 020080000aff0ffaff1fe0";

#[test]
fn answers_and_reports(rt: HostRuntime) -> Result<(), Fail> {
    expect_tables(
        &rt,
        rt.alloc(),
        &[
            OUTSIDE,
            A_BYTE_PAST_THE_END,
            ANOTHER_LENGTH,
            NOT_THE_LAST,
            A_SHORT_END,
            A_WHOLE_SDU,
            NO_ROOM_FOR_AN_ELEMENT,
            A_POLL_THAT_WAITS,
            GAPS,
            RUNS_OF_NUMBERS,
        ],
    )
}

/// Hears the bytes from 10 up to but without 20 as 1, then those from `from` up to but without `to` as 2, and then 30
/// bytes as 3: each place keeps its first byte.
fn play_overlap(rt: &impl Abort, alloc: Global, from: u32, to: u32) -> Result<(), Fail> {
    let mut hop = Hop::new(alloc, SnSize::S12)?;
    let mut segment = format!(in alloc; "hear b000{from:04x}")?;
    let mut whole = String::from_str(alloc, "hear 8000")?;
    let mut want = String::from_str(alloc, "complete 0 ")?;
    for at in 0..30 {
        let is_second = from <= at && at < to;
        if is_second {
            segment.push_str("02")?;
        }
        whole.push_str("03")?;
        want.push_str(match at {
            10..20 => "01",
            _ if is_second => "02",
            _ => "03",
        })?;
    }
    let is_news = from < 10 || 20 < to;
    hop.expect(rt, "hear b000000a01010101010101010101", "stored")?;
    hop.expect(
        rt,
        segment.as_str(),
        if is_news { "stored" } else { "repeat" },
    )?;
    hop.expect(rt, whole.as_str(), want.as_str())
}

// Before what is held, beside it, across an end, within, the same, and around.
#[test]
fn takes_segments_that_overlap(rt: HostRuntime) -> Result<(), Fail> {
    for (from, to) in [
        (1, 5),
        (1, 10),
        (5, 15),
        (10, 15),
        (12, 18),
        (15, 20),
        (10, 20),
        (10, 25),
        (15, 25),
        (20, 25),
        (21, 25),
        (5, 20),
        (5, 25),
    ] {
        play_overlap(&rt, rt.alloc(), from, to)?;
    }
    Ok(())
}

/// The segment that has the byte at a place of an SDU of 9,000 bytes, of which the one at the place p is p % 251.
fn segment_at(alloc: Global, at: u32) -> Result<String, AllocError> {
    let byte = at % 251;
    match at {
        0 => format!(in alloc; "hear 9000{byte:02x}"),
        8999 => format!(in alloc; "hear a000{at:04x}{byte:02x}"),
        _ => format!(in alloc; "hear b000{at:04x}{byte:02x}"),
    }
}

/// Hears all of them: the one heard as number i is that at the place (first + step i) mod 9000.
fn play_bytes(rt: &impl Abort, alloc: Global, first: u32, step: u32) -> Result<(), Fail> {
    let mut hop = Hop::new(alloc, SnSize::S12)?;
    let mut want = String::from_str(alloc, "complete 0 ")?;
    for place in 0..9000 {
        let byte = place % 251;
        write!(want, "{byte:02x}")?;
    }
    let mut at = first;
    for _ in 1..9000 {
        hop.expect(rt, segment_at(alloc, at)?.as_str(), "stored")?;
        at = at.saturating_add(step) % 9000;
    }
    hop.expect(rt, segment_at(alloc, at)?.as_str(), want.as_str())
}

#[test]
fn takes_nine_thousand_segments(rt: HostRuntime) -> Result<(), Fail> {
    play_bytes(&rt, rt.alloc(), 8999, 8999)?;
    play_bytes(&rt, rt.alloc(), 17, 7001)
}

/// Of two numbers the second comes first.
fn play_pair(rt: &impl Abort, hop: &mut Hop, first: u32) -> Result<(), Fail> {
    let (second, next) = (first.saturating_add(1), first.saturating_add(2));
    let (low, high) = (0x8000 + first % 4096, 0x8000 + second % 4096);
    let rows = format!(in hop.alloc;
        "hear {high:04x}62|complete {second} 62\nreceiver|{first} {first} false false true"
    )?;
    hop.expect_rows(rt, rows.as_str())?;
    let rows = format!(in hop.alloc;
        "hear {low:04x}61|complete {first} 61\nreceiver|{next} {next} false false false"
    )?;
    hop.expect_rows(rt, rows.as_str())
}

#[test]
fn goes_on_past_the_wrap(rt: HostRuntime) -> Result<(), Fail> {
    let mut hop = Hop::new(rt.alloc(), SnSize::S12)?;
    for pair in 0..2500 {
        play_pair(&rt, &mut hop, 2 * pair)?;
    }
    Ok(())
}

/// The four bytes of an SDU come from the last to the first.
fn play_four_bytes(rt: &impl Abort, hop: &mut Hop, number: u32) -> Result<(), Fail> {
    let sn = number % 4096;
    let (first, middle, last) = (0x9000 + sn, 0xf000 + sn, 0xe000 + sn);
    let rows = format!(in hop.alloc;
        "hear {last:04x}000361|stored\nhear {middle:04x}000261|stored\nhear {middle:04x}000161|stored"
    )?;
    hop.expect_rows(rt, rows.as_str())?;
    let row = format!(in hop.alloc; "hear {first:04x}61|complete {number} 61616161")?;
    hop.expect_rows(rt, row.as_str())
}

// Each number and each of its bytes comes in reverse, and then one PDU 100,000 times.
#[test]
fn takes_a_full_window_in_reverse(rt: HostRuntime) -> Result<(), Fail> {
    let mut hop = Hop::new(rt.alloc(), SnSize::S12)?;
    for number in (0..2048).rev() {
        play_four_bytes(&rt, &mut hop, number)?;
    }
    hop.expect(&rt, "receiver", "2048 2048 true true false")?;
    for _ in 0..100_000 {
        hop.expect(&rt, "hear 800761616161", "repeat")?;
    }
    Ok(())
}

/// The byte at place 9,000 of a number comes.
fn play_middle_byte(rt: &impl Abort, hop: &mut Hop, number: u32) -> Result<(), Fail> {
    let header = 0xb000 + number % 4096;
    let call = format!(in hop.alloc; "hear {header:04x}232861")?;
    hop.expect(rt, call.as_str(), "stored")
}

// Of each second number a byte in the middle is held, and of the others nothing.
#[test]
fn makes_many_reports_of_a_full_window(rt: HostRuntime) -> Result<(), Fail> {
    let mut hop = Hop::new(rt.alloc(), SnSize::S12)?;
    for half in 0..1023 {
        play_middle_byte(&rt, &mut hop, 2 * half)?;
    }
    hop.expect_rows(
        &rt,
        "hear 87ff61|complete 2047 61\nreassembly|done\nreassembly|done",
    )?;
    for _ in 0..100 {
        let status = hop.said(&rt, "make 65535")?;
        assert!(rt; status.as_str().starts_with("ack 2048 0800"));
        // Three octets, 14 for the elements of two numbers, and one for the range of the last two that are missing.
        assert_eq!(rt; status.len(), 9 + 2 * (3 + 14 * 1023 + 1));
        hop.expect_rows(&rt, "prohibit|done\nhear c7ff61|repeat")?;
    }
    Ok(())
}
