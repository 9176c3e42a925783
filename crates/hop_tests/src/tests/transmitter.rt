// Runs of a transmitter.
use super::{Hop, expect_tables};
use link_base::SnSize;
use std::test::Fail;

const EMPTY: &str = "\
transmitter|0 0 0 2048 false
send 100|idle
poll|stopped
hear 000100|beyond 1 0
bears 5|false";

const SMALL_GRANTS: &str = "\
give 80000102030405060708090a|0
send 2|small 3
send 5|0 9000800001
send 4|small 5";

const A_LOST_SDU: &str = "\
give 800061|0
give 800162|1
give 800263|2
send 100|0 8000800061
send 100|1 8001800162
send 100|2 c002800263
transmitter|3 0 3 2045 true
hear 0003800010|acks 2 marks 0
transmitter|3 1 1 2046 false
bears 5|true
bears 6|false
send 100|1 c001800162
hear 000300|acks 1 marks 0
transmitter|3 3 0 2048 false
hear 000200|old 2 3";

const SEGMENTS: &str = "\
give 80000102030405060708090a|0
send 100|0 c00080000102030405060708090a
poll|done
send 7|0 d0008000010203
send 100|0 e00000050405060708090a
poll|done
send 8|0 d000800001020304
send 100|0 e000000605060708090a";

const STATUS_PDUS_IN_REVERSE: &str = "\
give 800061|0
send 100|0 c000800061
give 800162|1
send 100|1 c001800162
give 800263|2
send 100|2 c002800263
poll|done
send 100|0 c000800061
hear 0003800010|acks 2 marks 0
hear 000380000202|acks 0 marks 0
send 100|1 c001800162";

// A STATUS names a part of number 0, and by a range number 1 from a byte on and number 2 up to a byte; then another names
// three parts of number 0.
const PARTS_AND_RANGES: &str = "\
give 6162636465|0
give 666768696a|1
give 6b6c6d6e6f|2
give 7071727374|3
send 5|0 9000616263
send 100|0 a00000036465
send 100|1 8001666768696a
send 100|2 80026b6c6d6e6f
send 100|3 c0037071727374
hear 000480000c0001000200160002000302|acks 1 marks 0
transmitter|4 0 3 2044 false
send 100|0 b00000016263
send 100|1 a001000268696a
send 6|2 d0026b6c6d6e
hear 000180000c00000000000c0002000200040004ffff|acks 0 marks 0
send 100|0 900061
send 100|0 b000000263
send 100|0 e000000465
hear 000400|acks 3 marks 0
transmitter|4 4 0 2048 false";

#[test]
fn sends_and_hears_status_pdus(rt: HostRuntime) -> Result<(), Fail> {
    expect_tables(
        &rt,
        rt.alloc(),
        &[
            EMPTY,
            SMALL_GRANTS,
            A_LOST_SDU,
            SEGMENTS,
            STATUS_PDUS_IN_REVERSE,
            PARTS_AND_RANGES,
        ],
    )
}

// The STATUS confirms a full window.
const A_WINDOW_CONFIRMED: &str = "\
hear 080000|acks 2048 marks 0
give 800061|2048
send 100|2048 c800800061
transmitter|2049 2048 1 2047 true";

#[test]
fn fills_the_window_and_moves_it(rt: HostRuntime) -> Result<(), Fail> {
    let alloc = rt.alloc();
    let mut hop = Hop::new(alloc, SnSize::S12)?;
    for number in 0..2048 {
        hop.expect(&rt, "give 61", format!(in alloc; "{number}")?.as_str())?;
    }
    hop.expect(&rt, "give 62", "no room 62")?;
    for number in 0..2048 {
        let polls = number % 32 == 31;
        let header = if polls {
            0xc000 + number
        } else {
            0x8000 + number
        };
        let want = format!(in alloc; "{number} {header:04x}61")?;
        hop.expect(&rt, "send 100", want.as_str())?;
    }
    hop.expect_rows(&rt, A_WINDOW_CONFIRMED)
}
