// What a side sends and hears, with both sizes of sequence numbers, and STATUS PDUs of every greatest size.
use super::{Hop, expect_tables};
use link_base::SnSize;
use std::test::Fail;

// A due STATUS goes before data.
const STATUS_BEFORE_DATA: &str = "\
give 61|0
hear c00061|complete 0 61
grant 2|small 3
grant 3|status 1 000100
grant 2|small 3
grant 3|data 0 c00061
grant 100|idle";

const WIDE_STATUS_BEFORE_DATA: &str = "\
give 61|0
hear c0000061|complete 0 61
grant 2|small 3
grant 3|status 1 000004
grant 3|small 4
grant 4|data 0 c0000061
grant 100|idle";

const DATA_AND_STATUS: &str = "\
give 61|0
hear 800061|complete 0 61
hear 800061|repeat
hear 000100|beyond 1 0
grant 100|data 0 c00061
hear 000100|acks 1 marks 0
transmitter|1 1 0 2048 false";

const WIDE_DATA_AND_STATUS: &str = "\
give 61|0
hear 80000061|complete 0 61
hear 80000061|repeat
hear 000004|beyond 1 0
grant 100|data 0 c0000061
hear 000004|acks 1 marks 0
transmitter|1 1 0 131072 false";

// Octets that are no PDU, with sequence numbers of any size.
const BAD_OCTETS: &str = "\
hear |bad short
hear 90|bad short
hear b000000000|bad zero-offset
hear 00|bad status short
hear 7f|bad status reserved-type
hear 00000000|bad status trailing";

#[test]
fn sends_and_hears(rt: HostRuntime) -> Result<(), Fail> {
    let alloc = rt.alloc();
    expect_tables(
        &rt,
        alloc,
        &[STATUS_BEFORE_DATA, DATA_AND_STATUS, BAD_OCTETS],
    )?;
    for rows in [WIDE_STATUS_BEFORE_DATA, WIDE_DATA_AND_STATUS, BAD_OCTETS] {
        let mut hop = Hop::new(alloc, SnSize::S18)?;
        hop.expect_rows(&rt, rows)?;
    }
    Ok(())
}

// The ten even numbers below 20 are missing. The timer runs for the first gap, and then once for the others.
const TEN_GAPS: &str = "\
hear 800161|complete 1 61
hear 800361|complete 3 61
hear 800561|complete 5 61
hear 800761|complete 7 61
hear 800961|complete 9 61
hear 800b61|complete 11 61
hear 800d61|complete 13 61
hear 800f61|complete 15 61
hear 801161|complete 17 61
hear 801361|complete 19 61
reassembly|done
reassembly|done";

// A STATUS of at most so many octets has three, and two for each element that fits. Its ACK_SN stands for the first number
// that it doesn't name.
const STATUS_PDUS: &str = "\
0|small 3
1|small 3
2|small 3
3|status 0 000000
4|status 0 000000
5|status 2 0002800000
6|status 2 0002800000
7|status 4 00048000080020
8|status 4 00048000080020
9|status 6 000680000800280040
10|status 6 000680000800280040
11|status 8 0008800008002800480060
12|status 8 0008800008002800480060
13|status 10 000a8000080028004800680080
14|status 10 000a8000080028004800680080
15|status 12 000c800008002800480068008800a0
16|status 12 000c800008002800480068008800a0
17|status 14 000e800008002800480068008800a800c0
18|status 14 000e800008002800480068008800a800c0
19|status 16 0010800008002800480068008800a800c800e0
20|status 16 0010800008002800480068008800a800c800e0
21|status 18 0012800008002800480068008800a800c800e80100
22|status 18 0012800008002800480068008800a800c800e80100
23|status 20 0014800008002800480068008800a800c800e801080120
24|status 20 0014800008002800480068008800a800c800e801080120
25|status 20 0014800008002800480068008800a800c800e801080120";

#[test]
fn status_pdus_of_every_size(rt: HostRuntime) -> Result<(), Fail> {
    let alloc = rt.alloc();
    for row in STATUS_PDUS.split('\n') {
        let mut hop = Hop::new(alloc, SnSize::S12)?;
        hop.expect_rows(&rt, TEN_GAPS)?;
        let call = format!(in alloc; "grant {row}")?;
        hop.expect_rows(&rt, call.as_str())?;
    }
    Ok(())
}
