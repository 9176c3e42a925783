// STATUS PDUs of RLC (TS 38.322 clause 6.2.2.5).
use super::expect_rows;
use link_base::SnSize;
use rlc_status::{decode_status, encode_status, status_len};
use std::alloc::Global;
use std::process::Abort;
use std::test::Fail;

// Octets, and the STATUS that they spell: ACK_SN; NACK_SN, part and range of each element; and the octets that are written
// of it. Two have a part, a range, and both, where SOend is of another SDU than SOstart.
const READ: &str = "\
status12 000100|1 000100
status12 000300|3 000300
status12 080000|2048 080000
status12 0003800010|3, 1 None None 0003800010
status12 000380000202|3, 0 None Some(2) 000380000202
status12 00028000140005ffff|2, 1 Some((5, 65535)) None 00028000140005ffff
status12 000a80003c00010002004a0300860007000502|10, 3 Some((1, 2)) None, 4 None Some(3), 8 Some((7, 5)) Some(2) 000a80003c00010002004a0300860007000502
status12 0fff80fff6ffffffffff|4095, 4095 Some((65535, 65535)) Some(255) 0fff80fff6ffffffffff
status18 000004|1 000004
status18 00002a0000f000010002000128030002180007000502|10, 3 Some((1, 2)) None, 4 None Some(3), 8 Some((7, 5)) Some(2) 00002a0000f000010002000128030002180007000502
status18 0ffffeffffd8ffffffffff|262143, 262143 Some((65535, 65535)) Some(255) 0ffffeffffd8ffffffffff";

// The same of octets with reserved bits that are 1.
const RESERVED: &str = "\
status12 0003ff0011|3, 1 None None 0003800010
status18 000007000047|1, 1 None None 000006000040";

// Octets, and their first fault.
const REFUSED: &str = "\
status12 90|is-data
status12 100100|reserved-type
status18 70|reserved-type
status12 00038000120000|zero-range
status12 00038000160005000400|zero-range
status12 00028000140005000400|back-part
status18 0000060000580005000401|back-part
status12 00010000|trailing
status18 00000400|trailing";

/// What reading says.
pub(super) fn reading(
    rt: &impl Abort,
    alloc: Global,
    size: SnSize,
    octets: &[u8],
) -> Result<String, Fail> {
    match decode_status(alloc, size, octets) {
        Ok(status) => {
            let mut text = format!(in alloc; "{}", status.ack)?;
            for nack in status.nacks.as_slice() {
                write!(text, ", {} {:?} {:?}", nack.sn, nack.part, nack.range)?;
            }
            let written = encode_status(alloc, size, &status)?;
            assert_eq!(rt; status_len(size, &status), written.len() as u64);
            let digits = hex::encode(alloc, written.as_slice())?;
            write!(text, " {digits}")?;
            Ok(text)
        }
        Err(fault) => Ok(format!(in alloc; "{fault}")?),
    }
}

#[test]
fn reads_and_writes(rt: HostRuntime) -> Result<(), Fail> {
    expect_rows(&rt, rt.alloc(), READ)?;
    expect_rows(&rt, rt.alloc(), RESERVED)?;
    expect_rows(&rt, rt.alloc(), REFUSED)
}

/// Each front of the octets that hexadecimal digits spell is short.
fn expect_short_fronts(
    rt: &impl Abort,
    alloc: Global,
    size: SnSize,
    digits: &str,
) -> Result<(), Fail> {
    let octets = hex::decode(alloc, digits.as_bytes())?;
    for end in 0..octets.len() {
        let said = reading(rt, alloc, size, &octets[..end])?;
        assert_eq!(rt; said.as_str(), "short", "{end} octets of {digits}");
    }
    Ok(())
}

#[test]
fn refuses_each_front(rt: HostRuntime) -> Result<(), Fail> {
    let short = "000a80003c00010002004a0300860007000502";
    expect_short_fronts(&rt, rt.alloc(), SnSize::S12, short)?;
    let long = "00002a0000f000010002000128030002180007000502";
    expect_short_fronts(&rt, rt.alloc(), SnSize::S18, long)
}
