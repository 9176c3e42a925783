// AMD PDUs (TS 38.322 clause 6.2.2.4).
use super::expect_rows;
use link_base::SnSize::{self, S12};
use rlc_pdu::{AmdFault, decode_amd, encode_amd};
use std::alloc::Global;
use std::test::Fail;

// Octets, and the PDU that they spell: SN, P, SI, SO, the body, and the octets that are written of it.
const READ: &str = "\
amd12 800061|0 false Whole 0 [97] 800061
amd12 cfff61|4095 true Whole 0 [97] cfff61
amd12 910261|258 false First 0 [97] 910261
amd12 e002000161|2 true Last 1 [97] e002000161
amd12 b100123461|256 false Middle 4660 [97] b100123461
amd12 a000232c61|0 false Last 9004 [97] a000232c61
amd18 80000061|0 false Whole 0 [97] 80000061
amd18 c3ffff61|262143 true Whole 0 [97] c3ffff61
amd18 91020361|66051 false First 0 [97] 91020361
amd18 e20304000161|131844 true Last 1 [97] e20304000161
amd18 b00100123461|256 false Middle 4660 [97] b00100123461
amd18 b00002232c61|2 false Middle 9004 [97] b00002232c61";

// The same of octets with reserved bits that are 1.
const RESERVED: &str = "\
amd18 8c000061|0 false Whole 0 [97] 80000061
amd18 cfffff61|262143 true Whole 0 [97] c3ffff61
amd18 95020361|66051 false First 0 [97] 91020361
amd18 b80100123461|256 false Middle 4660 [97] b00100123461";

// Octets, and their first fault. The last ones are fronts of two PDUs.
const REFUSED: &str = "\
amd12 00|control
amd18 7fffff61|control
amd12 90|short
amd12 a00000|short
amd12 a0000000|zero-offset
amd12 a000000061|zero-offset
amd18 b00000000061|zero-offset
amd12 9000|no-body
amd12 a000ffff|no-body
amd12 a000232d61|long
amd18 b00000232c6162|long
amd18 b00000ffff61|long
amd12 |short
amd12 b1|short
amd12 b100|short
amd12 b10012|short
amd12 b1001234|no-body
amd18 b0|short
amd18 b001|short
amd18 b00100|short
amd18 b0010012|short
amd18 b001001234|no-body";

/// What reading says.
pub(super) fn reading(alloc: Global, size: SnSize, octets: &[u8]) -> Result<String, Fail> {
    match decode_amd(size, octets) {
        Ok(pdu) => {
            let written = encode_amd(alloc, size, &pdu)?;
            let digits = hex::encode(alloc, written.as_slice())?;
            let mut text = format!(in alloc; "{} {} {:?} {}", pdu.sn, pdu.poll, pdu.si, pdu.so)?;
            write!(text, " {:?} {digits}", pdu.body)?;
            Ok(text)
        }
        Err(fault) => Ok(format!(in alloc; "{fault}")?),
    }
}

#[test]
fn reads_and_writes(rt: HostRuntime) -> Result<(), Fail> {
    expect_rows(&rt, rt.alloc(), READ)?;
    expect_rows(&rt, rt.alloc(), RESERVED)?;
    expect_rows(&rt, rt.alloc(), REFUSED)
}

#[test]
fn ends_with_the_longest_sdu(rt: HostRuntime) -> Result<(), Fail> {
    let mut bytes = [0; 9008];
    bytes[0] = 0x80;
    let whole = decode_amd(S12, &bytes[..9007])?;
    assert_eq!(rt; whole.body.len(), 9005);
    let written = encode_amd(rt.alloc(), S12, &whole)?;
    assert_eq!(rt; written.as_slice(), &bytes[..9007]);
    assert_eq!(rt; decode_amd(S12, &bytes).err(), Some(AmdFault::Long));
    Ok(())
}
