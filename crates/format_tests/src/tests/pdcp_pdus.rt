// PDCP data PDUs and status reports (TS 38.323 clause 6.2).
use super::expect_rows;
use link_base::SnSize::{self, S12, S18};
use pdcp_pdu::{PdcpFault, PdcpView, decode_pdcp, encode_pdcp};
use std::alloc::Global;
use std::process::Abort;
use std::test::Fail;

// Octets, and the PDU that they spell: the SN and the SDU, or FMC and the bitmap; and the octets that are written of it.
const READ: &str = "\
pdcp12 80006869|sn 0 [104, 105] 80006869
pdcp12 80ff6869|sn 255 [104, 105] 80ff6869
pdcp12 8fff6869|sn 4095 [104, 105] 8fff6869
pdcp18 81000161|sn 65537 [97] 81000161
pdcp18 80010061|sn 256 [97] 80010061
pdcp18 83ffff61|sn 262143 [97] 83ffff61
pdcp12 0000000000c0|fmc 0 [192] 0000000000c0
pdcp18 0000000000c0|fmc 0 [192] 0000000000c0
pdcp12 0001020304|fmc 16909060 [] 0001020304
pdcp18 0001020304|fmc 16909060 [] 0001020304
pdcp12 00ffffffffc0|fmc 4294967295 [192] 00ffffffffc0
pdcp18 00ffffffffc0|fmc 4294967295 [192] 00ffffffffc0";

// The same of octets with reserved bits that are 1.
const RESERVED: &str = "\
pdcp12 f0006869|sn 0 [104, 105] 80006869
pdcp12 d1026869|sn 258 [104, 105] 81026869
pdcp18 fc00006869|sn 0 [104, 105] 8000006869
pdcp18 8502036869|sn 66051 [104, 105] 8102036869
pdcp12 0fffffffff0001|fmc 4294967295 [0, 1] 00ffffffff0001
pdcp18 0fffffffff0001|fmc 4294967295 [0, 1] 00ffffffff0001";

// Octets, and their first fault.
const REFUSED: &str = "\
pdcp12 |short
pdcp12 80|short
pdcp12 8000|empty
pdcp18 8000|short
pdcp18 800000|empty
pdcp12 10|reserved-type
pdcp18 7f00000000c0|reserved-type
pdcp12 00|short
pdcp18 00000000|short";

/// What reading says.
pub(super) fn reading(alloc: Global, size: SnSize, octets: &[u8]) -> Result<String, Fail> {
    let pdu = match decode_pdcp(size, octets) {
        Ok(pdu) => pdu,
        Err(fault) => return Ok(format!(in alloc; "{fault}")?),
    };
    let written = encode_pdcp(alloc, size, &pdu)?;
    let digits = hex::encode(alloc, written.as_slice())?;
    let text = match pdu {
        PdcpView::Sdu { sn, body } => format!(in alloc; "sn {sn} {body:?} {digits}"),
        PdcpView::Report { fmc, map } => format!(in alloc; "fmc {fmc} {map:?} {digits}"),
    };
    Ok(text?)
}

#[test]
fn reads_and_writes(rt: HostRuntime) -> Result<(), Fail> {
    expect_rows(&rt, rt.alloc(), READ)?;
    expect_rows(&rt, rt.alloc(), RESERVED)?;
    expect_rows(&rt, rt.alloc(), REFUSED)
}

// So many of the octets are a PDU, and with one more they are too long.
fn refuses_one_more(rt: &impl Abort, size: SnSize, octets: &[u8], longest: usize) {
    assert!(rt; longest < octets.len());
    assert!(rt; decode_pdcp(size, &octets[..longest]).is_ok());
    let long = decode_pdcp(size, &octets[..longest + 1]);
    assert_eq!(rt; long, Err(PdcpFault::Long));
}

#[test]
fn refuses_what_is_too_long(rt: HostRuntime) {
    let data = [0x80; 9_004];
    refuses_one_more(&rt, S12, &data, 9_002);
    refuses_one_more(&rt, S18, &data, 9_003);
    let report = [0x00; 9_001];
    refuses_one_more(&rt, S12, &report, 9_000);
    refuses_one_more(&rt, S18, &report, 9_000);
}
