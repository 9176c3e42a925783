// SRAP data PDUs (TS 38.351 clause 6.2).
use super::expect_rows;
use srap_header::{read, write};
use std::alloc::Global;
use std::test::Fail;

// Octets, and the PDU that they spell: BEARER ID, UE ID, the data field, and the octets that are written of it; or their
// first fault.
const ROWS: &str = "\
srap 80058000|0 5 [128, 0] 80058000
srap 9fff61|31 255 [97] 9fff61
srap 900061|16 0 [97] 900061
srap 9f0000|31 0 [0] 9f0000
srap e00561|0 5 [97] 800561
srap ffff61|31 255 [97] 9fff61
srap |short
srap 05|control
srap 7f0561|control
srap 80|short
srap 8005|no-body";

/// What reading says.
pub(super) fn reading(alloc: Global, octets: &[u8]) -> Result<String, Fail> {
    match read(octets) {
        Ok(pdu) => {
            let written = write(alloc, pdu.bearer, pdu.ue, pdu.body)?;
            let digits = hex::encode(alloc, written.as_slice())?;
            let fields = format!(in alloc; "{} {} {:?}", pdu.bearer, pdu.ue, pdu.body)?;
            Ok(format!(in alloc; "{fields} {digits}")?)
        }
        Err(fault) => Ok(format!(in alloc; "{fault}")?),
    }
}

#[test]
fn reads_and_writes(rt: HostRuntime) -> Result<(), Fail> {
    expect_rows(&rt, rt.alloc(), ROWS)
}
