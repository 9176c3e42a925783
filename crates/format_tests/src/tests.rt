// Tables of octets, each beside what reading them says.
mod amd_pdus;
mod pdcp_pdus;
mod srap_pdus;
mod status_pdus;

use link_base::SnSize::{S12, S18};
use std::alloc::Global;
use std::process::Abort;
use std::test::Fail;

/// What reading octets in a form says: the fields of the PDU and the octets that are written of it, or the fault.
fn reading(rt: &impl Abort, alloc: Global, form: &str, octets: &[u8]) -> Result<String, Fail> {
    match form {
        "amd12" => amd_pdus::reading(alloc, S12, octets),
        "amd18" => amd_pdus::reading(alloc, S18, octets),
        "status12" => status_pdus::reading(rt, alloc, S12, octets),
        "status18" => status_pdus::reading(rt, alloc, S18, octets),
        "pdcp12" => pdcp_pdus::reading(alloc, S12, octets),
        "pdcp18" => pdcp_pdus::reading(alloc, S18, octets),
        "srap" => srap_pdus::reading(alloc, octets),
        _ => panic!(rt; "no such form: {form}"),
    }
}

/// Reads the octets of each row. A row is a form, a space, octets in hexadecimal digits, a bar, and what reading them says.
fn expect_rows(rt: &impl Abort, alloc: Global, rows: &str) -> Result<(), Fail> {
    for row in rows.split('\n') {
        let Some((spelt, want)) = row.split_once('|') else {
            panic!(rt; "a row without a bar");
        };
        let (form, digits) = spelt.split_once(' ').unwrap_or((spelt, ""));
        let octets = hex::decode(alloc, digits.as_bytes())?;
        let said = reading(rt, alloc, form, &octets)?;
        assert_eq!(rt; said.as_str(), want, "{spelt}");
    }
    Ok(())
}
