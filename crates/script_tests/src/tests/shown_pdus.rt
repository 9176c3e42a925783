// What `show` prints of bytes in each form, worked out by hand from the formats' bit fields.
use pdu_text::{form_of, push_shown};
use script_text::hex_bytes;
use std::alloc::Global;
use std::process::Abort;
use std::test::Fail;

// Words, and the forms that they name.
const FORMS: &str = "\
amd12|Some(Amd(S12))
amd18|Some(Amd(S18))
status12|Some(Status(S12))
status18|Some(Status(S18))
srap|Some(Srap)
pdcp12|Some(Pdcp(S12))
pdcp18|Some(Pdcp(S18))
pdcp|None
amd|None
AMD12|None
|None";

#[test]
fn names_each_form(rt: HostRuntime) -> Result<(), Fail> {
    for row in FORMS.split('\n') {
        let Some((word, want)) = row.split_once('|') else {
            panic!(rt; "a row without a bar");
        };
        let form = form_of(word.as_bytes());
        let said = format!(in rt.alloc(); "{form:?}")?;
        assert_eq!(rt; said.as_str(), want, "{word}");
    }
    Ok(())
}

/// Shows the bytes that hexadecimal digits spell in the form with this name. Whether they are a PDU, and what is shown.
fn shown(rt: &impl Abort, alloc: Global, name: &str, digits: &str) -> Result<String, Fail> {
    let Some(form) = form_of(name.as_bytes()) else {
        panic!(rt; "no such form: {name}");
    };
    let Some(bytes) = hex_bytes(alloc, digits.as_bytes())? else {
        panic!(rt; "no bytes: {digits}");
    };
    let mut out = String::new(alloc);
    let is_read = push_shown(alloc, &mut out, form, bytes.as_slice())?;
    Ok(format!(in alloc; "{is_read}\n{out}")?)
}

/// Shows the bytes of each row, which are a PDU or not. What is shown stands behind bars, which stand for line ends.
fn expect_shown(rt: &impl Abort, alloc: Global, rows: &str, is_read: bool) -> Result<(), Fail> {
    for row in rows.split('\n') {
        let Some((call, lines)) = row.split_once('|') else {
            panic!(rt; "a row without a bar");
        };
        let (name, digits) = call.split_once(' ').unwrap_or((call, ""));
        let mut want = format!(in alloc; "{is_read}\n")?;
        for line in lines.split('|') {
            write!(want, "{line}\n")?;
        }
        let said = shown(rt, alloc, name, digits)?;
        assert_eq!(rt; said.as_str(), want.as_str(), "{call}");
    }
    Ok(())
}

const FIELDS: &str = "\
amd12 c00080006869|amd sn 0 poll 1 si whole so 0 body 80006869
amd12 9fffFF|amd sn 4095 poll 0 si first so 0 body ff
amd12 e102232c61|amd sn 258 poll 1 si last so 9004 body 61
amd12 b00000016162|amd sn 0 poll 0 si middle so 1 body 6162
amd18 cfffff61|amd sn 262143 poll 1 si whole so 0 body 61
amd18 a20304123461|amd sn 131844 poll 0 si last so 4660 body 61
status12 0003800010|status ack 3 nacks 1|nack 1 part - range -
status12 00028000140005ffff|status ack 2 nacks 1|nack 1 part 5-65535 range -
status12 0fff00|status ack 4095 nacks 0
status12 002080001a030ffe0009000402abc40000ffff|status ack 32 nacks 3|nack 1 part - range 3|nack 255 part 9-4 range 2|nack 2748 part 0-65535 range -
status18 0ffffd|status ack 262143 nacks 0
status18 00000e0001e080c11812345678ff|status ack 3 nacks 2|nack 7 part - range -|nack 131844 part 4660-22136 range 255
pdcp12 80006869|sdu sn 0 body 6869
pdcp12 ffff61|sdu sn 4095 body 61
pdcp18 81000161|sdu sn 65537 body 61
pdcp18 ff020300|sdu sn 197123 body 00
pdcp12 0000000000c0|report fmc 0 map c0
pdcp12 0f01020304|report fmc 16909060 map -
pdcp18 00ffffffff0102|report fmc 4294967295 map 0102
srap 800580006869|srap bearer 0 ue 5 body 80006869
srap ffff00|srap bearer 31 ue 255 body 00";

const FAULTS: &str = "\
amd12 -|refused short
amd12 80|refused short
amd12 00|refused control
amd12 a000000061|refused zero-offset
amd12 8000|refused no-body
amd12 a000232d61|refused long
amd18 8000|refused short
amd18 7fffff61|refused control
amd18 b00000000061|refused zero-offset
amd18 800000|refused no-body
amd18 a00000232d61|refused long
status12 00|refused short
status12 800000|refused is-data
status12 100000|refused reserved-type
status12 000080001200|refused zero-range
status12 000080001400050004|refused back-part
status12 00000000|refused trailing
status18 0000|refused short
status18 ff0000|refused is-data
status18 700000|refused reserved-type
status18 00000200004800|refused zero-range
status18 00000200005000050004|refused back-part
status18 0000000f|refused trailing
pdcp12 -|refused short
pdcp12 80|refused short
pdcp12 10|refused reserved-type
pdcp12 7fffffffff|refused reserved-type
pdcp12 00000000|refused short
pdcp12 8000|refused empty
pdcp18 8000|refused short
pdcp18 800000|refused empty
srap -|refused short
srap 80|refused short
srap 050561|refused control
srap 8005|refused no-body";

#[test]
fn shows_each_field_and_each_fault(rt: HostRuntime) -> Result<(), Fail> {
    expect_shown(&rt, rt.alloc(), FIELDS, true)?;
    expect_shown(&rt, rt.alloc(), FAULTS, false)
}
