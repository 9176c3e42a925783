// Reads and writes that fail, each call in turn.
use super::{FIRST_DELIVERY, FIRST_TRACE, TABLES, play};
use link_base::{Memory, NumberList};
use std::alloc::Global;
use std::process::Abort;
use std::test::Fail;

// How many bytes a call moves at most.
const PIECE: u32 = 16;

/// How many calls move so many bytes.
fn calls(bytes: usize) -> u64 {
    bytes.div_ceil(PIECE as usize) as u64
}

/// A list of one call.
fn only(alloc: Global, call: u64) -> Result<NumberList, Memory> {
    let mut calls = NumberList::new(alloc);
    calls.push(call)?;
    Ok(calls)
}

/// A read fails. Nothing is written, unless the end was found before.
fn expect_read_fault(rt: &impl Abort, alloc: Global, script: &str, call: u64) -> Result<(), Fail> {
    let failed = only(alloc, call)?;
    let (status, written) = play(rt, alloc, script, PIECE, failed, NumberList::new(alloc))?;
    // One more read finds the end.
    let is_late = call > calls(script.len()).saturating_add(1);
    assert_eq!(rt; status, if is_late { 0 } else { 3 }, "read {call}");
    assert_eq!(rt; written.is_empty(), !is_late, "read {call}");
    Ok(())
}

/// A write fails. What was written before is a front of the trace.
fn expect_write_fault(
    rt: &impl Abort,
    alloc: Global,
    script: &str,
    trace: &str,
    call: u64,
) -> Result<(), Fail> {
    let failed = only(alloc, call)?;
    let (status, written) = play(rt, alloc, script, PIECE, NumberList::new(alloc), failed)?;
    let is_late = call > calls(trace.len());
    let before = (call.saturating_sub(1) as usize).saturating_mul(PIECE as usize);
    let front = &trace.as_bytes()[..before.min(trace.len())];
    assert_eq!(rt; status, if is_late { 0 } else { 4 }, "write {call}");
    assert_eq!(rt; written.as_slice(), front, "write {call}");
    Ok(())
}

#[test]
fn faults_of_each_call(rt: HostRuntime) -> Result<(), Fail> {
    let alloc = rt.alloc();
    let no_sdus = "total 1 1 ul 0 0 0\ntotal 1 1 dl 0 0 0\ndone\n";
    for call in 1..12 {
        expect_read_fault(&rt, alloc, FIRST_DELIVERY, call)?;
        expect_read_fault(&rt, alloc, TABLES, call)?;
        expect_write_fault(&rt, alloc, FIRST_DELIVERY, FIRST_TRACE, call)?;
        expect_write_fault(&rt, alloc, TABLES, no_sdus, call)?;
    }
    Ok(())
}
