// Whole scripts and the traces that they give.
mod acknowledged;
mod bearers;
mod endings;
mod faults;
mod limits;
mod long_hops;
mod orders;
mod refusals;
mod relay;
mod relay_remotes;
mod relay_windows;
mod segments;
mod settings;
mod windows;
mod words;

use link_base::{Bytes, Memory, NumberList, copy_bytes};
use link_io::{MemSink, MemSource};
use player::run;
use std::alloc::{AllocError, Global};
use std::process::Abort;
use std::test::Fail;

// The tables of one bearer.
const TABLES: &str = "relayscript 1\nremote 1\nbearer 1 1 12 12\ngo\n";

// The same with 18-bit RLC sequence numbers.
const WIDE_TABLES: &str = "relayscript 1\nremote 1\nbearer 1 1 12 18\ngo\n";

const FIRST_DELIVERY: &str =
    "relayscript 1\nremote 1\nbearer 1 1 12 12\ngo\nsubmit 1 1 ul 6869\ngrant d1.1 ul 100\ndeliver 1\nend\n";

const FIRST_TRACE: &str =
    "ok 0\nair 1 data 0 c00080006869\n  up 1 1 ul 6869\nok up 1\ntotal 1 1 ul 1 1 0\ntotal 1 1 dl 0 0 0\ndone\n";

/// Plays a script whose bytes come and whose trace goes in pieces, with calls that fail. The status, and what was written.
fn play(
    rt: &impl Abort,
    alloc: Global,
    script: &str,
    piece: u32,
    failed_reads: NumberList,
    failed_writes: NumberList,
) -> Result<(u8, Bytes), Memory> {
    assert!(rt; piece > 0);
    let mut source = MemSource::new(copy_bytes(alloc, script.as_bytes())?, piece, failed_reads);
    let mut sink = MemSink::new(alloc, piece, failed_writes);
    let status = run(alloc, &mut source, &mut sink);
    Ok((status, copy_bytes(alloc, sink.written())?))
}

/// Plays a script with no faults, in pieces of a size. It ends with this status and this trace.
fn expect_in_pieces(
    rt: &impl Abort,
    alloc: Global,
    script: &str,
    piece: u32,
    status: u8,
    trace: &str,
) -> Result<(), Fail> {
    let (none, no_more) = (NumberList::new(alloc), NumberList::new(alloc));
    let (given, written) = play(rt, alloc, script, piece, none, no_more)?;
    assert_eq!(rt; given, status);
    assert_eq!(rt; written.as_slice(), trace.as_bytes());
    Ok(())
}

/// Plays a script in pieces of three sizes, each time with this status and this trace.
fn expect(
    rt: &impl Abort,
    alloc: Global,
    script: &str,
    status: u8,
    trace: &str,
) -> Result<(), Fail> {
    for piece in [1, 7, 65_536] {
        expect_in_pieces(rt, alloc, script, piece, status, trace)?;
    }
    Ok(())
}

/// A script, and the trace that it is to give.
#[derive(Drop)]
struct Session {
    alloc: Global,
    script: String,
    trace: String,
}

impl Session {
    fn new(alloc: Global) -> Self {
        Session {
            alloc,
            script: String::new(alloc),
            trace: String::new(alloc),
        }
    }

    /// Adds rows: each is a line of the script and, behind bars, the lines of the trace that answer it.
    fn push(&mut self, rows: &str) -> Result<(), AllocError> {
        for row in rows.split('\n') {
            for (column, text) in row.split('|').enumerate() {
                if column == 0 {
                    write!(self.script, "{text}\n")?;
                } else {
                    write!(self.trace, "{text}\n")?;
                }
            }
        }
        Ok(())
    }

    /// Plays a long script, which ends with status 0.
    fn expect(&self, rt: &impl Abort) -> Result<(), Fail> {
        let (script, trace) = (self.script.as_str(), self.trace.as_str());
        expect_in_pieces(rt, self.alloc, script, 65_536, 0, trace)
    }
}

/// Rows in whose text letters stand for numbers.
fn rows_of(alloc: Global, rows: &str, numbers: &[(char, u64)]) -> Result<String, AllocError> {
    let mut text = String::new(alloc);
    for letter in rows.chars() {
        match numbers.iter().find(|named| named.0 == letter) {
            Some((_, number)) => write!(text, "{number}")?,
            None => text.push(letter)?,
        }
    }
    Ok(text)
}

/// Plays a session in pieces of three sizes, each time with this status.
fn expect_ending(rt: &impl Abort, alloc: Global, rows: &str, status: u8) -> Result<(), Fail> {
    let mut session = Session::new(alloc);
    session.push(rows)?;
    expect(
        rt,
        alloc,
        session.script.as_str(),
        status,
        session.trace.as_str(),
    )
}

/// Plays sessions that end with status 0.
fn expect_sessions(rt: &impl Abort, alloc: Global, sessions: &[&str]) -> Result<(), Fail> {
    for rows in sessions {
        expect_ending(rt, alloc, rows, 0)?;
    }
    Ok(())
}
