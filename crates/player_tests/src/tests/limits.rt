// Lines and scripts at the greatest lengths, and past them.
use super::{TABLES, expect_in_pieces};
use std::alloc::{AllocError, Global};
use std::process::Abort;
use std::test::Fail;

/// Plays a line of so many bytes behind the first line and `go`.
fn play_long_line(
    rt: &impl Abort,
    alloc: Global,
    byte: &str,
    count: u32,
    status: u8,
    trace: &str,
) -> Result<(), Fail> {
    let mut script = String::from_str(alloc, "relayscript 1\ngo\n")?;
    for _ in 0..count {
        script.push_str(byte)?;
    }
    script.push_str("\nend\n")?;
    expect_in_pieces(rt, alloc, script.as_str(), 7, status, trace)?;
    expect_in_pieces(rt, alloc, script.as_str(), 65_536, status, trace)
}

#[test]
fn long_lines(rt: HostRuntime) -> Result<(), Fail> {
    let alloc = rt.alloc();
    play_long_line(&rt, alloc, "#", 65_536, 0, "done\n")?;
    play_long_line(&rt, alloc, "#", 65_537, 1, "bad 3 line\n")?;
    play_long_line(&rt, alloc, "#", 70_000, 1, "bad 3 line\n")?;
    play_long_line(&rt, alloc, "a", 65_536, 1, "bad 3 word\n")?;
    play_long_line(&rt, alloc, "a", 65_537, 1, "bad 3 line\n")?;
    play_long_line(&rt, alloc, "\t", 65_537, 1, "bad 3 line\n")
}

/// The tables of one bearer, and so many comments of 64 bytes behind them.
fn long_script(alloc: Global, comments: u32) -> Result<String, AllocError> {
    let mut script = String::from_str(alloc, TABLES)?;
    for _ in 0..comments {
        script.push_str("# a comment of sixty-four bytes, which says nothing at all ....\n")?;
    }
    Ok(script)
}

#[test]
fn scripts_past_the_limit(rt: HostRuntime) -> Result<(), Fail> {
    let script = long_script(rt.alloc(), 262_145)?;
    expect_in_pieces(&rt, rt.alloc(), script.as_str(), 65_536, 6, "too long\n")
}

const NO_SDUS: &str = "total 1 1 ul 0 0 0\ntotal 1 1 dl 0 0 0\ndone\n";

// The last lines of a script, behind its first 16,777,195 bytes: they end at byte 16,777,216, or one byte later.
const LAST_LINES: [(&str, u8, &str); 4] = [
    ("#2345678901\ndrainage\n", 1, "bad 262149 word\n"),
    ("#23456789012\ndrainage\n", 6, "too long\n"),
    ("#23456789012345\ndrain\n", 6, "too long\n"),
    ("#234567890123456\nend\n", 0, NO_SDUS),
];

#[test]
fn lines_at_the_limit(rt: HostRuntime) -> Result<(), Fail> {
    let alloc = rt.alloc();
    let front = long_script(alloc, 262_143)?;
    for (lines, status, trace) in LAST_LINES {
        let mut script = String::from_str(alloc, front.as_str())?;
        script.push_str(lines)?;
        expect_in_pieces(&rt, alloc, script.as_str(), 65_536, status, trace)?;
    }
    Ok(())
}
