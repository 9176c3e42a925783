// The reasons of bad lines; and lines of forms that aren't carried out yet, where no other reason holds.
use super::{TABLES, expect};
use std::alloc::Global;
use std::process::Abort;
use std::test::Fail;

// The tables of two remotes, one of which begins on the relay.
const CHANNELS: &str = "\
relayscript 1
remote 1
remote 2
bearer 1 1 12 12
bearer 1 2 12 12
uu 1 12
pc5 1 1 12
map 1 2 1 1
path 1 relay 5
";

// First lines of a script, each with its reason.
const FIRST_LINES: &str = "\
relayscript 2|version
relayscript 01|version
relayscript 1 |version
go|version
relayscript 1\r|text";

// Lines that no table of a bearer stands before.
const BEHIND_THE_VERSION: &str = "\
set queue 5 5|form
set queue 0|range
set queue 1025|range
set report 5 5|form
set report 65537|range
set pollpdu 5 5|form
set pollpdu 65537|range
set pollbyte 16777217|range
set maxretx 0|range
set maxretx 256|range
set speed 5|form
remote 0|range
remote 65536|range
remote 01|form
bearer 1 1 12 12|unknown
bearer 1 1 18 12|unknown
uu 1 12 12|form
uu 9 12|range
uu 1 13|range
pc5 1 1 12|unknown
map 1 1 1 1|unknown
start 1 1 ul 5|unknown
path 1 direct|unknown
path 1 relay 5|unknown
relayscript 1|word
submit 1 1 ul 61|word
drain|word
 go|word";

// Lines behind settings and a remote.
const BEHIND_SETTINGS: &str = "\
set maxretx 3|twice
set pollpdu 7|twice
set pollbyte 0|twice
set queue 6|twice
bearer 1 1 18 13|range
bearer 1 1 12 12\t|text";

// Lines behind the tables of a bearer, before `go`.
const BEHIND_A_BEARER: &str = "\
remote 1|twice
remote 2 2|form
remote 65536|range
bearer 1 1 12 18|twice
bearer 2 1 12 12|unknown
bearer 1 2 12 12 12|form
bearer 1 33 12 12|range
bearer 1 2 12 13|range
pc5 2 1 12|unknown
pc5 1 1 12 12|form
pc5 1 9 12|range
map 1 1 1 1|unknown
map 1 1 1 1 1|form
map 1 1 9 1|range
start 1 2 ul 5|unknown
start 1 1 ul 5 5|form
start 1 1 ul 4294967295|range
path 1 direct 5|form
path 1 relay 256|range
go 1|form";

// Lines behind the channels of a remote that begins on the relay, of whose bearers one has no map row.
const BEHIND_CHANNELS: &str = "\
go|map
uu 1 18|twice
pc5 1 1 18|twice
pc5 3 1 12|unknown
map 1 2 1 1|twice
map 1 3 1 1|unknown
map 1 1 2 1|unknown
map 1 1 1 2|unknown
map 2 1 1 1|unknown
path 1 direct|twice
path 2 relay 5|twice
path 3 relay 5|twice
path 3 relay 6|unknown";

// Lines behind `go`.
const BEHIND_GO: &str = "\
submit 1 1 dl 61 61|form
submit 1 1 dl 6|form
submit 1 33 dl 61|range
submit 0 1 ul 6|form
grant p1.1 ul 5 5|form
grant p1.9 ul 5|range
grant p1.1 ul 0|range
grant u1 dl 5 5|form
grant u9 dl 5|range
grant d1.1 ul 0|range
grant d1.1 dl 65536|range
deliver  1|form
deliver 1 |form
deliver 0|range
deliver 18446744073709551616|range
expire d1.1 low|form
expire d1.33 low poll|range
expire u9 high reasm|range
stage 5|later
stage 5 5|form
stage 0|range
push p1.1 p1.1|form
push p1.9|range
pull u1 u1|form
pull u9|range
burst|later
burst 1|form
report 1 1 ul 1|form
report 1 33 ul|range
plan 1 direct|later
plan 1 relay 5|later
plan 1 direct 5|form
plan 1 relay 5 5|form
plan 0 direct|range
plan 1 relay 256|range
apply 1 remote|later
apply 1 relay|later
apply 2 gnb|later
apply 1 gnb gnb|form
apply 65536 gnb|range
drain|later
drain 1|form
end 1|form
remote 2|word
go|word
Drain|word";

/// Plays each line of a table behind the same lines: the run ends there, with the reason behind the bar.
fn expect_refusals(rt: &impl Abort, alloc: Global, before: &str, rows: &str) -> Result<(), Fail> {
    let number = before.split('\n').count();
    for row in rows.split('\n') {
        let Some((line, reason)) = row.split_once('|') else {
            panic!(rt; "a row without a bar");
        };
        let script = format!(in alloc; "{before}{line}\nend\n")?;
        let trace = format!(in alloc; "bad {number} {reason}\n")?;
        expect(rt, alloc, script.as_str(), 1, trace.as_str())?;
    }
    Ok(())
}

#[test]
fn refused_lines_and_their_reasons(rt: HostRuntime) -> Result<(), Fail> {
    for (before, rows) in [
        ("", FIRST_LINES),
        ("relayscript 1\n", BEHIND_THE_VERSION),
        (
            "relayscript 1\nset maxretx 3\nset pollpdu 0\nset pollbyte 5\nset queue 5\nremote 1\n",
            BEHIND_SETTINGS,
        ),
        (
            "relayscript 1\nremote 1\nbearer 1 1 12 12\n",
            BEHIND_A_BEARER,
        ),
        (CHANNELS, BEHIND_CHANNELS),
        (TABLES, BEHIND_GO),
        ("relayscript 1\ngo\n", BEHIND_GO),
    ] {
        expect_refusals(&rt, rt.alloc(), before, rows)?;
    }
    Ok(())
}
