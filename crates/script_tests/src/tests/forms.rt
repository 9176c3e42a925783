// Each form of line: its value, and its text.
use super::{RUNNING, check_round_trips, check_rows, check_values, line_at, stage_behind};
use script_text::{Line, line_text};
use std::test::Fail;

const RUNNING_LINES: &str = "\
submit 1 1 ul -
submit 65535 32 dl 00ff
grant d1.1 ul 1
grant d65535.32 dl 65535
grant p1.1 dl 100
grant p65535.8 ul 100
grant u1 ul 100
grant u8 dl 100
deliver 1
deliver 18446744073709551615
repeat 7
repeat 18446744073709551615
lose 7
lose 18446744073709551615
stage 7
stage 18446744073709551615
expire d1.1 low poll
expire p1.1 high reasm
expire u1 low prohibit
push p1.1
pull u1
burst
report 1 1 ul
report 65535 32 dl
plan 1 direct
plan 1 relay 0
plan 65535 relay 255
apply 1 remote
apply 1 relay
apply 65535 gnb
drain
end";

const GREATEST_TABLES: &str = "\
relayscript 1
set queue 1024
set report 0
set pollpdu 65536
set pollbyte 16777216
set maxretx 255
remote 65535
bearer 65535 32 12 18
bearer 65535 1 18 12
uu 8 18
pc5 65535 8 12
map 65535 32 8 8
map 65535 1 8 8
start 65535 32 dl 4294967294
start 65535 32 ul 0
path 65535 relay 255
remote 1
path 1 direct
go
drain
end";

const LEAST_TABLES: &str = "\
relayscript 1
remote 1
path 1 relay 0
set maxretx 1
set pollbyte 0
set pollpdu 0
set report 65536
set queue 1
uu 1 12
pc5 1 1 18
bearer 1 1 12 12
map 1 1 1 1
start 1 1 ul 4294967294
start 1 1 dl 0
go
end";

const VALUES: &str = "\
Version { number: 1 }|relayscript 1
Set { name: PollPdu, value: 7 }|set pollpdu 7
Remote { remote: Remote(9) }|remote 9
Bearer { remote: Remote(9), drb: Drb(2), pdcp: S12, direct: S18 }|bearer 9 2 12 18
Uu { chan: Chan(4), size: S18 }|uu 4 18
Pc5 { remote: Remote(9), chan: Chan(3), size: S12 }|pc5 9 3 12
Map { remote: Remote(9), drb: Drb(2), pc5: Chan(3), uu: Chan(4) }|map 9 2 3 4
Start { key: Key { remote: Remote(9), drb: Drb(2), way: Dl }, first: 5 }|start 9 2 dl 5
Path { remote: Remote(9), goal: Relay(LocalId(6)) }|path 9 relay 6
Go|go
Grant { port: Direct(Remote(9), Drb(2)), way: Ul, n: 8 }|grant d9.2 ul 8
Grant { port: Pc5(Remote(9), Chan(3)), way: Dl, n: 8 }|grant p9.3 dl 8
Grant { port: Uu(Chan(4)), way: Dl, n: 8 }|grant u4 dl 8
Deliver { ticket: 7 }|deliver 7
Repeat { ticket: 7 }|repeat 7
Lose { ticket: 7 }|lose 7
Stage { ticket: 7 }|stage 7
Expire { port: Uu(Chan(4)), side: Low, timer: Poll }|expire u4 low poll
Expire { port: Uu(Chan(4)), side: High, timer: Reasm }|expire u4 high reasm
Expire { port: Uu(Chan(4)), side: High, timer: Prohibit }|expire u4 high prohibit
Push { port: Uu(Chan(4)) }|push u4
Pull { port: Uu(Chan(4)) }|pull u4
Burst|burst
Report { key: Key { remote: Remote(9), drb: Drb(2), way: Ul } }|report 9 2 ul
Plan { remote: Remote(9), goal: Direct }|plan 9 direct
Plan { remote: Remote(9), goal: Relay(LocalId(6)) }|plan 9 relay 6
Apply { remote: Remote(9), node: Remote }|apply 9 remote
Apply { remote: Remote(9), node: Relay }|apply 9 relay
Apply { remote: Remote(9), node: Gnb }|apply 9 gnb
Drain|drain
End|end";

#[test]
fn writes_each_line_behind_go_as_it_was_read(rt: HostRuntime) -> Result<(), Fail> {
    let alloc = rt.alloc();
    let mut stage = stage_behind(alloc, RUNNING)?;
    check_round_trips(&rt, alloc, &mut stage, RUNNING_LINES)?;
    Ok(())
}

#[test]
fn writes_each_line_of_the_tables_as_it_was_read(rt: HostRuntime) -> Result<(), Fail> {
    let alloc = rt.alloc();
    let mut stage = stage_behind(alloc, "")?;
    check_round_trips(&rt, alloc, &mut stage, GREATEST_TABLES)?;
    let mut stage = stage_behind(alloc, "")?;
    check_round_trips(&rt, alloc, &mut stage, LEAST_TABLES)?;
    Ok(())
}

#[test]
fn reads_each_word_as_its_field(rt: HostRuntime) -> Result<(), Fail> {
    let alloc = rt.alloc();
    let mut stage = stage_behind(alloc, "")?;
    check_values(&rt, alloc, &mut stage, VALUES)?;
    Ok(())
}

#[test]
fn reads_bytes_in_either_case(rt: HostRuntime) -> Result<(), Fail> {
    let alloc = rt.alloc();
    let mut stage = stage_behind(alloc, RUNNING)?;
    let line = line_at(&rt, alloc, &mut stage, "submit 1 1 ul aF0B");
    let text = line_text(alloc, &line)?;
    assert_eq!(rt; text.as_slice(), b"submit 1 1 ul af0b".as_slice());
    let Line::Submit { sdu, .. } = line else {
        panic!(rt; "another line");
    };
    assert_eq!(rt; sdu.as_slice(), b"\xaf\x0b".as_slice());
    Ok(())
}

#[test]
fn reads_no_line_behind_the_end(rt: HostRuntime) -> Result<(), Fail> {
    let alloc = rt.alloc();
    let mut stage = stage_behind(alloc, "relayscript 1\ngo\nend")?;
    let rows = "\
word|drain
word|end
word|relayscript 1
text|end\t
skipped|
skipped|# end";
    check_rows(&rt, alloc, &mut stage, rows);
    Ok(())
}
