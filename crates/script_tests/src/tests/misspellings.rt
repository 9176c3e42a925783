// Lines that are spelt otherwise than their form or a number's range wants.
use super::{RUNNING, check_rows, stage_behind, verdict, with_text_before};
use script_text::ScriptStage;
use std::alloc::{AllocError, Global};
use std::process::Abort;
use std::test::Fail;

const TABLE_FORMS: &str = "\
set queue 64
set report 512
set pollpdu 32
set pollbyte 0
set maxretx 32
remote 1
bearer 1 1 12 18
uu 1 12
pc5 1 1 12
map 1 1 1 1
start 1 1 ul 0
path 1 direct
path 1 relay 5
go";

const RUNNING_FORMS: &str = "\
submit 1 1 ul -
submit 1 1 dl 00fF
grant d1.1 ul 1
grant p1.1 dl 1
grant u1 ul 1
deliver 1
repeat 1
lose 1
stage 1
expire d1.1 low poll
expire p1.1 high reasm
expire u1 low prohibit
push p1.1
pull u1
burst
report 1 1 ul
plan 1 direct
plan 1 relay 5
apply 1 remote
apply 1 relay
apply 1 gnb
drain
end";

/// Reads a line that is none once a sign, a zero, a space or a tab stands before a word.
fn check_additions(
    rt: &impl Abort,
    alloc: Global,
    stage: &mut ScriptStage,
    line: &str,
) -> Result<(), AllocError> {
    for (place, _) in line.split(' ').enumerate() {
        for added in ["0", "+", "-", " ", "\t"] {
            let text = with_text_before(alloc, line, place, added)?;
            let want = if added == "\t" {
                "text"
            } else if place == 0 {
                "word"
            } else {
                "form"
            };
            let said = verdict(alloc, stage, text.as_bytes());
            assert_eq!(rt; said, want, "{text}");
        }
    }
    Ok(())
}

/// Reads a line that is none with a word too many, with a space at its end, and with one word too few.
fn check_word_counts(
    rt: &impl Abort,
    alloc: Global,
    stage: &mut ScriptStage,
    line: &str,
) -> Result<(), AllocError> {
    let rows = format!(in alloc; "form|{line} 1\nform|{line} ")?;
    check_rows(rt, alloc, stage, rows.as_str());
    if let Some((shorter, _)) = line.rsplit_once(' ') {
        let row = format!(in alloc; "form|{shorter}")?;
        check_rows(rt, alloc, stage, row.as_str());
    }
    Ok(())
}

/// Misspells each line of these forms.
fn check_forms(
    rt: &impl Abort,
    alloc: Global,
    stage: &mut ScriptStage,
    lines: &str,
) -> Result<(), AllocError> {
    for line in lines.split('\n') {
        check_additions(rt, alloc, stage, line)?;
        check_word_counts(rt, alloc, stage, line)?;
    }
    Ok(())
}

#[test]
fn refuses_each_form_with_a_word_misspelt(rt: HostRuntime) -> Result<(), Fail> {
    let alloc = rt.alloc();
    let mut stage = stage_behind(alloc, "relayscript 1")?;
    check_forms(&rt, alloc, &mut stage, TABLE_FORMS)?;
    let mut stage = stage_behind(alloc, RUNNING)?;
    check_forms(&rt, alloc, &mut stage, RUNNING_FORMS)?;
    Ok(())
}

const MISSPELT_TABLE_LINES: &str = "\
word|submit 1 1 ul 61
word|end
word|gone
form|set
form|set window 1
form|set Queue 1
form|set queue -1
form|remote
form|remote 1 2
form|remote 1a
form|remote 00
form|remote 65536 1
form|bearer 1 33 12 012
form|start 1 1 to 0
form|start 1 1 UL 0
form|path 1
form|path 1 relay
form|path 1 gnb
form|path 1 Direct
form|path 1 relay 01
form|path 0 relay -1";

const MISSPELT_RUNNING_LINES: &str = "\
skipped|
skipped|#
skipped|# fly\t
skipped|#é
word|fly
word|fly 1 2
word|remote 1
word|relayscript 1
word|go
word|Drain
word|drains
text|draín
text|drain\x1f
text|drain\x7f
form|submit 1 1 up 61
form|submit 1 1 UL 61
form|submit 1 1 ul 6
form|submit 1 1 ul 616
form|submit 1 1 ul 6g
form|submit 1 1 ul 0x61
form|submit 1 1 ul --
form|submit 1 1 ul\x20
ok|submit 1 1 ul aF
ok|submit 1 1 ul AF
form|submit 0 1 ul 6
form|grant u9 ul 01
form|grant d1.1 ul 00
form|grant d1.1 u 1
form|deliver 1a
form|deliver 0x1
form|expire d1.1 mid poll
form|expire d1.1 low reassembly
form|expire d1.1 Low poll
form|expire u9 low never
form|plan 1 gnb
form|plan 0 relay 00
form|apply 1 ue
form|apply 1 gNB
form|apply 65536 ue";

const MISSPELT_PORTS: &str = "\
form|push x1
form|push D1.1
form|push 1.1
form|push d
form|push d1
form|push d1.
form|push d.1
form|push d.
form|push d1.1.1
form|push d1,1
form|push d01.1
form|push d1.01
form|push d+1.1
form|push d1.-1
form|push p1
form|push p1.
form|push p01.1
form|push p1.01
form|push p1.1.1
form|push u
form|push u.1
form|push u1.1
form|push u01
form|push u-1
form|push u00
range|push d0.33
range|push d99999999999999999999999.1";

#[test]
fn refuses_misspelt_lines(rt: HostRuntime) -> Result<(), Fail> {
    let alloc = rt.alloc();
    let mut stage = stage_behind(alloc, "relayscript 1")?;
    check_rows(&rt, alloc, &mut stage, MISSPELT_TABLE_LINES);
    let mut stage = stage_behind(alloc, RUNNING)?;
    check_rows(&rt, alloc, &mut stage, MISSPELT_RUNNING_LINES);
    check_rows(&rt, alloc, &mut stage, MISSPELT_PORTS);
    assert_eq!(rt; verdict(alloc, &mut stage, b"drain\xff"), "text");
    assert_eq!(rt; verdict(alloc, &mut stage, b"#\xff"), "skipped");
    Ok(())
}

const VERSIONS: &str = "\
skipped|
skipped|# relayscript 2
version|relayscript 2
version|relayscript 0
version|relayscript
version|relayscript 1\x20
version|relayscript 1 1
version|relayscript  1
version| relayscript 1
version|relayscript 01
version|relayscript +1
version|go
version|fly
text|fly\t
text|relayscript\t1
ok|relayscript 1
word|relayscript 1
word|relayscript 2";

#[test]
fn refuses_a_version_of_another_number(rt: HostRuntime) -> Result<(), Fail> {
    let alloc = rt.alloc();
    let mut stage = stage_behind(alloc, "")?;
    check_rows(&rt, alloc, &mut stage, VERSIONS);
    Ok(())
}

// `range` is tested before `twice` and `unknown`, so a number of a line that is refused for these is in its range.
const TABLE_NUMBERS: &str = "\
range|set queue 0
ok|set queue 1
twice|set queue 1024
range|set queue 1025
ok|set report 0
twice|set report 65536
range|set report 65537
ok|set pollpdu 0
twice|set pollpdu 65536
range|set pollpdu 65537
ok|set pollbyte 0
twice|set pollbyte 16777216
range|set pollbyte 16777217
range|set maxretx 0
ok|set maxretx 1
twice|set maxretx 255
range|set maxretx 256
range|remote 0
ok|remote 1
ok|remote 65535
range|remote 65536
range|bearer 0 1 12 12
range|bearer 65536 1 12 12
range|bearer 1 0 12 12
range|bearer 1 33 12 12
range|bearer 1 1 11 12
range|bearer 1 1 13 12
range|bearer 1 1 17 12
range|bearer 1 1 12 19
range|bearer 1 1 12 0
range|bearer 1 1 12 99999999999999999999999
ok|bearer 1 1 12 12
ok|bearer 65535 32 18 18
range|uu 0 12
range|uu 9 12
range|uu 1 20
ok|uu 1 12
ok|uu 8 18
range|pc5 0 1 12
range|pc5 65536 1 12
range|pc5 1 0 12
range|pc5 1 9 12
range|pc5 1 1 1
ok|pc5 1 1 12
ok|pc5 65535 8 18
range|map 0 1 1 1
range|map 65536 1 1 1
range|map 1 0 1 1
range|map 1 33 1 1
range|map 1 1 0 1
range|map 1 1 9 1
range|map 1 1 1 0
range|map 1 1 1 9
ok|map 1 1 1 1
ok|map 65535 32 8 8
range|start 0 1 ul 0
range|start 65536 1 ul 0
range|start 1 0 ul 0
range|start 1 33 ul 0
range|start 1 1 ul 4294967295
ok|start 1 1 ul 0
ok|start 65535 32 ul 4294967294
range|path 0 direct
range|path 65536 direct
range|path 1 relay 256
ok|path 1 relay 0
ok|path 65535 relay 255";

const RUNNING_NUMBERS: &str = "\
range|submit 0 1 ul -
ok|submit 1 1 ul -
ok|submit 65535 1 ul -
range|submit 65536 1 ul -
range|submit 1 0 ul -
ok|submit 1 32 ul -
range|submit 1 33 ul -
range|grant u1 ul 0
ok|grant u1 ul 1
ok|grant u1 ul 65535
range|grant u1 ul 65536
range|grant u1 ul 99999999999999999999999
range|deliver 0
ok|deliver 1
ok|deliver 18446744073709551615
range|deliver 18446744073709551616
range|repeat 0
ok|repeat 1
ok|repeat 18446744073709551615
range|repeat 18446744073709551616
range|lose 0
ok|lose 1
ok|lose 18446744073709551615
range|lose 18446744073709551616
range|stage 0
ok|stage 1
ok|stage 18446744073709551615
range|stage 18446744073709551616
range|report 0 1 ul
ok|report 1 1 ul
ok|report 65535 32 ul
range|report 65536 1 ul
range|report 1 0 ul
range|report 1 33 ul
range|plan 0 direct
ok|plan 1 direct
ok|plan 65535 direct
range|plan 65536 direct
range|plan 0 relay 5
range|plan 65536 relay 5
ok|plan 1 relay 0
ok|plan 1 relay 255
range|plan 1 relay 256
range|apply 0 gnb
ok|apply 1 gnb
ok|apply 65535 gnb
range|apply 65536 gnb";

const PORT_NUMBERS: &str = "\
range|grant d0.1 ul 1
ok|grant d1.1 ul 1
ok|grant d65535.1 ul 1
range|grant d65536.1 ul 1
range|grant d1.0 ul 1
ok|grant d1.32 ul 1
range|grant d1.33 ul 1
range|expire p0.1 low poll
ok|expire p1.1 low poll
ok|expire p65535.1 low poll
range|expire p65536.1 low poll
range|expire p1.0 low poll
ok|expire p1.8 low poll
range|expire p1.9 low poll
range|push u0
ok|push u1
ok|push u8
range|push u9
range|pull p1.9
ok|pull p1.8
range|pull u0
ok|pull d1.32";

#[test]
fn refuses_numbers_past_their_ranges(rt: HostRuntime) -> Result<(), Fail> {
    let alloc = rt.alloc();
    let mut stage = stage_behind(alloc, "relayscript 1")?;
    check_rows(&rt, alloc, &mut stage, TABLE_NUMBERS);
    let mut stage = stage_behind(alloc, RUNNING)?;
    check_rows(&rt, alloc, &mut stage, RUNNING_NUMBERS);
    check_rows(&rt, alloc, &mut stage, PORT_NUMBERS);
    Ok(())
}

/// What reading a line with this many bytes says.
fn verdict_of_length(alloc: Global, first: &str, length: u32) -> Result<&'static str, Fail> {
    let mut line = String::from_str(alloc, first)?;
    for _ in 1..length {
        line.push_str("a")?;
    }
    let mut stage = stage_behind(alloc, RUNNING)?;
    Ok(verdict(alloc, &mut stage, line.as_bytes()))
}

#[test]
fn tests_the_length_of_each_line_first(rt: HostRuntime) -> Result<(), Fail> {
    let alloc = rt.alloc();
    assert_eq!(rt; verdict_of_length(alloc, "#", 65_536)?, "skipped");
    assert_eq!(rt; verdict_of_length(alloc, "#", 65_537)?, "line");
    assert_eq!(rt; verdict_of_length(alloc, "a", 65_536)?, "word");
    assert_eq!(rt; verdict_of_length(alloc, "a", 65_537)?, "line");
    assert_eq!(rt; verdict_of_length(alloc, "\t", 65_537)?, "line");
    Ok(())
}
