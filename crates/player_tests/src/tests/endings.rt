// Most replies in short sessions, and scripts that end early.
use super::{
    FIRST_DELIVERY, FIRST_TRACE, TABLES, WIDE_TABLES, expect, expect_ending, expect_sessions,
};
use std::test::Fail;

// Most replies, and lines that are skipped.
const REPLIES: &str = "\
relayscript 1

# a comment
remote 1
bearer 1 1 12 12
go
submit 1 2 ul 61|nobearer
submit 2 1 ul 61|nobearer
submit 1 1 ul -|empty
grant d1.1 ul 100|idle
grant d1.2 ul 100|noport
submit 1 1 ul 61|ok 0
grant d1.1 ul 2|small 3
grant d1.1 ul 5|air 1 data 0 c000800061
repeat 1|  up 1 1 ul 61|ok up 1
repeat 1|ok repeat
deliver 1|ok repeat
deliver 1|noair
submit 1 1 ul 62|ok 1
submit 1 1 ul 63|ok 2
grant d1.1 ul 100|air 2 data 1 8001800162
grant d1.1 ul 100|air 3 data 2 c002800263
lose 2|ok
lose 2|noair
deliver 2|noair
#
deliver 3|ok waiting
repeat 9|noair
end|total 1 1 ul 3 1 0|total 1 1 dl 0 0 0|done
fly";

// Numbers at the ends of their ranges.
const GREATEST_NUMBERS: &str = "\
relayscript 1
remote 65535
bearer 65535 32 12 12
set maxretx 255
set pollpdu 65536
set pollbyte 16777216
go
end|total 65535 32 ul 0 0 0|total 65535 32 dl 0 0 0|done";

// Without tables there is nothing to be sent or heard.
const NO_TABLES: &str = "\
relayscript 1
go
deliver 18446744073709551615|noair
grant d1.1 ul 65535|noport
submit 1 1 ul 6A|nobearer
expire d1.1 low poll|noport
end|done";

// A line that is bad behind one that was carried out.
const BAD_IN_THE_MIDDLE: &str = "\
relayscript 1
go
lose 1|noair
fly|bad 4 word
lose 1";

#[test]
fn sessions_and_their_traces(rt: HostRuntime) -> Result<(), Fail> {
    expect_sessions(&rt, rt.alloc(), &[REPLIES, GREATEST_NUMBERS, NO_TABLES])?;
    expect_ending(&rt, rt.alloc(), BAD_IN_THE_MIDDLE, 1)
}

#[test]
fn scripts_that_end_early(rt: HostRuntime) -> Result<(), Fail> {
    let none = "total 1 1 ul 0 0 0\ntotal 1 1 dl 0 0 0\ndone\n";
    for (script, status, trace) in [
        (TABLES, 0, none),
        (WIDE_TABLES, 0, none),
        (TABLES.trim_end(), 0, none),
        ("relayscript 1\ngo\nend", 0, "done\n"),
        ("", 1, "bad 1 end\n"),
        ("relayscript 1\n", 1, "bad 2 end\n"),
        ("relayscript 1", 1, "bad 2 end\n"),
        ("#\n\nrelayscript 1\nremote 1", 1, "bad 5 end\n"),
        ("relayscript 1\ngo\nfly\n", 1, "bad 3 word\n"),
        ("relayscript 1\r\ngo\r\n", 1, "bad 1 text\n"),
        ("relayscript 1\nremote 1\0\n", 1, "bad 2 text\n"),
    ] {
        expect(&rt, rt.alloc(), script, status, trace)?;
    }
    expect(&rt, rt.alloc(), FIRST_DELIVERY, 0, FIRST_TRACE)
}
