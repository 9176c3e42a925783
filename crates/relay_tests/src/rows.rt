// Tables of calls on a relay, each beside what it answers.
use crate::called::Called;
use std::alloc::Global;
use std::process::Abort;
use std::test::Fail;

/// Does the calls of a table on a relay at which nothing has happened, whose queues hold so many SDUs: each row is a call
/// and, behind a bar, what it answers.
pub(crate) fn expect_rows(
    rt: &impl Abort,
    alloc: Global,
    queue: u32,
    rows: &str,
) -> Result<(), Fail> {
    let mut relay = Called::new(rt, alloc, queue)?;
    for row in rows.split('\n') {
        let Some((call, want)) = row.split_once('|') else {
            panic!(rt; "a row without a bar");
        };
        let said = relay.said(rt, call)?;
        assert_eq!(rt; said.as_str(), want, "{call}");
    }
    Ok(())
}

const UPLINK: &str = "\
is_empty|true
hear p1.1 0 data 0 c000800580006869|slot u1
is_empty|false
pull u1|empty
push p1.1|u1
push p1.1|nothing
is_empty|false
grant u1 100|0 idle
pull u1|0
pull u1|empty
is_empty|true
grant u1 100|0 data 0 c000800580006869
grant u1 100|0 idle
grant p1.1 3|0 status 1 000100
hear u1 0 status 1 000100|acks 1 marks 0
hear p1.1 0 data 0 c000800580006869|nothing new";

const WIDE_UPLINK: &str = "\
hear p1.2 0 data 0 c000008105800061|slot u2
hear p1.1 0 data 0 c0008005800062|slot u1
push p1.1|u1
push p1.2|u2
pull u1|0
pull u2|0
grant u2 100|0 data 0 c000008105800061
grant u1 100|0 data 0 c0008005800062
grant p1.2 4|0 status 1 000004";

const DOWNLINK: &str = "\
hear u1 0 data 0 80008006800062|slot p2.1
push u1|p2.1
hear u1 0 data 1 c0018005800061|slot p1.1
push u1|p1.1
hear u2 0 data 0 c00000810580000061|slot p1.2
push u2|p1.2
pull p1.1|0
pull p1.2|0
pull p2.1|0
pull p2.1|empty
grant p1.1 100|0 data 0 c0008005800061
grant p1.2 100|0 data 0 c00000810580000061
grant p2.1 100|0 data 0 c0008006800062
grant u1 3|0 status 2 000200
hear p1.1 0 status 1 000100|acks 1 marks 0
hear p2.1 0 status 1 000100|acks 1 marks 0
is_empty|true";

// An SDU that comes in two segments, the last one first, and goes on in two others.
const SEGMENTS: &str = "\
hear p2.1 0 data 0 e000000480006869|stored
push p2.1|nothing
hear p2.1 0 data 0 900080068000|slot u1
push p2.1|u1
pull u1|0
grant u1 6|0 data 0 900080068000
grant u1 100|0 data 0 e000000480006869";

const CAPACITY_OF_ONE: &str = "\
hear p1.1 0 data 0 c0008005800061|slot u1
push p1.1|u1
hear p2.1 0 data 0 80008006800062|slot u1
push p2.1|queue full
hear p2.1 0 data 1 c0018006800163|held
push p2.1|queue full
pull u1|0
push p2.1|u1
push p2.1|nothing
hear p2.1 0 data 1 c0018006800163|slot u1
push p2.1|queue full
pull u1|1
push p2.1|u1
pull u1|2
pull u1|empty
grant u1 100|0 data 0 80008005800061";

const HELD: &str = "\
hear p1.1 0 data 0 80008005800061|slot u1
hear p1.1 0 data 1 c0018005800162|held
hear p1.1 0 data 1 90018005|held
hear p1.1 0 data 0 80008005800061|held
hear p1.1 0 status 0 000000|acks 0 marks 0
hear p2.1 0 data 0 80008006800061|slot u1
grant p1.1 100|0 idle
push p1.1|u1
hear p1.1 0 data 1 90018005|stored
hear p1.1 0 data 1 c0018005800162|slot u1
grant p1.1 100|0 status 2 000200";

const DISCARDED_UPLINK: &str = "\
hear p1.1 0 data 0 c00080|discard short
hear p1.1 0 data 1 8001000561|discard control
hear p1.1 0 data 2 80028005|discard no-body
hear p1.1 0 data 3 8003800961|discard unknown-ue
hear p1.1 0 data 4 8004800661|discard foreign-ue
hear p1.1 0 data 5 8005870561|discard unknown-bearer
hear p1.1 0 data 6 8006810561|discard unknown-bearer
hear p1.2 0 data 0 800000800561|discard unknown-bearer
is_empty|true
push p1.1|nothing
push p1.2|nothing
hear p1.1 0 data 6 8006810561|nothing new
grant p1.1 3|0 status 7 000700
hear p1.1 0 data 7 8007e00561|slot u1
push p1.1|u1
pull u1|0
grant u1 100|0 data 0 c000e00561";

const DISCARDED_DOWNLINK: &str = "\
hear u1 0 data 0 800080|discard short
hear u1 0 data 1 8001000561|discard control
hear u1 0 data 2 80028005|discard no-body
hear u1 0 data 3 8003800961|discard unknown-ue
hear u1 0 data 4 8004870561|discard unknown-bearer
hear u1 0 data 5 8005810561|discard unknown-bearer
hear u2 0 data 0 800000800661|discard unknown-bearer
is_empty|true
push u1|nothing
hear u1 0 data 6 8006e00661|slot p2.1";

// The tables have no such port, or the port of remote 3 is closed, or the PDU is of another epoch or too old.
const REFUSED: &str = "\
hear p1.3 0 data 0 c000800561|no port
hear d1.1 0 data 0 c000800561|no port
hear p3.1 0 data 0 c000800561|gone
hear p1.1 1 data 0 c000800561|gone
hear p1.1 0 status 0 00|bad status short
hear p1.1 0 data 0 8000|bad no-body
push p3.1|no port
push u3|no port
push d1.1|no port
pull p3.1|no port
pull u3|no port
pull d1.1|no port
grant p3.1 100|no port
grant u3 100|no port
expire p3.1 poll|no port
expire u1 poll|stopped
expire u1 reasm|stopped
expire u1 prohibit|stopped
remote 5|1
remote 6|2
remote 7|none";

#[test]
fn relays(rt: HostRuntime) -> Result<(), Fail> {
    for rows in [UPLINK, WIDE_UPLINK, DOWNLINK, SEGMENTS, HELD] {
        expect_rows(&rt, rt.alloc(), 64, rows)?;
    }
    for rows in [DISCARDED_UPLINK, DISCARDED_DOWNLINK, REFUSED] {
        expect_rows(&rt, rt.alloc(), 64, rows)?;
    }
    expect_rows(&rt, rt.alloc(), 1, CAPACITY_OF_ONE)
}
