// SDUs and status reports over the relay: its slots, its queues, and what is lost at each hop.
use super::expect_sessions;
use std::test::Fail;

// An SDU goes up over both hops, and a report about it comes back.
const AN_SDU_AND_ITS_REPORT: &str = "\
relayscript 1
remote 1
bearer 1 1 12 12
uu 1 12
pc5 1 1 12
map 1 1 1 1
path 1 relay 5
go
submit 1 1 ul 6869|ok 0
grant p1.1 ul 100|air 1 data 0 c000800580006869
deliver 1|ok slot u1
push p1.1|ok u1
pull u1|ok 0
grant u1 ul 100|air 2 data 0 c000800580006869
deliver 2|  up 1 1 ul 6869|ok up 1
report 1 1 ul|  rep 1 1 ul|ok
grant u1 dl 100|air 3 status 1 000100
grant u1 dl 100|air 4 data 0 c00080050000000001
deliver 4|ok slot p1.1
push u1|ok p1.1
pull p1.1|ok 0
grant p1.1 dl 100|air 5 status 1 000100
grant p1.1 dl 100|air 6 data 0 c00080050000000001
deliver 6|  conf 1 1 ul 1|ok report
end|total 1 1 ul 1 1 1|total 1 1 dl 0 0 0|done";

// A queue of one SDU is full, and a slot isn't empty: what finds no room stays where it is, and goes on once there is room.
const A_QUEUE_OF_ONE: &str = "\
relayscript 1
set queue 1
remote 1
bearer 1 1 12 12
remote 2
bearer 2 1 12 12
uu 1 12
pc5 1 1 12
pc5 2 1 12
map 1 1 1 1
map 2 1 1 1
path 1 relay 5
path 2 relay 6
go
submit 1 1 ul 61|ok 0
submit 2 1 ul 62|ok 0
submit 2 1 ul 63|ok 1
grant p1.1 ul 100|air 1 data 0 c0008005800061
grant p2.1 ul 100|air 2 data 0 80008006800062
grant p2.1 ul 100|air 3 data 1 c0018006800163
deliver 1|ok slot u1
push p1.1|ok u1
deliver 2|ok slot u1
push p2.1|queuefull
deliver 3|held
pull u1|ok 0
push p2.1|ok u1
deliver 3|ok slot u1
pull u1|ok 1
push p2.1|ok u1
pull u1|ok 2
pull u1|empty
push p2.1|nothing
grant u1 ul 100|air 4 data 0 80008005800061
grant u1 ul 100|air 5 data 1 80018006800062
grant u1 ul 100|air 6 data 2 c0028006800163
deliver 4|  up 1 1 ul 61|ok up 1
deliver 5|  up 2 1 ul 62|ok up 1
deliver 6|  up 2 1 ul 63|ok up 1
end|total 1 1 ul 1 1 0|total 1 1 dl 0 0 0|total 2 1 ul 2 2 0|total 2 1 dl 0 0 0|done";

// The receiving end reports each time that it has handed up two SDUs more. RLC's STATUS on either hop confirms nothing to PDCP.
const A_REPORT_AFTER_TWO: &str = "\
relayscript 1
set report 2
remote 1
bearer 1 1 12 12
uu 1 12
pc5 1 1 12
map 1 1 1 1
path 1 relay 5
go
submit 1 1 ul 61|ok 0
submit 1 1 ul 62|ok 1
submit 1 1 ul 63|ok 2
grant p1.1 ul 100|air 1 data 0 80008005800061
grant p1.1 ul 100|air 2 data 1 80018005800162
grant p1.1 ul 100|air 3 data 2 c0028005800263
deliver 1|ok slot u1
push p1.1|ok u1
deliver 2|ok slot u1
push p1.1|ok u1
deliver 3|ok slot u1
push p1.1|ok u1
pull u1|ok 0
pull u1|ok 1
pull u1|ok 2
grant u1 ul 100|air 4 data 0 80008005800061
grant u1 ul 100|air 5 data 1 80018005800162
grant u1 ul 100|air 6 data 2 c0028005800263
deliver 5|ok waiting
deliver 4|  up 1 1 ul 61|  up 1 1 ul 62|  rep 1 1 ul|ok up 2
deliver 6|  up 1 1 ul 63|ok up 1
grant u1 dl 100|air 7 status 3 000300
grant u1 dl 100|air 8 data 0 c00080050000000002
lose 8|ok
deliver 7|ok acks 3
expire u1 high poll|ok
grant u1 dl 100|air 9 data 0 c00080050000000002
deliver 9|ok slot p1.1
push u1|ok p1.1
pull p1.1|ok 0
grant p1.1 dl 4|air 10 status 3 000300
grant p1.1 dl 100|air 11 data 0 c00080050000000002
grant p1.1 dl 100|idle
deliver 11|  conf 1 1 ul 2|ok report
end|total 1 1 ul 3 3 2|total 1 1 dl 0 0 0|done";

// PDUs of 18-bit numbers on one hop and of 12-bit numbers on the other, pieces of other sizes on each, and losses at both.
const PIECES_AND_LOSSES: &str = "\
relayscript 1
set maxretx 1
remote 1
bearer 1 1 12 12
uu 1 12
pc5 1 2 18
map 1 1 2 1
path 1 relay 255
go
submit 1 1 ul 0102030405060708090a|ok 0
submit 1 1 dl 6869|ok 0
grant p1.2 ul 9|air 1 data 0 90000080ff80000102
grant p1.2 ul 100|air 2 data 0 e000000006030405060708090a
grant u1 dl 6|air 3 data 0 900080ff8000
grant u1 dl 100|air 4 data 0 e00000046869
deliver 1|ok stored
lose 2|ok
deliver 4|ok stored
lose 3|ok
expire p1.2 low poll|ok
grant p1.2 ul 11|air 5 data 0 d0000080ff800001020304
grant p1.2 ul 100|air 6 data 0 e00000000805060708090a
deliver 6|ok stored
deliver 5|ok slot u1
push p1.2|ok u1
pull u1|ok 0
grant u1 ul 8|air 7 data 0 900080ff80000102
grant u1 ul 100|air 8 data 0 e0000006030405060708090a
deliver 8|ok stored
lose 7|ok
expire u1 high reasm|ok
grant u1 dl 100|air 9 status 1 000180000400000005
deliver 9|ok acks 0
grant u1 ul 100|air 10 data 0 d00080ff80000102
grant u1 ul 100|idle
deliver 10|  up 1 1 ul 0102030405060708090a|ok up 1
expire u1 low reasm|ok
grant u1 ul 100|air 11 status 1 000180000400000003
deliver 11|ok acks 0
grant u1 dl 100|air 12 data 0 d00080ff8000
deliver 12|ok slot p1.2
push u1|ok p1.2
pull p1.2|ok 0
grant p1.2 dl 100|air 13 status 1 000004
grant p1.2 dl 100|air 14 data 0 c0000080ff80006869
lose 14|ok
expire p1.2 high poll|ok
grant p1.2 dl 100|air 15 data 0 c0000080ff80006869
lose 15|ok
expire p1.2 high poll|  maxretx p1.2 dl 0|ok
grant p1.2 dl 100|air 16 data 0 c0000080ff80006869
deliver 13|ok acks 1
deliver 16|  up 1 1 dl 6869|ok up 1
grant p1.2 ul 100|air 17 status 1 000004
deliver 17|ok acks 1
end|total 1 1 ul 1 1 0|total 1 1 dl 1 1 0|done";

// One remote on its direct path beside one on the relay. The ports of the path on which a remote isn't are closed, a direct
// port has no slot and no queue, and no channel `u3` is there.
const BOTH_PATHS: &str = "\
relayscript 1
remote 1
remote 2
bearer 1 1 12 12
bearer 2 1 18 12
uu 1 12
uu 2 12
pc5 1 1 12
pc5 2 1 12
map 1 1 1 1
map 2 1 1 1
path 2 relay 0
go
submit 1 1 ul 61|ok 0
submit 2 1 ul 62|ok 0
grant d1.1 ul 100|air 1 data 0 c000800061
grant d2.1 ul 100|noport
grant p1.1 ul 100|noport
grant p2.1 dl 100|idle
grant p2.1 ul 100|air 2 data 0 c000800080000062
deliver 1|  up 1 1 ul 61|ok up 1
deliver 2|ok slot u1
deliver 2|noair
push d1.1|noport
push p1.1|noport
push u3|noport
push u2|nothing
pull u2|empty
pull d2.1|noport
pull p1.1|noport
pull p2.1|empty
push p2.1|ok u1
pull u1|ok 0
grant u1 ul 100|air 3 data 0 c000800080000062
repeat 3|  up 2 1 ul 62|ok up 1
deliver 3|ok repeat
report 1 1 ul|  rep 1 1 ul|ok
report 2 1 ul|  rep 2 1 ul|ok
grant u1 dl 100|air 4 status 1 000100
deliver 4|ok acks 1
grant u1 dl 100|air 5 data 0 c00080000000000001
grant d1.1 dl 100|air 6 status 1 000100
deliver 5|ok slot p2.1
push u1|ok p2.1
pull p2.1|ok 0
grant p2.1 dl 100|air 7 status 1 000100
grant p2.1 dl 100|air 8 data 0 c00080000000000001
deliver 8|  conf 2 1 ul 1|ok report
expire p1.1 high poll|noport
expire u2 low poll|stopped
expire u3 low poll|noport
expire p2.1 high prohibit|ok
end|total 1 1 ul 1 1 0|total 1 1 dl 0 0 0|total 2 1 ul 1 1 1|total 2 1 dl 0 0 0|done";

#[test]
fn sdus_and_reports_over_the_relay(rt: HostRuntime) -> Result<(), Fail> {
    expect_sessions(
        &rt,
        rt.alloc(),
        &[
            AN_SDU_AND_ITS_REPORT,
            A_QUEUE_OF_ONE,
            A_REPORT_AFTER_TWO,
            PIECES_AND_LOSSES,
            BOTH_PATHS,
        ],
    )
}
