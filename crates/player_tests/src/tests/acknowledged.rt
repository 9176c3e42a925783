// STATUS PDUs, retransmissions and timers.
use super::expect_sessions;
use std::test::Fail;

// One SDU of three is lost, and a STATUS names it.
const ONE_OF_THREE_IS_LOST: &str = "\
relayscript 1
remote 1
bearer 1 1 12 12
go
submit 1 1 ul 61|ok 0
submit 1 1 ul 62|ok 1
submit 1 1 ul 63|ok 2
grant d1.1 ul 100|air 1 data 0 8000800061
grant d1.1 ul 100|air 2 data 1 8001800162
grant d1.1 ul 100|air 3 data 2 c002800263
deliver 1|  up 1 1 ul 61|ok up 1
lose 2|ok
deliver 3|ok waiting
grant d1.1 dl 100|idle
expire d1.1 high reasm|ok
grant d1.1 dl 100|air 4 status 3 0003800010
deliver 4|  conf 1 1 ul 1|ok acks 2
grant d1.1 ul 100|air 5 data 1 c001800162
deliver 5|  up 1 1 ul 62|  up 1 1 ul 63|ok up 2
grant d1.1 dl 100|idle
expire d1.1 high prohibit|ok
grant d1.1 dl 100|air 6 status 3 000300
deliver 6|  conf 1 1 ul 3|ok acks 1
end|total 1 1 ul 3 3 3|total 1 1 dl 0 0 0|done";

// An SDU goes again in segments that overlap, since no STATUS comes.
const SEGMENTS_OVERLAP: &str = "\
relayscript 1
remote 1
bearer 1 1 12 12
go
submit 1 1 ul 0102030405060708090a|ok 0
grant d1.1 ul 100|air 1 data 0 c00080000102030405060708090a
lose 1|ok
expire d1.1 low poll|ok
grant d1.1 ul 7|air 2 data 0 d0008000010203
deliver 2|ok stored
grant d1.1 ul 100|air 3 data 0 e00000050405060708090a
lose 3|ok
expire d1.1 low poll|ok
grant d1.1 ul 8|air 4 data 0 d000800001020304
deliver 4|ok stored
grant d1.1 ul 100|air 5 data 0 e000000605060708090a
deliver 5|  up 1 1 ul 0102030405060708090a|ok up 1
end|total 1 1 ul 1 1 0|total 1 1 dl 0 0 0|done";

// Two STATUS PDUs come in reverse order.
const STATUS_PDUS_IN_REVERSE: &str = "\
relayscript 1
remote 1
bearer 1 1 12 12
go
submit 1 1 ul 61|ok 0
submit 1 1 ul 62|ok 1
submit 1 1 ul 63|ok 2
grant d1.1 ul 100|air 1 data 0 8000800061
grant d1.1 ul 100|air 2 data 1 8001800162
grant d1.1 ul 100|air 3 data 2 c002800263
lose 1|ok
lose 2|ok
deliver 3|ok waiting
expire d1.1 high reasm|ok
grant d1.1 dl 100|air 4 status 3 000380000202
expire d1.1 low poll|ok
grant d1.1 ul 100|air 5 data 0 c000800061
deliver 5|  up 1 1 ul 61|ok up 1
expire d1.1 high prohibit|ok
grant d1.1 dl 100|air 6 status 3 0003800010
deliver 6|  conf 1 1 ul 1|ok acks 2
deliver 4|ok acks 0
grant d1.1 ul 100|air 7 data 1 c001800162
deliver 7|  up 1 1 ul 62|  up 1 1 ul 63|ok up 2
end|total 1 1 ul 3 3 1|total 1 1 dl 0 0 0|done";

// With 18 bits a STATUS names two SDUs by a range, and the middle of a third.
const A_RANGE_AND_A_PART: &str = "\
relayscript 1
remote 1
bearer 1 1 12 18
go
submit 1 1 ul 61|ok 0
submit 1 1 ul 62|ok 1
submit 1 1 ul 63|ok 2
submit 1 1 ul 64656667|ok 3
grant d1.1 ul 100|air 1 data 0 800000800061
grant d1.1 ul 100|air 2 data 1 800001800162
grant d1.1 ul 100|air 3 data 2 800002800263
grant d1.1 ul 6|air 4 data 3 900003800364
grant d1.1 ul 7|air 5 data 3 b0000300036566
grant d1.1 ul 100|air 6 data 3 e00003000567
deliver 1|  up 1 1 ul 61|ok up 1
lose 2|ok
lose 3|ok
deliver 4|ok stored
lose 5|ok
deliver 6|ok stored
expire d1.1 high reasm|ok
grant d1.1 dl 100|air 7 status 4 000012000068020000d000030004
deliver 7|  conf 1 1 ul 1|ok acks 1
grant d1.1 ul 100|air 8 data 1 800001800162
grant d1.1 ul 100|air 9 data 2 800002800263
grant d1.1 ul 6|air 10 data 3 b00003000365
grant d1.1 ul 100|air 11 data 3 f00003000466
deliver 9|ok waiting
deliver 10|ok stored
deliver 11|ok waiting
expire d1.1 high prohibit|ok
grant d1.1 dl 100|air 12 status 4 000012000040
deliver 12|ok acks 2
deliver 8|  up 1 1 ul 62|  up 1 1 ul 63|  up 1 1 ul 64656667|ok up 3
end|total 1 1 ul 4 4 1|total 1 1 dl 0 0 0|done";

// No timer runs before a PDU was sent, and a side lacks the timers of the other one's work.
const TIMERS_OF_EACH_SIDE: &str = "\
relayscript 1
remote 1
bearer 1 1 12 12
go
expire d1.1 low poll|stopped
expire d1.1 low reasm|stopped
expire d1.1 low prohibit|stopped
expire d1.1 high poll|stopped
expire d1.1 high reasm|stopped
expire d1.1 high prohibit|stopped
expire p1.1 low poll|noport
expire p1.1 high reasm|noport
expire u1 high reasm|noport
expire u1 low prohibit|noport
expire d1.2 low poll|noport
expire d2.1 high prohibit|noport
grant d1.2 dl 100|noport
grant d2.1 dl 100|noport
grant d1.1 dl 100|idle
end|total 1 1 ul 0 0 0|total 1 1 dl 0 0 0|done";

// Each timer runs out once. A STATUS has room for what it names, or names less.
const EACH_TIMER_RUNS_OUT_ONCE: &str = "\
relayscript 1
remote 1
bearer 1 1 12 12
go
submit 1 1 ul 61|ok 0
submit 1 1 ul 62|ok 1
grant d1.1 ul 100|air 1 data 0 8000800061
expire d1.1 low poll|stopped
grant d1.1 ul 100|air 2 data 1 c001800162
deliver 2|ok waiting
expire d1.1 low prohibit|stopped
expire d1.1 low reasm|stopped
expire d1.1 high poll|stopped
expire d1.1 high prohibit|stopped
grant d1.1 dl 100|idle
expire d1.1 high reasm|ok
expire d1.1 high reasm|stopped
grant d1.1 dl 1|small 3
grant d1.1 dl 2|small 3
grant d1.1 dl 4|air 3 status 0 000000
grant d1.1 dl 100|idle
expire d1.1 high prohibit|ok
expire d1.1 high prohibit|stopped
grant d1.1 dl 100|idle
deliver 3|ok acks 0
expire d1.1 low poll|ok
expire d1.1 low poll|stopped
grant d1.1 ul 100|air 4 data 0 c000800061
grant d1.1 ul 100|idle
deliver 1|  up 1 1 ul 61|  up 1 1 ul 62|ok up 2
grant d1.1 dl 3|idle
deliver 4|ok repeat
grant d1.1 dl 2|small 3
grant d1.1 dl 3|air 5 status 2 000200
deliver 5|  conf 1 1 ul 2|ok acks 2
expire d1.1 low poll|stopped
expire d1.1 high reasm|stopped
end|total 1 1 ul 2 2 2|total 1 1 dl 0 0 0|done";

// The gaps of one SDU are named together or not at all.
const GAPS_OF_ONE_SDU: &str = "\
relayscript 1
remote 1
bearer 1 1 12 12
go
submit 1 1 ul 0102030405060708090a|ok 0
submit 1 1 ul 61|ok 1
submit 1 1 ul 62|ok 2
grant d1.1 ul 5|air 1 data 0 9000800001
grant d1.1 ul 6|air 2 data 0 b00000030203
grant d1.1 ul 6|air 3 data 0 b00000050405
grant d1.1 ul 100|air 4 data 0 a0000007060708090a
grant d1.1 ul 100|air 5 data 1 8001800161
grant d1.1 ul 100|air 6 data 2 c002800262
deliver 1|ok stored
deliver 3|ok stored
deliver 6|ok waiting
expire d1.1 high reasm|ok
grant d1.1 dl 14|air 7 status 0 000000
expire d1.1 high reasm|ok
expire d1.1 high prohibit|ok
grant d1.1 dl 16|air 8 status 1 000180000c0003000400040007ffff
deliver 8|ok acks 0
grant d1.1 ul 100|air 9 data 0 b00000030203
grant d1.1 ul 100|air 10 data 0 e0000007060708090a
deliver 10|ok stored
deliver 9|  up 1 1 ul 0102030405060708090a|ok up 1
expire d1.1 high prohibit|ok
grant d1.1 dl 100|air 11 status 3 0003800010
deliver 11|  conf 1 1 ul 1|ok acks 2
end|total 1 1 ul 3 1 1|total 1 1 dl 0 0 0|done";

#[test]
fn lost_pdus_come_again(rt: HostRuntime) -> Result<(), Fail> {
    expect_sessions(
        &rt,
        rt.alloc(),
        &[
            ONE_OF_THREE_IS_LOST,
            SEGMENTS_OVERLAP,
            STATUS_PDUS_IN_REVERSE,
            A_RANGE_AND_A_PART,
        ],
    )
}

#[test]
fn timers_and_grants_for_a_status(rt: HostRuntime) -> Result<(), Fail> {
    expect_sessions(
        &rt,
        rt.alloc(),
        &[
            TIMERS_OF_EACH_SIDE,
            EACH_TIMER_RUNS_OUT_ONCE,
            GAPS_OF_ONE_SDU,
        ],
    )
}
