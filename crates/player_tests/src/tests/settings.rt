// When a PDU polls and when an SDU was sent too often, by the settings; and a STATUS that says less than one before it.
use super::expect_sessions;
use std::test::Fail;

// Each second PDU polls, and the last one. A poll behind a gap waits until the gap is past.
const POLLS_BY_PDUS: &str = "\
relayscript 1
set pollpdu 2
remote 1
bearer 1 1 12 12
go
submit 1 1 ul 61|ok 0
submit 1 1 ul 62|ok 1
submit 1 1 ul 63|ok 2
submit 1 1 ul 64|ok 3
submit 1 1 ul 65|ok 4
grant d1.1 ul 100|air 1 data 0 8000800061
grant d1.1 ul 100|air 2 data 1 c001800162
grant d1.1 ul 100|air 3 data 2 8002800263
grant d1.1 ul 100|air 4 data 3 c003800364
grant d1.1 ul 100|air 5 data 4 c004800465
deliver 2|ok waiting
grant d1.1 dl 100|idle
deliver 1|  up 1 1 ul 61|  up 1 1 ul 62|ok up 2
grant d1.1 dl 100|air 6 status 2 000200
deliver 4|ok waiting
deliver 3|  up 1 1 ul 63|  up 1 1 ul 64|ok up 2
grant d1.1 dl 100|idle
expire d1.1 high prohibit|ok
grant d1.1 dl 100|air 7 status 4 000400
deliver 6|  conf 1 1 ul 2|ok acks 2
deliver 7|  conf 1 1 ul 4|ok acks 2
end|total 1 1 ul 5 4 4|total 1 1 dl 0 0 0|done";

// A poll comes with each seventh byte of PDCP PDUs, whole or in segments, and none by the number of PDUs.
const POLLS_BY_BYTES: &str = "\
relayscript 1
set pollbyte 7
set pollpdu 0
remote 1
bearer 1 1 12 12
go
submit 1 1 ul 61|ok 0
submit 1 1 ul 6263|ok 1
submit 1 1 ul 64|ok 2
submit 1 1 ul 656667|ok 3
submit 1 1 ul 68|ok 4
grant d1.1 ul 100|air 1 data 0 8000800061
grant d1.1 ul 100|air 2 data 1 c00180016263
grant d1.1 ul 100|air 3 data 2 8002800264
grant d1.1 ul 5|air 4 data 3 9003800365
grant d1.1 ul 5|air 5 data 3 f003000366
grant d1.1 ul 100|air 6 data 3 a003000467
grant d1.1 ul 100|air 7 data 4 c004800468
end|total 1 1 ul 5 0 0|total 1 1 dl 0 0 0|done";

// A STATUS that comes behind a newer one says nothing new.
const A_STATUS_BEHIND_A_NEWER_ONE: &str = "\
relayscript 1
remote 1
bearer 1 1 12 12
go
submit 1 1 ul 61|ok 0
grant d1.1 ul 100|air 1 data 0 c000800061
deliver 1|  up 1 1 ul 61|ok up 1
grant d1.1 dl 100|air 2 status 1 000100
submit 1 1 ul 62|ok 1
grant d1.1 ul 100|air 3 data 1 c001800162
deliver 3|  up 1 1 ul 62|ok up 1
expire d1.1 high prohibit|ok
grant d1.1 dl 100|air 4 status 2 000200
repeat 4|  conf 1 1 ul 2|ok acks 2
repeat 4|ok acks 0
repeat 2|ok past
deliver 2|ok past
deliver 2|noair
lose 4|ok
lose 4|noair
end|total 1 1 ul 2 2 2|total 1 1 dl 0 0 0|done";

// The first expiry begins the count, and the third one brings it to two.
const RETX_COUNTED_BY_EXPIRIES: &str = "\
relayscript 1
set maxretx 2
remote 1
bearer 1 1 12 12
go
submit 1 1 ul 61|ok 0
submit 1 1 ul 62|ok 1
grant d1.1 ul 100|air 1 data 0 8000800061
grant d1.1 ul 100|air 2 data 1 c001800162
expire d1.1 low poll|ok
grant d1.1 ul 100|air 3 data 0 c000800061
expire d1.1 low poll|ok
grant d1.1 ul 100|air 4 data 0 c000800061
expire d1.1 low poll|  maxretx d1.1 ul 0|ok
grant d1.1 ul 100|air 5 data 0 c000800061
expire d1.1 low poll|ok
grant d1.1 ul 100|air 6 data 0 c000800061
deliver 6|  up 1 1 ul 61|ok up 1
grant d1.1 dl 100|air 7 status 1 000100
deliver 7|  conf 1 1 ul 1|ok acks 1
expire d1.1 low poll|ok
grant d1.1 ul 100|air 8 data 1 c001800162
expire d1.1 low poll|ok
grant d1.1 ul 100|air 9 data 1 c001800162
expire d1.1 low poll|  maxretx d1.1 ul 1|ok
end|total 1 1 ul 2 1 1|total 1 1 dl 0 0 0|done";

// A STATUS counts once for each SDU that it names, where bytes of it weren't waiting to be sent again.
const RETX_COUNTED_BY_STATUS_PDUS: &str = "\
relayscript 1
set maxretx 1
remote 1
bearer 1 1 12 12
go
submit 1 1 ul 61|ok 0
submit 1 1 ul 62|ok 1
submit 1 1 ul 63|ok 2
submit 1 1 ul 64|ok 3
grant d1.1 ul 100|air 1 data 0 8000800061
grant d1.1 ul 100|air 2 data 1 8001800162
grant d1.1 ul 100|air 3 data 2 8002800263
grant d1.1 ul 100|air 4 data 3 c003800364
deliver 2|ok waiting
deliver 4|ok waiting
expire d1.1 high reasm|ok
expire d1.1 high reasm|ok
grant d1.1 dl 100|air 5 status 4 00048000080020
repeat 5|ok acks 2
repeat 5|ok acks 0
grant d1.1 ul 100|air 6 data 0 8000800061
repeat 5|  maxretx d1.1 ul 0|ok acks 0
grant d1.1 ul 100|air 7 data 0 8000800061
grant d1.1 ul 100|air 8 data 2 c002800263
repeat 5|  maxretx d1.1 ul 2|ok acks 0
repeat 5|ok acks 0
grant d1.1 ul 100|air 9 data 0 8000800061
grant d1.1 ul 100|air 10 data 2 c002800263
repeat 5|ok acks 0
deliver 9|  up 1 1 ul 61|  up 1 1 ul 62|ok up 2
deliver 10|  up 1 1 ul 63|  up 1 1 ul 64|ok up 2
expire d1.1 high prohibit|ok
grant d1.1 dl 100|air 11 status 4 000400
deliver 11|  conf 1 1 ul 4|ok acks 2
grant d1.1 ul 100|idle
deliver 5|ok acks 0
end|total 1 1 ul 4 4 4|total 1 1 dl 0 0 0|done";

// Marks of several SDUs come in order, before the SDUs that are confirmed.
const MARKS_IN_ORDER: &str = "\
relayscript 1
set maxretx 1
remote 1
bearer 1 1 12 12
go
submit 1 1 ul 61|ok 0
submit 1 1 ul 62|ok 1
submit 1 1 ul 63|ok 2
submit 1 1 ul 64|ok 3
grant d1.1 ul 100|air 1 data 0 8000800061
grant d1.1 ul 100|air 2 data 1 8001800162
grant d1.1 ul 100|air 3 data 2 8002800263
grant d1.1 ul 100|air 4 data 3 c003800364
deliver 4|ok waiting
expire d1.1 high reasm|ok
grant d1.1 dl 100|air 5 status 4 000480000203
deliver 5|ok acks 1
grant d1.1 ul 100|air 6 data 0 8000800061
grant d1.1 ul 100|air 7 data 1 8001800162
grant d1.1 ul 100|air 8 data 2 c002800263
deliver 6|  up 1 1 ul 61|ok up 1
expire d1.1 low poll|  maxretx d1.1 ul 0|ok
grant d1.1 ul 100|air 9 data 0 c000800061
deliver 9|ok repeat
expire d1.1 high prohibit|ok
grant d1.1 dl 100|air 10 status 4 000480001202
deliver 10|  maxretx d1.1 ul 1|  maxretx d1.1 ul 2|  conf 1 1 ul 1|ok acks 1
end|total 1 1 ul 4 1 1|total 1 1 dl 0 0 0|done";

#[test]
fn polls_by_their_settings(rt: HostRuntime) -> Result<(), Fail> {
    expect_sessions(
        &rt,
        rt.alloc(),
        &[POLLS_BY_PDUS, POLLS_BY_BYTES, A_STATUS_BEHIND_A_NEWER_ONE],
    )
}

#[test]
fn sdus_that_are_sent_too_often(rt: HostRuntime) -> Result<(), Fail> {
    expect_sessions(
        &rt,
        rt.alloc(),
        &[
            RETX_COUNTED_BY_EXPIRIES,
            RETX_COUNTED_BY_STATUS_PDUS,
            MARKS_IN_ORDER,
        ],
    )
}
