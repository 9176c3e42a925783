// Path switches at the relay.
use crate::rows::expect_rows;
use std::test::Fail;

// Remote 1 leaves: its SDU in the slot and the one in a Uu slot that leads to it are dropped, with one in its queue and one
// unconfirmed in its transmitter. What leads to remote 2 stays, and what waits for the gNB.
const LEAVES: &str = "\
hear p1.1 0 data 0 80008005800061|slot u1
push p1.1|u1
hear p1.1 0 data 1 80018005800062|slot u1
hear u1 0 data 0 80008005800063|slot p1.1
push u1|p1.1
pull p1.1|0
grant p1.1 100|0 data 0 c0008005800063
hear u1 0 data 1 80018005800064|slot p1.1
push u1|p1.1
hear u1 0 data 2 80028006800065|slot p2.1
push u1|p2.1
hear u1 0 data 3 80038005800066|slot p1.1
hear p2.1 0 data 0 80008006800067|slot u1
apply 1 direct 1|4
grant p1.1 100|no port
pull p1.1|no port
push p1.1|no port
expire p1.1 poll|no port
hear p1.1 0 data 2 80028005800068|gone
push u1|nothing
remote 5|none
remote 6|2
stands 5|queue u1
pull u1|0
stands 5|uu 1
push p2.1|u1
pull u1|1
pull u1|empty
pull p2.1|0
grant u1 100|0 data 0 80008005800061
hear u1 0 data 4 80048005800069|discard unknown-ue
grant u1 100|0 data 1 c0018006800067
hear u1 0 status 2 000200|acks 2 marks 0
stands 5|nowhere
is_empty|true
apply 1 direct 2|0";

// Remote 3 comes to the relay. Its port begins in the epoch of its plan.
const COMES: &str = "\
grant p3.1 100|no port
remote 7|none
apply 3 7 1|0
remote 7|3
grant p3.1 100|1 idle
hear p3.1 0 data 0 c0008007800061|gone
hear p3.1 1 data 0 c0008007800061|slot u1
grant p3.1 3|1 status 1 000100
push p3.1|u1
hear u1 0 data 0 80008007800062|slot p3.1
push u1|p3.1
pull p3.1|0
grant p3.1 100|1 data 0 c0008007800062
grant p1.1 100|0 idle
remote 5|1";

// Remote 1 is established again on the relay, under its identity and under another: its ports begin anew.
const AGAIN: &str = "\
hear p1.1 0 data 0 c0008005800061|slot u1
hear p1.2 0 data 0 c000008105800062|slot u2
apply 1 5 1|2
is_empty|true
remote 5|1
grant p1.1 100|1 idle
hear p1.1 0 data 1 c0018005800063|gone
hear p1.1 1 data 0 c0008005800064|slot u1
hear p1.2 1 data 0 c000008105800065|slot u2
stands 5|slot p1.1
apply 1 9 2|2
remote 5|none
remote 9|1
hear p1.1 2 data 0 c0008005800064|discard unknown-ue
hear p1.1 2 data 1 c0018009800066|slot u1
stands 9|slot p1.1
purge 1|1
remote 9|none
purge 1|0
apply 2 9 1|0
remote 9|2
apply 1 5 3|0
remote 5|1";

#[test]
fn switches(rt: HostRuntime) -> Result<(), Fail> {
    for rows in [LEAVES, COMES, AGAIN] {
        expect_rows(&rt, rt.alloc(), 64, rows)?;
    }
    Ok(())
}
