// Table lines in the orders that are taken and those that are refused.
use super::{check_rows, stage_behind, verdict};
use bearer_map::{RemoteRow, UuRow};
use link_base::{Chan, Goal, LocalId, Remote, SnSize};
use std::test::Fail;

const IN_ORDER: &str = "\
ok|set queue 1
twice|set queue 1
unknown|bearer 1 1 12 12
unknown|pc5 1 1 12
unknown|map 1 1 1 1
unknown|start 1 1 ul 0
unknown|path 1 direct
ok|remote 1
twice|remote 1
unknown|map 1 1 1 1
unknown|start 1 1 ul 0
ok|bearer 1 1 12 12
twice|bearer 1 1 18 18
unknown|map 1 1 1 1
ok|pc5 1 1 12
twice|pc5 1 1 12
unknown|map 1 1 1 1
ok|path 1 relay 5
twice|path 1 direct
twice|path 2 relay 5
unknown|path 2 relay 6
map|go
ok|uu 1 18
twice|uu 1 18
unknown|map 1 1 2 1
unknown|map 1 1 1 2
ok|map 1 1 1 1
twice|map 1 1 2 2
ok|start 1 1 ul 7
twice|start 1 1 ul 7
ok|start 1 1 dl 7
ok|go
word|go";

#[test]
fn takes_a_name_once_and_before_its_use(rt: HostRuntime) -> Result<(), Fail> {
    let alloc = rt.alloc();
    let mut stage = stage_behind(alloc, "relayscript 1")?;
    check_rows(&rt, alloc, &mut stage, IN_ORDER);
    let Some(tables) = stage.take_tables() else {
        panic!(rt; "no tables behind go");
    };
    let remote = RemoteRow {
        remote: Remote(1),
        goal: Goal::Relay(LocalId(5)),
    };
    assert_eq!(rt; tables.remotes(), [remote].as_slice());
    let uu = UuRow {
        chan: Chan(1),
        size: SnSize::S18,
    };
    assert_eq!(rt; tables.uus(), [uu].as_slice());
    assert!(rt; stage.take_tables().is_none());
    assert_eq!(rt; verdict(alloc, &mut stage, b"drain"), "ok");
    Ok(())
}

const OF_TWO_REMOTES: &str = "\
ok|uu 1 12
ok|remote 1
ok|remote 2
ok|bearer 2 1 12 12
ok|pc5 1 1 12
unknown|map 1 1 1 1
unknown|map 2 1 1 1
unknown|start 1 1 ul 0
ok|bearer 1 1 12 12
ok|map 1 1 1 1
ok|pc5 2 1 18
ok|map 2 1 1 1
ok|path 1 relay 5
twice|path 2 relay 5
ok|path 2 relay 6
twice|path 2 direct
ok|start 2 1 ul 0
ok|start 1 1 ul 0
ok|go";

const WITHOUT_MAP_ROWS: &str = "\
ok|remote 3
ok|remote 2
ok|remote 1
ok|bearer 1 1 12 12
ok|bearer 1 2 12 12
ok|bearer 2 1 12 12
ok|path 3 relay 0
ok|path 1 relay 1
map|go
ok|uu 1 12
ok|pc5 1 1 12
ok|map 1 1 1 1
map|go
ok|map 1 2 1 1
ok|go";

#[test]
fn wants_the_names_of_the_remote_itself(rt: HostRuntime) -> Result<(), Fail> {
    let alloc = rt.alloc();
    let mut stage = stage_behind(alloc, "relayscript 1")?;
    check_rows(&rt, alloc, &mut stage, OF_TWO_REMOTES);
    let mut stage = stage_behind(alloc, "relayscript 1")?;
    check_rows(&rt, alloc, &mut stage, WITHOUT_MAP_ROWS);
    Ok(())
}

const EIGHT_OF_EACH: &str = "\
ok|remote 1
ok|remote 2
ok|remote 3
ok|remote 4
ok|remote 5
ok|remote 6
ok|remote 7
ok|remote 8
ok|bearer 1 1 12 12
ok|bearer 1 2 12 12
ok|bearer 1 3 12 12
ok|bearer 1 4 12 12
ok|bearer 1 5 12 12
ok|bearer 1 6 12 12
ok|bearer 1 7 12 12
ok|bearer 1 8 12 12
limit|remote 9
twice|remote 8
range|remote 65536
limit|bearer 1 9 12 12
twice|bearer 1 8 12 12
range|bearer 1 33 12 12
unknown|bearer 9 1 12 12
ok|bearer 2 9 12 12
ok|go";

#[test]
fn takes_eight_remotes_and_eight_bearers(rt: HostRuntime) -> Result<(), Fail> {
    let alloc = rt.alloc();
    let mut stage = stage_behind(alloc, "relayscript 1")?;
    assert!(rt; stage.take_tables().is_none());
    check_rows(&rt, alloc, &mut stage, EIGHT_OF_EACH);
    Ok(())
}
