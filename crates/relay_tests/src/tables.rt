// The tables of the tests.
use bearer_map::{SetName, TableFault, Tables};
use link_base::{Goal, LocalId};
use std::alloc::Global;
use std::process::Abort;
use std::test::Fail;

/// Tables of a relay whose queues hold so many SDUs.
pub(crate) fn tables_with(rt: &impl Abort, alloc: Global, queue: u32) -> Result<Tables, Fail> {
    let mut tables = Tables::new(alloc)?;
    if declare(&mut tables, queue).is_err() {
        panic!(rt; "the tables are refused");
    }
    Ok(tables)
}

// Remotes 1 and 2 begin on the relay, remote 3 on its direct path.
fn declare(tables: &mut Tables, queue: u32) -> Result<(), TableFault> {
    tables.set(SetName::Queue, queue)?;
    for remote in 1..4 {
        tables.remote(remote)?;
        tables.bearer(remote, 1, 12, 12)?;
        tables.pc5(remote, 1, 12)?;
    }
    tables.bearer(1, 2, 18, 18)?;
    tables.pc5(1, 2, 18)?;
    tables.uu(1, 12)?;
    tables.uu(2, 18)?;
    for remote in 1..4 {
        tables.map(remote, 1, 1, 1)?;
    }
    tables.map(1, 2, 2, 2)?;
    tables.path(1, Goal::Relay(LocalId(5)))?;
    tables.path(2, Goal::Relay(LocalId(6)))
}
