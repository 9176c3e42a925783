// Plans that are opened and applied.
ghost use Rattle.path_switch.specs.Plans.{HaveRows};

use bearer_map::{TableFault, Tables};
use link_base::{Chan, Goal, LocalId, Node, Place, PortName, Remote};
use path_switch::{Applied, ApplyFault, PlanFault, Plans};
use std::process::Abort;
use std::test::Fail;

const ONE: Remote = Remote(1);

const TWO: Remote = Remote(2);

const NOBODY: Remote = Remote(3);

const OVER_RELAY: Goal = Goal::Relay(LocalId(6));

const BUSY: Place = Place::Queue(PortName::Uu(Chan(1)));

// Remote 1 has a bearer without channels over the relay, and begins on its direct path; so does remote 2, whose bearer has
// channels.
fn declare(tables: &mut Tables) -> Result<(), TableFault> {
    tables.remote(1)?;
    tables.remote(2)?;
    tables.bearer(1, 1, 12, 12)?;
    tables.bearer(2, 1, 12, 12)?;
    tables.uu(1, 12)?;
    tables.pc5(2, 1, 12)?;
    tables.map(2, 1, 1, 1)
}

// Asks for a plan of a remote that hasn't had many.
fn plan(
    rt: &impl Abort,
    plans: &mut Plans,
    tables: &Tables,
    remote: Remote,
    goal: Goal,
    busy: Option<Place>,
) -> Result<u32, PlanFault>
    requires { HaveRows tables.now plans.old }
    ensures { HaveRows tables.now plans.new }
{
    if let Some(last) = plans.last(remote) {
        assert!(rt; last.epoch < 1_000);
    }
    plans.plan(tables, remote, goal, busy)
}

#[test]
fn each_node_applies_a_plan_once(rt: HostRuntime) -> Result<(), Fail> {
    let alloc = rt.alloc();
    let mut tables = Tables::new(alloc)?;
    assert_eq!(rt; declare(&mut tables), Ok(()));
    let mut plans = Plans::new(alloc, &tables)?;
    assert_eq!(rt; plans.apply(ONE, Node::Gnb), Err(ApplyFault::NoPlan));
    assert_eq!(rt;
        plan(&rt, &mut plans, &tables, ONE, Goal::Direct, None),
        Ok(1)
    );
    let first = Applied {
        goal: Goal::Direct,
        epoch: 1,
        last: false,
    };
    assert_eq!(rt; plans.apply(ONE, Node::Gnb), Ok(first));
    assert_eq!(rt; plans.apply(ONE, Node::Gnb), Err(ApplyFault::Already));
    assert_eq!(rt; plans.apply(TWO, Node::Gnb), Err(ApplyFault::NoPlan));
    assert_eq!(rt; plans.apply(NOBODY, Node::Gnb), Err(ApplyFault::NoRemote));
    assert_eq!(rt; plans.apply(ONE, Node::Remote), Ok(first));
    assert!(rt; plans.is_open(ONE));
    let last = Applied {
        last: true,
        ..first
    };
    assert_eq!(rt; plans.apply(ONE, Node::Relay), Ok(last));
    assert!(rt; !plans.is_open(ONE));
    assert_eq!(rt; plans.apply(ONE, Node::Remote), Err(ApplyFault::NoPlan));
    assert_eq!(rt;
        plan(&rt, &mut plans, &tables, ONE, Goal::Direct, None),
        Ok(2)
    );
    Ok(())
}

#[test]
fn plans_are_refused_in_order(rt: HostRuntime) -> Result<(), Fail> {
    let alloc = rt.alloc();
    let mut tables = Tables::new(alloc)?;
    assert_eq!(rt; declare(&mut tables), Ok(()));
    let mut plans = Plans::new(alloc, &tables)?;
    let refused = plan(&rt, &mut plans, &tables, NOBODY, OVER_RELAY, Some(BUSY));
    assert_eq!(rt; refused, Err(PlanFault::NoRemote));
    let refused = plan(&rt, &mut plans, &tables, ONE, OVER_RELAY, Some(BUSY));
    assert_eq!(rt; refused, Err(PlanFault::NoTable));
    let refused = plan(&rt, &mut plans, &tables, TWO, OVER_RELAY, Some(BUSY));
    assert_eq!(rt; refused, Err(PlanFault::IdBusy(BUSY)));
    assert_eq!(rt; plans.first_open(), None);
    assert_eq!(rt;
        plan(&rt, &mut plans, &tables, TWO, OVER_RELAY, None),
        Ok(1)
    );
    assert_eq!(rt; plans.first_open(), Some(TWO));
    assert_eq!(rt; plans.asks(LocalId(6)), Some(TWO));
    assert_eq!(rt; plans.asks(LocalId(5)), None);
    let refused = plan(&rt, &mut plans, &tables, TWO, OVER_RELAY, Some(BUSY));
    assert_eq!(rt; refused, Err(PlanFault::PlanOpen));
    assert_eq!(rt;
        plan(&rt, &mut plans, &tables, ONE, Goal::Direct, None),
        Ok(1)
    );
    assert_eq!(rt; plans.first_open(), Some(ONE));
    Ok(())
}
