// One plan, and its place among all.
ghost use Rattle.std.specs.Prelude.{◌≡◌, ◌+◌, ◌<◌, ◌^◌, None, IfOk, IfSome, IfNone, map};
ghost use Rattle.std.specs.List.{position};
ghost use Rattle.node_model.specs.Names.{is_remote};
ghost use Rattle.node_model.specs.Rows.{AreOrdered};
ghost use Rattle.chain_model.specs.State.{first_plan};
ghost use Rattle.chain_model.specs.Plans.{asks_for, has_applied, is_open, marks, next_plan};
ghost use Rattle.path_switch.specs.Plans.{is_before, plan_of, IsPlace};

use bearer_map::RemoteRow;
use chain_model::Plan;
use link_base::{Goal, LocalId, Memory, Node, Remote};
use std::alloc::Global;

/// The place of the plan of a remote; None where it has no row.
pub(crate) fn place_of(rows: &[Plan], remote: Remote) -> Option<usize>
    requires { AreOrdered is_before rows.now }
    ensures found { IfSome result (IsPlace rows.now remote) }
    ensures none { IfNone result (plan_of rows.now remote ≡ None) }
{
    first_of(rows, remote)
}

// The place of the first plan of a remote.
fn first_of(rows: &[Plan], remote: Remote) -> Option<usize>
    ensures { result ≡ position (λ row. is_remote remote row.remote) rows.now }
{
    rows.iter().position(|row| remote.0 == row.remote.0)
}

/// The paths of remotes at the start.
pub(crate) fn first_plans(alloc: Global, remotes: &[RemoteRow]) -> Result<Vec<Plan>, Memory>
    ensures { IfOk result (λ rows. rows.items ≡ map first_plan remotes.now) }
{
    let rows = remotes.iter().copied().map(first_plan).collect(alloc)?;
    Ok(rows)
}

// The path of a remote at the start, as a plan that all nodes have applied.
fn first_plan(row: RemoteRow) -> Plan
    ensures { result ≡ first_plan row }
{
    Plan {
        remote: row.remote,
        goal: row.goal,
        epoch: 0,
        at_remote: true,
        at_relay: true,
        at_gnb: true,
    }
}

/// The plan behind this one, which no node has applied.
pub(crate) fn next_plan(row: Plan, goal: Goal) -> Plan
    requires { row.epoch + 1 < 2 ^ 32 }
    ensures { result ≡ next_plan row goal }
{
    Plan {
        remote: row.remote,
        goal,
        epoch: row.epoch + 1,
        at_remote: false,
        at_relay: false,
        at_gnb: false,
    }
}

/// Whether a node hasn't applied it yet.
pub(crate) fn is_open(row: Plan) -> bool
    ensures { result ≡ is_open row }
{
    !(row.at_remote && row.at_relay && row.at_gnb)
}

/// Whether a node of this kind has applied it.
pub(crate) fn has_applied(row: Plan, node: Node) -> bool
    ensures { result ≡ has_applied row node }
{
    match node {
        Node::Remote => row.at_remote,
        Node::Relay => row.at_relay,
        Node::Gnb => row.at_gnb,
    }
}

/// The plan once a node of this kind has applied it.
pub(crate) fn marks(row: Plan, node: Node) -> Plan
    ensures { result ≡ marks row node }
{
    match node {
        Node::Remote => Plan {
            at_remote: true,
            ..row
        },
        Node::Relay => Plan {
            at_relay: true,
            ..row
        },
        Node::Gnb => Plan {
            at_gnb: true,
            ..row
        },
    }
}

/// Whether the goal is the relay with this local identity.
pub(crate) fn asks_for(id: LocalId, goal: Goal) -> bool
    ensures { result ≡ asks_for id goal }
{
    match goal {
        Goal::Direct => false,
        Goal::Relay(other) => id.0 == other.0,
    }
}
