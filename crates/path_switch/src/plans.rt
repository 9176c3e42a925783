// The plans of all remotes.
ghost use Rattle.std.specs.Prelude.{◌≡◌, ◌+◌, ◌<◌, ◌^◌, IfOk, Some, find, map, option_map};
ghost use Rattle.chain_model.specs.declared.plan.Plan.{Plan as APlan};
ghost use Rattle.chain_model.specs.State.{first_plan};
ghost use Rattle.chain_model.specs.Plans.{is_open, plan_asks};
ghost use Rattle.path_switch.specs.Plans.{Applies, HaveRows, Opens, has_open, plan_of, plan_remote};

use crate::paths::has_path;
use crate::rows::{asks_for, first_plans, has_applied, is_open, marks, next_plan, place_of};
use crate::{Applied, ApplyFault, PlanFault};
use bearer_map::Tables;
use chain_model::Plan;
use link_base::{Goal, LocalId, Memory, Node, Place, Remote};
use std::alloc::Global;
use std::marker::Model;

/// The last plan of each remote. Contracts see them as a list, in ascending order of remotes.
///
/// No call but `new` takes memory.
#[derive(Debug, Drop)]
pub struct Plans {
    rows: Vec<Plan>,
}

impl Model for Plans {
    ghost use Rattle.std.specs.Prelude.{List};
    ghost use Rattle.chain_model.specs.declared.plan.Plan.{Plan};
    ghost use Rattle.node_model.specs.Rows.{AreOrdered};
    ghost use Rattle.path_switch.specs.Plans.{is_before};

    ghost Value = { List Plan };

    ghost view = { λ plans. plans.rows.items };

    ghost invariant = { λ plans. AreOrdered is_before plans.rows.items };
}

impl Plans {
    ghost use Rattle.node_model.specs.Rows.{AreOrdered};
    ghost use Rattle.path_switch.specs.Plans.{is_before};

    /// The plans right behind the tables: each remote is on its path at the start, in epoch 0.
    pub fn new(alloc: Global, tables: &Tables) -> Result<Self, Memory>
        ensures plans { IfOk result (λ plans. plans ≡ map first_plan tables.now.remotes) }
        ensures rows { IfOk result (HaveRows tables.now) }
    {
        Ok(Plans {
            rows: first_plans(alloc, tables.remotes())?,
        })
    }

    /// Opens the next plan of a remote, and answers its epoch, which is one more than that of the last one. It needs tables
    /// with the remotes of those that `new` was given, and an epoch of the remote below 2^32 - 1. `busy` is the first place
    /// at which the local identity that the goal asks for is in use, if there is one.
    ///
    /// An `Err` tells the first reason that holds, of `NoRemote`, `PlanOpen`, `NoTable` and `IdBusy`, which comes with the
    /// place. All is then as it was.
    pub fn plan(
        &mut self,
        tables: &Tables,
        remote: Remote,
        goal: Goal,
        busy: Option<Place>,
    ) -> Result<u32, PlanFault>
        requires rows { HaveRows tables.now self.old }
        requires epochs { (last : APlan) → plan_of self.old remote ≡ Some last
            → last.epoch + 1 < 2 ^ 32 }
        ensures opens { Opens tables.now self.old remote goal busy result self.new }
        ensures rows { map plan_remote self.new ≡ map plan_remote self.old }
    {
        let Some(place) = place_of(&self.rows, remote) else {
            return Err(PlanFault::NoRemote);
        };
        let last = self.rows[place];
        if is_open(last) {
            return Err(PlanFault::PlanOpen);
        }
        if !has_path(tables, remote, goal) {
            return Err(PlanFault::NoTable);
        }
        if let Some(place) = busy {
            return Err(PlanFault::IdBusy(place));
        }
        let next = next_plan(last, goal);
        self.rows[place] = next;
        Ok(next.epoch)
    }

    /// A node of this kind applies the open plan of a remote, and learns what it asks for. With the third node the plan is
    /// closed.
    ///
    /// An `Err` tells the first reason that holds, of `NoRemote`, `NoPlan` and `Already`. All is then as it was.
    pub fn apply(&mut self, remote: Remote, node: Node) -> Result<Applied, ApplyFault>
        ensures applies { Applies self.old remote node result self.new }
        ensures rows { map plan_remote self.new ≡ map plan_remote self.old }
    {
        let Some(place) = place_of(&self.rows, remote) else {
            return Err(ApplyFault::NoRemote);
        };
        let last = self.rows[place];
        if !is_open(last) {
            return Err(ApplyFault::NoPlan);
        }
        if has_applied(last, node) {
            return Err(ApplyFault::Already);
        }
        let marked = marks(last, node);
        self.rows[place] = marked;
        Ok(Applied {
            goal: marked.goal,
            epoch: marked.epoch,
            last: !is_open(marked),
        })
    }

    /// The lowest remote with an open plan, or None where no plan is open.
    pub fn first_open(&self) -> Option<Remote>
        ensures first { result ≡ option_map plan_remote (find is_open self.now) }
        ensures order { AreOrdered is_before self.now }
    {
        self.rows
            .iter()
            .find(|row| is_open(**row))
            .map(|row| row.remote)
    }

    /// The last plan of a remote, open or not; None where there is no such remote.
    pub fn last(&self, remote: Remote) -> Option<Plan>
        ensures { result ≡ plan_of self.now remote }
    {
        let Some(place) = place_of(&self.rows, remote) else {
            return None;
        };
        Some(self.rows[place])
    }

    /// Whether a plan of a remote is open.
    pub fn is_open(&self, remote: Remote) -> bool
        ensures { result ≡ has_open (plan_of self.now remote) }
    {
        match self.last(remote) {
            Some(last) => is_open(last),
            None => false,
        }
    }

    /// The lowest remote with an open plan that asks for the relay with this local identity, or None where no open plan
    /// does.
    pub fn asks(&self, id: LocalId) -> Option<Remote>
        ensures first { result ≡ option_map plan_remote
            (find (λ row. plan_asks id (Some row)) self.now) }
        ensures order { AreOrdered is_before self.now }
    {
        self.rows
            .iter()
            .find(|row| is_open(**row) && asks_for(id, row.goal))
            .map(|row| row.remote)
    }
}
