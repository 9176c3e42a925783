// The relay applies a plan of a remote.
ghost use Rattle.std.specs.Prelude.{◌≡◌, ◌≢◌, ℕ, IfOk, OnOk, OnErr};
ghost use Rattle.link_base.specs.declared.names.Goal.TheVariants.{Direct, Relay as ToRelay};
ghost use Rattle.node_model.specs.Standing.{IsFreeFor};
ghost use Rattle.node_model.specs.Tables.{settings};
ghost use Rattle.node_model.specs.Switching.{node_after, dropped};
ghost use Rattle.relay_core.specs.Relay.{IsRelayNode};
ghost use Rattle.relay_core.specs.Switching.{fitting, IsPurged};

use crate::Relay;
use crate::entering::{entering_receivers, entering_transmitters, open_egresses, open_ingresses};
use crate::purging::{purge_egresses, purge_ingresses};
use link_base::{Goal, LocalId, Memory, Remote};

impl Relay {
    /// Applies a plan of a remote (TS 38.300 clause 16.12.6): what the relay holds for the remote's path is dropped, as by
    /// `purge`. Where the goal is the relay path, the remote's PC5 ports are then open, have sent and heard nothing and stand
    /// in this epoch, and its local identity is the one of the goal, which no other remote may have here.
    ///
    /// It tells how many SDUs were dropped, up to 2^64 - 1. An `Err` is want of memory. It comes only where the goal is the
    /// relay path, and all is then as it was.
    pub fn apply(&mut self, remote: Remote, goal: Goal, epoch: u32) -> Result<u64, Memory>
        requires { IsFreeFor self.old.node.attached remote goal }
        ensures ok { OnOk result (self.new.node
            ≡ node_after (settings self.old.tables) remote goal epoch self.old.node) }
        ensures dropped { IfOk result (λ count. count ≡ fitting (dropped remote self.old.node)) }
        ensures tables { self.new.tables ≡ self.old.tables }
        ensures relay { IsRelayNode self.new.node }
        ensures err { OnErr result (self.new ≡ self.old) }
        ensures memory { OnErr result (goal ≢ Direct) }
    {
        match goal {
            Goal::Direct => Ok(self.purge(remote)),
            Goal::Relay(id) => self.enter(remote, id, epoch),
        }
    }

    /// Drops all that the relay holds for the path of a remote: the RLC entities of its PC5 ports, the SDUs in the slots and in
    /// the queues of these ports, and those in slots of Uu ports that lead to the remote. Uu queues and Uu entities stay. The
    /// remote is attached no more (TS 38.300 clause 16.12.6, TS 38.322 clause 5.1.3). It takes no memory.
    ///
    /// It tells how many SDUs were dropped, those among them that an entity had sent and that weren't confirmed, up to 2^64 - 1.
    pub fn purge(&mut self, remote: Remote) -> u64
        ensures purges { (epoch : ℕ) → self.new.node ≡ node_after (settings self.old.tables) remote
            Direct epoch self.old.node }
        ensures dropped { result ≡ fitting (dropped remote self.old.node) }
        ensures purged { IsPurged self.new.tables remote self.new.node }
        ensures tables { self.new.tables ≡ self.old.tables }
        ensures relay { IsRelayNode self.new.node }
    {
        self.ids.detach(remote);
        let in_slots = purge_ingresses(&mut self.ingress, remote);
        let in_queues = purge_egresses(&mut self.egress, remote);
        in_slots.saturating_add(in_queues)
    }

    // Purges the remote, opens its PC5 ports in this epoch, and attaches it. What takes memory comes first.
    fn enter(&mut self, remote: Remote, id: LocalId, epoch: u32) -> Result<u64, Memory>
        requires { IsFreeFor self.old.node.attached remote (ToRelay id) }
        ensures ok { OnOk result (self.new.node
            ≡ node_after (settings self.old.tables) remote (ToRelay id) epoch self.old.node) }
        ensures dropped { IfOk result (λ count. count ≡ fitting (dropped remote self.old.node)) }
        ensures tables { self.new.tables ≡ self.old.tables }
        ensures relay { IsRelayNode self.new.node }
        ensures err { OnErr result (self.new ≡ self.old) }
    {
        let mut ids = self.ids.copy(self.alloc)?;
        ids.detach(remote);
        ids.attach(remote, id)?;
        let settings = self.tables.settings();
        let mut receivers = entering_receivers(self.alloc, &self.ingress, remote)?;
        let mut transmitters = entering_transmitters(self.alloc, settings, &self.ingress, remote)?;
        let dropped = self.purge(remote);
        open_ingresses(&mut self.ingress, &mut receivers, epoch);
        open_egresses(&mut self.egress, &mut transmitters);
        self.ids = ids;
        Ok(dropped)
    }
}
