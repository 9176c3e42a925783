// The queue of an egress.
ghost use Rattle.std.specs.Prelude.{◌≡◌, ◌<◌, ◌≤◌, ◌==◌, [], ◌∷◌, ◌++◌, length, nat_le, OnOk, IfOk, IfErr, IfSome, IfNone};
ghost use Rattle.std.specs.List.{list_any};
ghost use Rattle.relay_core.specs.Standing.{bears};

use crate::standing::bears;
use link_base::{LocalId, Memory};
use node_model::Parcel;
use std::alloc::Global;
use std::collections::VecDeque;
use std::marker::Model;

/// SDUs that wait to be given to the transmitter of their egress, the oldest first, and at most as many as the queue's
/// capacity. Its room is taken when it is made, so no later call on it takes memory.
#[derive(Drop)]
pub struct ParcelQueue {
    parcels: VecDeque<Parcel>,
    capacity: usize,
}

impl Model for ParcelQueue {
    ghost use Rattle.std.specs.Prelude.{◌≤◌, length};
    ghost use Rattle.std.specs.VecDeque.{deque_capacity};
    ghost use Rattle.relay_core.specs.Queue.{Queue};

    ghost Value = { Queue };

    ghost view = { λ q. record { parcels = q.parcels.items; capacity = q.capacity } };

    ghost invariant = { λ q. (length q.parcels.items ≤ q.capacity) × (q.capacity ≤ deque_capacity q.parcels) };
}

impl ParcelQueue {
    /// An empty queue with room for this many.
    pub fn new(alloc: Global, capacity: u32) -> Result<Self, Memory>
        ensures { IfOk result (λ queue. queue ≡ record { parcels = []; capacity = capacity }) }
    {
        let capacity = capacity as usize;
        Ok(ParcelQueue {
            parcels: VecDeque::with_capacity(alloc, capacity)?,
            capacity,
        })
    }

    /// Puts an SDU at the back. It comes back exactly where the queue holds its capacity, and nothing changed then.
    pub fn push(&mut self, item: Parcel) -> Result<(), Parcel>
        ensures ok { OnOk result ((length self.old.parcels < self.old.capacity)
            × (self.new ≡ record self.old { parcels = self.old.parcels ++ item ∷ [] })) }
        ensures full { IfErr result (λ back. (self.old.capacity ≤ length self.old.parcels)
            × (back ≡ item) × (self.new ≡ self.old)) }
    {
        if self.is_full() {
            return Err(item);
        }
        self.parcels.push_back_reserved(item);
        Ok(())
    }

    /// Takes the SDU at the front, or None exactly where the queue is empty.
    pub fn pop(&mut self) -> Option<Parcel>
        ensures front { IfSome result (λ parcel. self.old.parcels ≡ parcel ∷ self.new.parcels) }
        ensures room { IfSome result (λ parcel. length self.new.parcels < self.new.capacity) }
        ensures none { IfNone result ((self.old.parcels ≡ []) × (self.new ≡ self.old)) }
        ensures capacity { self.new.capacity ≡ self.old.capacity }
    {
        self.parcels.pop_front()
    }

    /// Puts an SDU back at the front from which it was taken.
    pub(crate) fn put_back(&mut self, item: Parcel)
        requires { length self.old.parcels < self.old.capacity }
        ensures { self.new ≡ record self.old { parcels = item ∷ self.old.parcels } }
    {
        self.parcels.push_front_reserved(item);
    }

    /// Drops all SDUs, and tells how many. The room stays.
    pub(crate) fn clear(&mut self) -> u64
        ensures empties { self.new ≡ record self.old { parcels = [] } }
        ensures dropped { result ≡ length self.old.parcels }
    {
        let waiting = self.parcels.len() as u64;
        self.parcels.clear();
        waiting
    }

    /// Whether an SDU that waits bears a local identity.
    pub(crate) fn bears(&self, id: LocalId) -> bool
        ensures { result ≡ list_any (bears id) self.now.parcels }
    {
        self.parcels.iter().any(|parcel| bears(parcel, id))
    }

    /// How many SDUs wait.
    pub fn len(&self) -> u64
        ensures { result ≡ length self.now.parcels }
    {
        self.parcels.len() as u64
    }

    /// Whether no SDU waits.
    pub fn is_empty(&self) -> bool
        ensures { result ≡ (length self.now.parcels == 0) }
    {
        self.parcels.is_empty()
    }

    /// Whether the queue holds its capacity.
    pub fn is_full(&self) -> bool
        ensures { result ≡ nat_le self.now.capacity (length self.now.parcels) }
    {
        self.parcels.len() >= self.capacity
    }

    /// How many SDUs may wait.
    pub fn capacity(&self) -> u64
        ensures { result ≡ self.now.capacity }
    {
        self.capacity as u64
    }
}
