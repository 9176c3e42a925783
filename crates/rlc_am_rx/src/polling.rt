// Polls that have not triggered a STATUS yet.
ghost use Rattle.std.specs.Prelude.{◌≡◌, ℕ, [], true, IfOk, OnOk, OnErr, Contains};
ghost use Rattle.std.specs.Bool.{MatchBool};
ghost use Rattle.std.specs.List.Sorted.{IsStrictlyIncreasing};
ghost use Rattle.rlc_am_rx.specs.Polling.{AddsIf, Drops, DropsOne, HasBelow, PopsBelow};

use link_base::Memory;
use std::alloc::Global;
use std::collections::BTreeSet;
use std::marker::Model;

/// The numbers of delayed polls (TS 38.322 clause 5.3.4).
#[derive(Drop)]
pub(crate) struct DelayedPolls {
    numbers: BTreeSet<u64>,
}

impl Model for DelayedPolls {
    ghost use Rattle.std.specs.Prelude.{List, ℕ};
    ghost use Rattle.std.specs.List.Sorted.{IsStrictlyIncreasing};

    ghost Value = { List ℕ };

    ghost view = { λ p. p.numbers.keys };

    ghost invariant = { λ p. IsStrictlyIncreasing p.numbers.keys };
}

impl DelayedPolls {
    /// No poll.
    pub(crate) fn new(alloc: Global) -> Self
        ensures { result ≡ [] }
    {
        DelayedPolls {
            numbers: BTreeSet::new(alloc),
        }
    }

    /// Delays the poll of a PDU of this number, where it has one, and answers whether the number is new.
    pub(crate) fn add_if(&mut self, poll: bool, number: u64) -> Result<bool, Memory>
        ensures adds { OnOk result (AddsIf self.old poll number self.new) }
        ensures fresh { IfOk result
            (λ fresh. MatchBool fresh (Contains self.old number → ⊥) (self.new ≡ self.old)) }
        ensures err { OnErr result ((poll ≡ true) × (self.new ≡ self.old)) }
        ensures rises { IsStrictlyIncreasing self.new × IsStrictlyIncreasing self.old }
    {
        if poll {
            Ok(self.numbers.insert(number)?)
        } else {
            Ok(false)
        }
    }

    /// Takes the poll of this number away, where it was added as a new one.
    pub(crate) fn take_back(&mut self, fresh: bool, number: u64)
        ensures back { MatchBool fresh (DropsOne self.old number self.new) (self.new ≡ self.old) }
        ensures rises { IsStrictlyIncreasing self.new }
    {
        if fresh {
            self.numbers.remove(&number);
        }
    }

    /// Takes the polls below `until` away, and answers whether there was one.
    pub(crate) fn take_below(&mut self, until: u64) -> bool
        ensures drops { Drops self.old until self.new }
        ensures some { MatchBool result (HasBelow self.old until) (HasBelow self.old until → ⊥) }
        ensures rises { IsStrictlyIncreasing self.new }
    {
        let mut some = false;
        while self.pop_below(until) {
            some = true;
        }
        some
    }

    // Takes the lowest poll away where it is below `until`, and answers whether it is.
    fn pop_below(&mut self, until: u64) -> bool
        ensures pops { MatchBool result (PopsBelow self.old until self.new)
            ((self.new ≡ self.old) × (HasBelow self.old until → ⊥)) }
        ensures rises { IsStrictlyIncreasing self.new }
    {
        match self.numbers.first() {
            Some(first) if *first < until => {}
            _ => return false,
        }
        self.numbers.pop_first();
        true
    }
}
