// Sets of places.
ghost use Rattle.std.specs.Prelude.{◌≡◌, ◌↔◌, ◌+◌, ◌-◌, ◌<◌, ◌≤◌, IsOkAnd, IfOk, OnOk, OnErr, IfSome, IfNone, IsTrue, length};
ghost use Rattle.std.specs.Bool.{MatchBool};
ghost use Rattle.std.specs.List.{remove_range, replace_range};
ghost use Rattle.link_base.specs.declared.limits.TheConstants.{LONGEST_RLC_SDU};
ghost use Rattle.byte_spans.specs.Spans.{HasAll, LacksOne, IsEmpty, Adds, Removes, HasOnly, IsFirstRun, IsFirstGap, IsEnd, SamePlacesSameSet, IsApart, SplitsRun, HasTwoRuns};

use crate::ranges::{Range, cut, first_lacked, join, next_gap};
use link_base::Memory;
use smallvec::SmallVec;
use std::alloc::Global;
use std::marker::Model;

/// A set of places below [`LONGEST_RLC_SDU`](link_base::LONGEST_RLC_SDU), counted from 0.
///
/// It keeps its maximal runs of places as ranges, the first of them with no memory beyond the set's own.
#[derive(Debug, Drop)]
pub struct Spans {
    ranges: SmallVec<Range, 1>,
}

impl Model for Spans {
    ghost use Rattle.std.specs.Prelude.{◌≤◌, List, Bool};
    ghost use Rattle.byte_spans.specs.Ranges.{AreRanges, flags_of};

    ghost Value = { List Bool };

    ghost view = { λ s. flags_of s.ranges.items };

    ghost invariant = { λ s. AreRanges s.ranges.items × (1 ≤ s.ranges.capacity) };
}

impl Spans {
    /// The empty set, with room for one run of places.
    pub fn new(alloc: Global) -> Result<Self, Memory>
        ensures { IsOkAnd result IsEmpty }
    {
        Ok(Spans {
            ranges: SmallVec::new(alloc),
        })
    }

    /// Adds the places from `from` up to but without `to`, and answers whether one of them was new.
    ///
    /// It may want memory only where they become one run more. After an `Err` the set is as it was.
    pub fn add(&mut self, from: u32, to: u32) -> Result<bool, Memory>
        requires some { from < to }
        requires within { to ≤ LONGEST_RLC_SDU }
        ensures adds { OnOk result (Adds self.old self.new from to) }
        ensures fresh { IfOk result
            (λ fresh. MatchBool fresh (LacksOne self.old from to) (HasAll self.old from to)) }
        ensures err { OnErr result (self.new ≡ self.old) }
        ensures grows { OnErr result (IsApart self.old from to) }
    {
        if self.covers(from, to) {
            return Ok(false);
        }
        let added = Range {
            start: from,
            end: to,
        };
        let joined = join(self.ranges.as_slice(), added);
        replace(&mut self.ranges, joined.first, joined.stop, &[joined.range])?;
        Ok(true)
    }

    /// Makes the set the places from `from` up to but without `to`. It takes no memory.
    pub fn only(&mut self, from: u32, to: u32)
        requires some { from < to }
        requires within { to ≤ LONGEST_RLC_SDU }
        ensures { HasOnly self.new from to }
    {
        self.ranges.clear();
        self.ranges.push_reserved(Range {
            start: from,
            end: to,
        });
    }

    /// Removes the places from `from` up to but without `to`.
    ///
    /// It may want memory only where that makes two runs of one. After an `Err` the set is as it was.
    pub fn remove(&mut self, from: u32, to: u32) -> Result<(), Memory>
        requires some { from < to }
        requires within { to ≤ LONGEST_RLC_SDU }
        ensures removes { OnOk result (Removes self.old self.new from to) }
        ensures err { OnErr result (self.new ≡ self.old) }
        ensures grows { OnErr result (SplitsRun self.old from to) }
    {
        let cut = cut(self.ranges.as_slice(), from, to);
        let parts = [cut.front, cut.back];
        let kept = &parts[usize::from(cut.front.is_empty())..2 - usize::from(cut.back.is_empty())];
        replace(&mut self.ranges, cut.first, cut.stop, kept)?;
        Ok(())
    }

    /// An equal set, with room for one run of places at least. It may want memory only for more than one.
    pub fn copy(&self) -> Result<Self, Memory>
        ensures same { IfOk result (λ copy. copy ≡ self.now) }
        ensures grows { OnErr result (HasTwoRuns self.now) }
    {
        let mut ranges = SmallVec::new(*self.ranges.allocator());
        ranges.extend_from_slice(self.ranges.as_slice())?;
        Ok(Spans { ranges })
    }

    /// Whether the set has each place from `from` up to but without `to`.
    pub fn covers(&self, from: u32, to: u32) -> bool
        ensures { MatchBool result (HasAll self.now from to) (LacksOne self.now from to) }
    {
        to <= from || to <= first_lacked(self.ranges.as_slice(), from).0
    }

    /// The first maximal run of places that the set lacks from `from` up to but without `until`, as its first place
    /// and the place behind its last. None where it lacks none of these.
    pub fn next_gap(&self, from: u32, until: u32) -> Option<(u32, u32)>
        ensures gap { IfSome result (λ gap. IsFirstGap self.now from until gap.0 gap.1) }
        ensures none { IfNone result (HasAll self.now from until) }
    {
        next_gap(self.ranges.as_slice(), from, until)
    }

    /// The first maximal run of places, as its first place and the place behind its last. None where the set is
    /// empty.
    pub fn first(&self) -> Option<(u32, u32)>
        ensures run { IfSome result (λ run. IsFirstRun self.now run.0 run.1) }
        ensures none { IfNone result (IsEmpty self.now) }
    {
        let first = self.ranges.as_slice().first()?;
        Some((first.start, first.end))
    }

    /// One more than the greatest place, or 0 where the set is empty.
    pub fn end(&self) -> u32
        ensures { IsEnd self.now result }
    {
        match self.ranges.as_slice().last() {
            Some(last) => last.end,
            None => 0,
        }
    }

    /// Whether the set has no place.
    pub fn is_empty(&self) -> bool
        ensures { IsTrue result ↔ IsEmpty self.now }
    {
        self.ranges.is_empty()
    }
}

// Writes ranges over as many others, from the index `at` on.
fn put(ranges: &mut SmallVec<Range, 1>, at: usize, with: &[Range])
    requires { at + length with.now ≤ length ranges.old.items }
    ensures items { ranges.new.items
        ≡ replace_range ranges.old.items at (at + length with.now) with.now }
    ensures room { ranges.new.capacity ≡ ranges.old.capacity }
{
    ranges.as_mut_slice()[at..at + with.len()].copy_from_slice(with);
}

// Takes out the ranges from `first` up to but without `stop`.
fn take_out(ranges: &mut SmallVec<Range, 1>, first: usize, stop: usize)
    requires order { first ≤ stop }
    requires within { stop ≤ length ranges.old.items }
    ensures items { ranges.new.items ≡ remove_range ranges.old.items first stop }
    ensures room { ranges.new.capacity ≡ ranges.old.capacity }
{
    if first < stop {
        drop(ranges.drain(first..stop));
    }
}

// Puts ranges in the place of those from `first` up to but without `stop`: no more than these, or one more.
fn replace(
    ranges: &mut SmallVec<Range, 1>,
    first: usize,
    stop: usize,
    with: &[Range],
) -> Result<(), Memory>
    requires order { first ≤ stop }
    requires within { stop ≤ length ranges.old.items }
    requires few { length with.now ≤ stop - first + 1 }
    ensures ok { OnOk result (ranges.new.items
        ≡ replace_range ranges.old.items first stop with.now) }
    ensures room { ranges.old.capacity ≤ ranges.new.capacity }
    ensures err { OnErr result (ranges.new ≡ ranges.old) }
    ensures grows { OnErr result (stop - first < length with.now) }
    ensures full { OnErr result (ranges.old.capacity ≤ length ranges.old.items) }
{
    if stop - first < with.len() {
        let last = with.len() - 1;
        ranges.insert(stop, with[last])?;
        put(ranges, first, &with[..last]);
    } else {
        put(ranges, first, with);
        take_out(ranges, first + with.len(), stop);
    }
    Ok(())
}

/// A law: two sets with the same places are equal.
pub fn same_places_same_set()
    ensures { SamePlacesSameSet }
{}
