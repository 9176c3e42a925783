// Ranges of places, in order.
ghost use Rattle.std.specs.Prelude.{◌≡◌, ◌↔◌, ℕ, ◌+◌, ◌-◌, ◌<◌, ◌≤◌, ◌∷◌, ◌++◌, length, take, drop, IfSome, IfNone, IsTrue};
ghost use Rattle.link_base.specs.declared.limits.TheConstants.{LONGEST_RLC_SDU};
ghost use Rattle.byte_spans.specs.Spans.{has, HasAll, Lacks, LacksAll, IsFirstGap, SplitsRun};
ghost use Rattle.byte_spans.specs.Ranges.{in_one, AreApart, AreRanges, flags_of, number_ended, joined_with, below, above, parts_left};

/// The places from `start` up to but without `end`.
#[derive(Clone, Copy, Debug, Default)]
pub(crate) struct Range {
    pub(crate) start: u32,
    pub(crate) end: u32,
}

impl Range {
    pub(crate) fn is_empty(&self) -> bool
        ensures { IsTrue result ↔ (self.now.end ≤ self.now.start) }
    {
        self.end <= self.start
    }
}

const EMPTY: Range = Range { start: 0, end: 0 };

/// How many ranges end at `place` or before it. Where all do, or all but the last, it takes no search, since bytes
/// mostly come in order.
fn ended_by(ranges: &[Range], place: u32) -> usize
    requires { AreRanges ranges.now }
    ensures { result ≡ number_ended ranges.now place }
{
    let count = ranges.len();
    if count == 0 || ranges[count - 1].end <= place {
        return count;
    }
    if count == 1 || ranges[count - 2].end <= place {
        return count - 1;
    }
    ranges.partition_point(|range| range.end <= place)
}

/// The first place from `from` on that no range has, and the index of the first range beyond it.
pub(crate) fn first_lacked(ranges: &[Range], from: u32) -> (u32, usize)
    requires { AreRanges ranges.now }
    ensures after { from ≤ result.0 }
    ensures before { HasAll (flags_of ranges.now) from result.0 }
    ensures lacked { Lacks (flags_of ranges.now) result.0 }
    ensures apart { AreApart (result.0 + 1) (drop result.1 ranges.now) LONGEST_RLC_SDU }
    ensures beyond { (place : ℕ) → result.0 ≤ place
        → has (flags_of ranges.now) place ≡ in_one (drop result.1 ranges.now) place }
{
    let at = ended_by(ranges, from);
    if at < ranges.len() && ranges[at].start <= from {
        return (ranges[at].end, at + 1);
    }
    (from, at)
}

/// The first maximal run of places from `from` up to but without `until` that no range has.
pub(crate) fn next_gap(ranges: &[Range], from: u32, until: u32) -> Option<(u32, u32)>
    requires { AreRanges ranges.now }
    ensures gap { IfSome result (λ gap. IsFirstGap (flags_of ranges.now) from until gap.0 gap.1) }
    ensures none { IfNone result (HasAll (flags_of ranges.now) from until) }
{
    let (start, next) = first_lacked(ranges, from);
    if until <= start {
        return None;
    }
    if next < ranges.len() && ranges[next].start < until {
        return Some((start, ranges[next].start));
    }
    Some((start, until))
}

/// Ranges from `first` up to but without `stop`, and the range that comes in their place.
#[derive(Drop)]
pub(crate) struct Joined {
    pub(crate) first: usize,
    pub(crate) stop: usize,
    pub(crate) range: Range,
}

/// Joins a range with those that it meets or touches.
pub(crate) fn join(ranges: &[Range], range: Range) -> Joined
    requires apart { AreRanges ranges.now }
    requires some { range.start < range.end }
    ensures order { result.first ≤ result.stop }
    ensures within { result.stop ≤ length ranges.now }
    ensures joined { take result.first ranges.now ++ result.range ∷ drop result.stop ranges.now
        ≡ joined_with range ranges.now }
    ensures alone { result.first ≡ result.stop
        → LacksAll (flags_of ranges.now) (range.start - 1) (range.end + 1) }
{
    let first = ended_by(ranges, range.start.saturating_sub(1));
    let mut joined = range;
    for stop in first..ranges.len() {
        let next = ranges[stop];
        if joined.end < next.start {
            return Joined {
                first,
                stop,
                range: joined,
            };
        }
        joined = Range {
            start: joined.start.min(next.start),
            end: joined.end.max(next.end),
        };
    }
    Joined {
        first,
        stop: ranges.len(),
        range: joined,
    }
}

/// Ranges from `first` up to but without `stop`, and what of them lies in front of a cut and behind it. Either part
/// may be empty.
#[derive(Drop)]
pub(crate) struct Remainder {
    pub(crate) first: usize,
    pub(crate) stop: usize,
    pub(crate) front: Range,
    pub(crate) back: Range,
}

/// Cuts the places from `from` up to but without `to` out of the ranges.
pub(crate) fn cut(ranges: &[Range], from: u32, to: u32) -> Remainder
    requires apart { AreRanges ranges.now }
    requires some { from < to }
    ensures order { result.first ≤ result.stop }
    ensures within { result.stop ≤ length ranges.now }
    ensures left { take result.first ranges.now ++ parts_left result.front result.back
        ++ drop result.stop ranges.now
        ≡ below ranges.now from ++ above ranges.now to }
    ensures few { length (parts_left result.front result.back) ≤ result.stop - result.first + 1 }
    ensures splits { result.stop - result.first < length (parts_left result.front result.back)
        → SplitsRun (flags_of ranges.now) from to }
{
    let first = ended_by(ranges, from);
    let stop = ended_by(ranges, to);
    if stop < ranges.len() && ranges[stop].start < to {
        return Remainder {
            first,
            stop: stop + 1,
            front: Range {
                start: ranges[first].start,
                end: from,
            },
            back: Range {
                start: to,
                end: ranges[stop].end,
            },
        };
    }
    if stop == first {
        return Remainder {
            first,
            stop,
            front: EMPTY,
            back: EMPTY,
        };
    }
    Remainder {
        first,
        stop,
        front: Range {
            start: ranges[first].start,
            end: from,
        },
        back: EMPTY,
    }
}
