//! The right label of a point, by the labels of the points after it.
//!
//! From each later point no more segments are left than from an earlier one. So from where the longest
//! segment leads as few are left as can be; the points before it from which as few are left stand in a
//! window, which ends with it.
//!
//! ```text
//!     from . . . . [begin . . . last]    In the window one segment fewer is left than from here.
//! ```
ghost use Rattle.std.specs.Prelude.{◌≡◌, ℕ, ◌+◌, ◌*◌, ◌^◌, ◌<◌, ◌≤◌, length, slice_index};
ghost use Rattle.polygon_search.specs.Inner.Lasts.{AreRising, IsUpToLast, LeadsOn};
ghost use Rattle.polygon_search.specs.Polygon.{penalty_of};
ghost use Rattle.outline_check.specs.Labels.{IsRight, label_at, label_by, no_label};
ghost use Rattle.outline_check.specs.Inner.Known.{AreRightDownTo, IsWindowBegin};
ghost use Rattle.outline_check.specs.Inner.LabelPoints.{IsCheapestBefore, onward_by};

use crate::label::Label;
use crate::segments::CheckedSegments;
use prefix_moments::{Growing, Start};

/// A window of more than so many points is gone through by one segment that grows from point to point. A narrower one
/// costs less where each of its segments is looked up by itself.
const WIDE: u32 = 8;

/// A segment to go on by.
//
// What it costs has 64 bits, where a label has 128, since a text may say anything: the labels of the points after
// it are right, and so none costs more than its segments times 2^24.
#[derive(Clone, Copy)]
struct Onward {
    /// What the segment costs, with all that is left from where it leads.
    cost: u64,
    /// Where the segment leads.
    next: u32,
}

/// The window of a point, among whose points a segment from there has to lead to one.
#[derive(Clone, Copy)]
struct Window<'a> {
    segments: &'a CheckedSegments<'a>,
    /// Those of the points after `start` are right.
    labels: &'a [Label],
    start: Start<'a>,
    /// The first point of the window.
    begin: u32,
    /// And the last.
    last: u32,
    ghost one_walk: { start.moments.now ≡ segments.now.moments },
    ghost onwards: { start.from < begin },
    ghost ordered: { begin ≤ last },
    ghost reached: { last ≤ slice_index segments.now.lasts.items start.from },
    ghost places: { length labels.now ≡ length segments.now.moments + 1 },
    ghost small: { (k : ℕ) → start.from < k → k ≤ length segments.now.moments
        → (label_at labels.now k).cost < 2 ^ 56 },
}

/// The first point from which on the labels are known.
#[derive(Clone, Copy)]
pub(crate) struct Stage {
    /// Its right label.
    pub(crate) label: Label,
    /// Where its window begins.
    pub(crate) begin: u32,
    /// The point that its label comes from.
    pub(crate) next: u32,
}

impl Stage {
    /// The end of a path of so many points, where nothing is left.
    pub(crate) fn at_end(size: u32) -> Stage
        ensures { result.label ≡ no_label }
    {
        Stage {
            label: Label { count: 0, cost: 0 },
            begin: size,
            next: size,
        }
    }

    /// The point before, where the labels from this one on are right.
    #[inline]
    pub(crate) fn before(self, segments: &CheckedSegments, labels: &[Label], from: u32) -> Stage
        requires from { from < length segments.now.moments }
        requires known { AreRightDownTo (length segments.now.moments)
            (IsUpToLast segments.now.lasts.items) (penalty_of segments.now.moments)
            (from + 1) labels.now }
        requires later { from + 1 < length segments.now.moments
            → IsWindowBegin (length segments.now.moments) segments.now.lasts.items labels.now (from + 1) self.begin }
        ensures label { IsRight (IsUpToLast segments.now.lasts.items) (penalty_of segments.now.moments)
            labels.now from result.label }
        ensures begin { IsWindowBegin (length segments.now.moments) segments.now.lasts.items labels.now from result.begin }
    {
        let begin = begin_from(segments, labels, from, self.begin);
        stage_from(segments, labels, from, begin, self.next)
    }
}

/// Where the window of a point begins, by where that of the next point does.
fn begin_from(segments: &CheckedSegments, labels: &[Label], from: u32, later: u32) -> u32
    requires from { from < length segments.now.moments }
    requires known { AreRightDownTo (length segments.now.moments)
        (IsUpToLast segments.now.lasts.items) (penalty_of segments.now.moments)
        (from + 1) labels.now }
    requires later { from + 1 < length segments.now.moments
        → IsWindowBegin (length segments.now.moments) segments.now.lasts.items labels.now (from + 1) later }
    ensures { IsWindowBegin (length segments.now.moments) segments.now.lasts.items labels.now from result }
{
    let last = segments.lasts[from as usize];
    if labels[last as usize].count == labels[from as usize + 1].count {
        from + 1
    } else {
        later
    }
}

/// What is known of a point whose window begins here.
//
// The segment to where the label of the next point comes from is mostly the best here too, or nearly. So it
// comes first, and hardly any of the others is better: they are refused without a root. Long straight sides have
// narrow windows, since all their points reach the same corner.
fn stage_from(
    segments: &CheckedSegments,
    labels: &[Label],
    from: u32,
    begin: u32,
    guess: u32,
) -> Stage
    requires from { from < length segments.now.moments }
    requires known { AreRightDownTo (length segments.now.moments)
        (IsUpToLast segments.now.lasts.items) (penalty_of segments.now.moments)
        (from + 1) labels.now }
    requires begin { IsWindowBegin (length segments.now.moments) segments.now.lasts.items labels.now from begin }
    ensures label { IsRight (IsUpToLast segments.now.lasts.items) (penalty_of segments.now.moments)
        labels.now from result.label }
    ensures begin { result.begin ≡ begin }
{
    let last = segments.lasts[from as usize];
    let start = Start::at(&segments.moments, from);
    let window = Window {
        segments,
        labels,
        start,
        begin,
        last,
    };
    let to = guess.max(begin).min(last);
    let tried = by_segment(&window, to);
    let best = cheapest_of(&window, tried);
    let label = Label {
        count: labels[last as usize].count + 1,
        cost: u128::from(best.cost),
    };
    Stage {
        label,
        begin,
        next: best.next,
    }
}

/// The cheapest of the segments into the window, one of which was tried.
fn cheapest_of(window: &Window, tried: Onward) -> Onward
    requires { IsCheapestBefore (penalty_of window.now.segments.now.moments) window.now.labels.now
        window.now.start.from window.now.begin window.now.last window.now.begin tried }
    ensures { IsCheapestBefore (penalty_of window.now.segments.now.moments) window.now.labels.now
        window.now.start.from window.now.begin window.now.last (window.now.last + 1) result }
{
    if window.begin == window.last {
        tried
    } else if window.last - window.begin < WIDE {
        cheapest_of_few(window, tried)
    } else {
        cheapest_of_many(window, tried)
    }
}

/// The same, where each segment is looked up by itself, and the one that was tried isn't looked up again.
//
// It isn't inlined, so its loop keeps its registers.
#[inline(never)]
fn cheapest_of_few(window: &Window, tried: Onward) -> Onward
    requires { IsCheapestBefore (penalty_of window.now.segments.now.moments) window.now.labels.now
        window.now.start.from window.now.begin window.now.last window.now.begin tried }
    ensures { IsCheapestBefore (penalty_of window.now.segments.now.moments) window.now.labels.now
        window.now.start.from window.now.begin window.now.last (window.now.last + 1) result }
{
    let mut best = tried;
    for k in window.begin..window.last + 1 {
        if k != tried.next {
            best = cheaper(window, k, best);
        }
    }
    best
}

/// The same, by one segment that grows from point to point.
//
// Only the walk's end is a point of its second lap. So what is said of laps isn't asked at each point: the others stand
// in the walk's list, and their labels are gone through without looking one up.
#[inline(never)]
fn cheapest_of_many(window: &Window, tried: Onward) -> Onward
    requires wide { window.now.begin < window.now.last }
    requires tried { IsCheapestBefore (penalty_of window.now.segments.now.moments) window.now.labels.now
        window.now.start.from window.now.begin window.now.last window.now.begin tried }
    ensures { IsCheapestBefore (penalty_of window.now.segments.now.moments) window.now.labels.now
        window.now.start.from window.now.begin window.now.last (window.now.last + 1) result }
{
    let mut segment = Growing::between(&window.segments.moments, window.start.from, window.begin);
    let mut best = cheaper_by(window, &segment, rest(window, window.begin), tried);
    let end = (window.last as usize + 1).min(window.segments.size());
    let others = &window.labels[window.begin as usize + 1..end];
    for label in others {
        segment = segment.longer_by(window.segments.points[segment.to as usize + 1]);
        best = cheaper_by(window, &segment, label.cost as u64, best);
    }
    if segment.to < window.last {
        segment = segment.longer();
        best = cheaper_by(window, &segment, rest(window, window.last), best);
    }
    best
}

/// What all that is left from this point on costs.
fn rest(window: &Window, to: u32) -> u64
    requires above { window.now.begin ≤ to }
    requires near { to ≤ window.now.last }
    ensures value { result ≡ (label_at window.now.labels.now to).cost }
    ensures small { result < 2 ^ 56 }
{
    window.labels[to as usize].cost as u64
}

/// The segment to this point.
fn by_segment(window: &Window, to: u32) -> Onward
    requires above { window.now.begin ≤ to }
    requires near { to ≤ window.now.last }
    ensures { result ≡ onward_by (penalty_of window.now.segments.now.moments) window.now.labels.now window.now.start.from to }
{
    Onward {
        cost: rest(window, to) + window.start.penalty(to),
        next: to,
    }
}

/// The segment to this point, where it is cheaper than `best`.
//
// Where the rest alone isn't cheaper, the segment isn't looked at.
fn cheaper(window: &Window, to: u32, best: Onward) -> Onward
    requires above { window.now.begin ≤ to }
    requires near { to ≤ window.now.last }
    ensures cheaper { (label_by (penalty_of window.now.segments.now.moments) window.now.labels.now window.now.start.from to).cost < best.cost
        → result ≡ onward_by (penalty_of window.now.segments.now.moments) window.now.labels.now window.now.start.from to }
    ensures same { best.cost ≤ (label_by (penalty_of window.now.segments.now.moments) window.now.labels.now window.now.start.from to).cost
        → result ≡ best }
{
    let rest = rest(window, to);
    if best.cost <= rest {
        return best;
    }
    let limit = (best.cost - rest).min(1 << 24);
    match window.start.penalty_below(to, limit) {
        Some(penalty) => Onward {
            cost: rest + penalty,
            next: to,
        },
        None => best,
    }
}

/// This segment, from whose end the rest costs so much, where it is cheaper than `best`.
#[inline(always)]
fn cheaper_by(window: &Window, segment: &Growing, rest: u64, best: Onward) -> Onward
    requires segment { segment.now.moments.now ≡ window.now.segments.now.moments }
    requires from { segment.now.from ≡ window.now.start.from }
    requires above { window.now.begin ≤ segment.now.to }
    requires near { segment.now.to ≤ window.now.last }
    requires rest { rest ≡ (label_at window.now.labels.now segment.now.to).cost }
    ensures cheaper { (label_by (penalty_of window.now.segments.now.moments) window.now.labels.now window.now.start.from segment.now.to).cost < best.cost
        → result ≡ onward_by (penalty_of window.now.segments.now.moments) window.now.labels.now window.now.start.from segment.now.to }
    ensures same { best.cost ≤ (label_by (penalty_of window.now.segments.now.moments) window.now.labels.now window.now.start.from segment.now.to).cost
        → result ≡ best }
{
    if best.cost <= rest {
        return best;
    }
    let limit = (best.cost - rest).min(1 << 24);
    if segment.reaches(limit) {
        return best;
    }
    Onward {
        cost: rest + segment.penalty(),
        next: segment.to,
    }
}
