//! The least walk through a path's segments.
//!
//! What `least` asks of each pair of indices follows here from how far the segments reach: no segment
//! reaches farther than the longest one from the next point. So the fewest segments from a point to the
//! end begin with its longest one, and where polygons of fewest segments have their vertices is told by
//! the farthest of them.
//!
//! ```text
//!     0     [3 .. 7]     [12 .. 15]     n     Windows: where the vertices are after one segment more.
//!                                             Each ends with the farthest, and begins where the next
//!                                             window is reached.
//! ```
ghost use Rattle.std.specs.Prelude.{◌≡◌, ℕ, ◌+◌, ◌-◌, ◌^◌, ◌<◌, ◌≤◌, length, slice_index, unsigned_abs, IfOk, OnOk};
ghost use Rattle.std.specs.Int.{IsPowerOfTwo};
ghost use Rattle.pt_core.specs.ClosedWalk.{IsClosedWalk};
ghost use Rattle.least_walk.specs.LeastWalk.{IsLeast, walk_from, step_count, total_cost};
ghost use Rattle.least_walk.specs.Inner.Suffix.{HasNexts, IsFewestFrom, IsLeastCost};
ghost use Rattle.polygon_search.specs.Inner.Lasts.{IsUpToLast};
ghost use Rattle.prefix_moments.specs.Sums.{spread_of, IsPenalty};
ghost use Rattle.polygon_search.specs.Polygon.{penalty_of};
ghost use Rattle.polygon_search.specs.Inner.Search.{AreEnoughSlots, AreKept, AreWindowEnds, BeginsWindow, HasCheapest, IsCheaperIn, LeadsAlong, counts_of, slot_of};

use crate::room::{SearchRoom, make_places};
use crate::segments::Segments;
use crate::within::least_by_bounds;
use least_walk::Walk;
use prefix_moments::{Growing, Receding, Roots};
use pt_core::{NoMemory, Sequence};
use std::alloc::Global;

/// In a window that goes so far beyond its nearest point, the best segment is guessed first. In a narrower one that costs
/// more than the roots that it saves.
const WIDE: u32 = 12;

/// Where so many costs are kept, windows may be so wide that bounds are worth their price.
const BENDING: usize = 1 << 8;

/// A segment to go on by.
//
// What it costs has 64 bits, where `least` takes 128: the contract of `Steps` allows a penalty to 2^56, so a sum of 2^31
// of them needs 87 bits; but the penalty of a possible segment is below 2^24.
#[derive(Clone, Copy)]
pub(crate) struct OnwardSegment {
    /// What the polygon costs from this segment on to the end: less than 2^56.
    pub(crate) cost: u64,
    /// Where the segment leads.
    pub(crate) next: u32,
}

/// The same as `least` finds.
//
// 1. `farthest`: the farthest point after so many segments. The points up to it from which as few are
//    left as can be are vertices of polygons of fewest segments: its window.
// 2. `costs` and `nexts`, from the end down and for these points alone: the cheapest segment to the next
//    window, and of several the shortest. Only the costs that a segment can reach are kept.
// 3. The walk goes from 0 on by `nexts`.
//
// A point up to the farthest one is in its window where its longest segment reaches the next window. So how many
// segments are left from a point needs no list, and points between windows aren't looked at.
pub fn least_by_windows(
    alloc: Global,
    segments: &Segments,
    roots: &mut Roots,
    room: &mut SearchRoom,
) -> Result<Walk, NoMemory>
    requires closed { IsClosedWalk segments.now.moments.now }
    ensures least { IfOk result (λ walk. IsLeast (length segments.now.moments.now)
        (IsUpToLast segments.now.lasts.items) (penalty_of segments.now.moments.now)
        (walk_from walk.at (length segments.now.moments.now))) }
    ensures starts { IfOk result (λ walk. walk.count ≡ length walk.at) }
    ensures count { IfOk result (λ walk. walk.count
        ≡ step_count (walk_from walk.at (length segments.now.moments.now))) }
    ensures cost { IfOk result (λ walk. walk.cost
        ≡ total_cost (penalty_of segments.now.moments.now)
        (walk_from walk.at (length segments.now.moments.now))) }
{
    let places = segments.lasts.len() + 1;
    let slots = enough_slots(segments);
    make_places(&mut room.costs, slots, 0u64)?;
    make_places(&mut room.nexts, places, 0u32)?;
    fill_farthest(segments, &mut room.farthest)?;
    let costs = &mut room.costs[..slots];
    if slots < BENDING {
        return least_by_all(
            alloc,
            segments,
            &room.farthest,
            costs,
            &mut room.nexts,
            roots,
        );
    }
    let found = least_by_bounds(
        alloc,
        segments,
        &room.farthest,
        costs,
        &mut room.nexts,
        &mut room.begins,
        &mut room.bounds,
        &mut room.rears,
        &mut room.leasts,
        roots,
    )?;
    if let Some(walk) = found {
        return Ok(walk);
    }
    least_by_all(
        alloc,
        segments,
        &room.farthest,
        costs,
        &mut room.nexts,
        roots,
    )
}

/// The same, where all vertices are looked at, in lists that are lent.
fn least_by_all(
    alloc: Global,
    segments: &Segments,
    farthest: &[u32],
    costs: &mut [u64],
    nexts: &mut [u32],
    roots: &mut Roots,
) -> Result<Walk, NoMemory>
    requires ends { AreWindowEnds (length segments.now.moments.now) segments.now.lasts.items farthest.now }
    requires slots { AreEnoughSlots (length segments.now.moments.now) segments.now.lasts.items (length costs.old) }
    requires next_places { length segments.now.moments.now + 1 ≤ length nexts.old }
    ensures least { IfOk result (λ walk. IsLeast (length segments.now.moments.now)
        (IsUpToLast segments.now.lasts.items) (penalty_of segments.now.moments.now)
        (walk_from walk.at (length segments.now.moments.now))) }
    ensures starts { IfOk result (λ walk. walk.count ≡ length walk.at) }
    ensures count { IfOk result (λ walk. walk.count
        ≡ step_count (walk_from walk.at (length segments.now.moments.now))) }
    ensures cost { IfOk result (λ walk. walk.cost
        ≡ total_cost (penalty_of segments.now.moments.now)
        (walk_from walk.at (length segments.now.moments.now))) }
{
    fill_costs(segments, farthest, costs, nexts, roots);
    let count = (farthest.len() - 1) as u32;
    walk_along(alloc, segments, count, costs[0], nexts)
}

/// The walk that begins at 0 and goes on by `nexts`, where the whole of it has so many segments and costs so much.
pub(crate) fn walk_along(
    alloc: Global,
    segments: &Segments,
    count: u32,
    cost: u64,
    nexts: &[u32],
) -> Result<Walk, NoMemory>
    requires next_places { length segments.now.moments.now + 1 ≤ length nexts.now }
    requires count { IsFewestFrom (length segments.now.moments.now) (IsUpToLast segments.now.lasts.items) 0 count }
    requires cost { IsLeastCost (length segments.now.moments.now)
        (IsUpToLast segments.now.lasts.items) (penalty_of segments.now.moments.now) 0 cost }
    requires nexts { LeadsAlong (length segments.now.moments.now)
        (IsUpToLast segments.now.lasts.items) (penalty_of segments.now.moments.now) 0 nexts.now }
    ensures least { IfOk result (λ walk. IsLeast (length segments.now.moments.now)
        (IsUpToLast segments.now.lasts.items) (penalty_of segments.now.moments.now)
        (walk_from walk.at (length segments.now.moments.now))) }
    ensures starts { IfOk result (λ walk. walk.count ≡ length walk.at) }
    ensures count { IfOk result (λ walk. walk.count
        ≡ step_count (walk_from walk.at (length segments.now.moments.now))) }
    ensures cost { IfOk result (λ walk. walk.cost
        ≡ total_cost (penalty_of segments.now.moments.now)
        (walk_from walk.at (length segments.now.moments.now))) }
{
    let size = segments.lasts.len() as u32;
    let mut at = Vec::with_capacity(alloc, count as usize)?;
    let mut from = 0;
    while from < size {
        at.push(from)?;
        from = nexts[from as usize];
    }
    Ok(Walk {
        at: Sequence::from_vec(at),
        count,
        cost: u128::from(cost),
    })
}

/// Writes down the farthest points that one segment reaches, two segments, and so on to the end.
fn fill_farthest(segments: &Segments, farthest: &mut Vec<u32>) -> Result<(), NoMemory>
    ensures { OnOk result (AreWindowEnds (length segments.now.moments.now) segments.now.lasts.items farthest.new.items) }
{
    let size = segments.lasts.len() as u32;
    farthest.clear();
    let mut at = 0;
    while at < size {
        farthest.push(at)?;
        at = segments.lasts[at as usize];
    }
    farthest.push(at)?;
    Ok(())
}

/// How many costs are kept: the least power of two above the steps of the longest segment.
//
// A list of a cost for each point of a long path would be memory that is used for the first time, which costs more than
// the mask that finds a slot. The price: a proof that speaks of a list of all costs that isn't there (`AreKept`).
fn enough_slots(segments: &Segments) -> usize
    ensures enough { AreEnoughSlots (length segments.now.moments.now) segments.now.lasts.items result }
    ensures few { result ≤ 2 ^ 16 }
{
    (segments.most_steps() as usize + 1).next_power_of_two()
}

/// Where the cost of the best way from this point is kept.
//
// Points of one slot are farther apart than a segment is long. So when a point is looked at, each of those
// that a segment leads to has its slot for itself. As there are a power of two of them, one is found without a division.
pub(crate) fn slot(costs: &[u64], point: usize) -> usize
    requires { IsPowerOfTwo (length costs.now) }
    ensures { result ≡ slot_of (length costs.now) point }
{
    point & (costs.len() - 1)
}

/// Writes down, for each vertex of a polygon of fewest segments, where the best way from there to the end
/// goes first, and in its slot what that way costs.
fn fill_costs(
    segments: &Segments,
    farthest: &[u32],
    costs: &mut [u64],
    nexts: &mut [u32],
    roots: &mut Roots,
)
    requires slots { AreEnoughSlots (length segments.now.moments.now) segments.now.lasts.items (length costs.old) }
    requires next_places { length segments.now.moments.now + 1 ≤ length nexts.old }
    requires windows { AreWindowEnds (length segments.now.moments.now) segments.now.lasts.items farthest.now }
    ensures cost { IsLeastCost (length segments.now.moments.now)
        (IsUpToLast segments.now.lasts.items) (penalty_of segments.now.moments.now)
        0 (slice_index costs.new 0) }
    ensures nexts { HasNexts (length segments.now.moments.now) (IsUpToLast segments.now.lasts.items)
        (penalty_of segments.now.moments.now) 0 nexts.new }
{
    let size = segments.lasts.len();
    costs[slot(costs, size)] = 0;
    let mut begin = size as u32;
    for window in (0..farthest.len() - 1).rev() {
        begin = fill_window(segments, farthest, window, begin, costs, nexts, roots);
    }
}

/// The same for the vertices of one window, where all of the next one, which begins at a point, are done. It is the
/// window's own first point.
fn fill_window(
    segments: &Segments,
    farthest: &[u32],
    window: usize,
    begin: u32,
    costs: &mut [u64],
    nexts: &mut [u32],
    roots: &mut Roots,
) -> u32
    requires slots { AreEnoughSlots (length segments.now.moments.now) segments.now.lasts.items (length costs.old) }
    requires next_places { length segments.now.moments.now + 1 ≤ length nexts.old }
    requires windows { AreWindowEnds (length segments.now.moments.now) segments.now.lasts.items farthest.now }
    requires window { window + 1 < length farthest.now }
    requires begin { BeginsWindow (length segments.now.moments.now)
        (counts_of (length segments.now.moments.now) segments.now.lasts.items) (window + 1) begin }
    requires later { AreKept (length segments.now.moments.now) (IsUpToLast segments.now.lasts.items)
        (penalty_of segments.now.moments.now) begin costs.old }
    requires later_nexts { HasNexts (length segments.now.moments.now) (IsUpToLast segments.now.lasts.items)
        (penalty_of segments.now.moments.now) begin nexts.old }
    ensures next_places { length nexts.new ≡ length nexts.old }
    ensures begin { BeginsWindow (length segments.now.moments.now)
        (counts_of (length segments.now.moments.now) segments.now.lasts.items) window result }
    ensures costs { AreKept (length segments.now.moments.now) (IsUpToLast segments.now.lasts.items)
        (penalty_of segments.now.moments.now) result costs.new }
    ensures nexts { HasNexts (length segments.now.moments.now) (IsUpToLast segments.now.lasts.items)
        (penalty_of segments.now.moments.now) result nexts.new }
{
    let mut nearest = nearest_from(segments, farthest[window], begin);
    'points: loop {
        let first = nearest.from as usize;
        let guess = nexts[first + 1];
        let onward = cheapest_from(segments, nearest, guess, costs, roots);
        costs[slot(costs, first)] = onward.cost;
        nexts[first] = onward.next;
        if first == 0 || segments.lasts[first - 1] < begin {
            return nearest.from;
        }
        nearest = nearest.earlier_by(segments.points[first - 1]);
    }
}

/// The segment from a point to the first one of the next window.
//
// The walk's end is a window of its own and a point of its second lap.
#[inline(always)]
pub(crate) fn nearest_from<'a>(segments: &Segments<'a>, from: u32, begin: u32) -> Receding<'a>
    requires from { from < length segments.now.moments.now }
    requires onwards { from < begin }
    requires reached { begin ≤ slice_index segments.now.lasts.items from }
    ensures moments { result.moments.now ≡ segments.now.moments.now }
    ensures from { result.from ≡ from }
    ensures to { result.to ≡ begin }
{
    if begin as usize == segments.lasts.len() {
        return Receding::between(segments.moments, from, begin);
    }
    Receding::in_lap(segments.moments, segments.points, from, begin)
}

/// The cheapest segment from a point into the next window, by the nearest one, and of several the shortest.
//
// A window is mostly narrow: from the nearest point on, one segment grows from point to point. The walk's end is a window
// of its own, so nothing that is said of laps is asked later.
#[inline(always)]
pub(crate) fn cheapest_from(
    segments: &Segments,
    nearest: Receding,
    guess: u32,
    costs: &[u64],
    roots: &mut Roots,
) -> OnwardSegment
    requires nearest { nearest.moments.now ≡ segments.now.moments.now }
    requires some { nearest.to ≤ slice_index segments.now.lasts.items nearest.from }
    requires lap { nearest.to < length segments.now.moments.now
        → slice_index segments.now.lasts.items nearest.from < length segments.now.moments.now }
    requires slots { IsPowerOfTwo (length costs.now) }
    requires small { (k : ℕ) → nearest.to ≤ k → k ≤ slice_index segments.now.lasts.items nearest.from
        → slice_index costs.now (slot_of (length costs.now) k) < 2 ^ 56 }
    ensures { HasCheapest
        (λ k. penalty_of segments.now.moments.now nearest.entry.from k + slice_index costs.now (slot_of (length costs.now) k))
        nearest.entry.to (slice_index segments.now.lasts.items nearest.entry.from + 1) result }
{
    let last = segments.lasts[nearest.from as usize];
    if last - nearest.to >= WIDE {
        return cheapest_by_guess(segments, nearest, guess, costs, roots);
    }
    let segment = Growing::of(nearest);
    let first = onward_by(segments, &segment, costs, roots);
    if last == nearest.to {
        return first;
    }
    cheaper_beyond(segments, &segment, last + 1, costs, first, false, roots)
}

/// The same in a wide window before the walk's end.
//
// The segment to where the best one from the next point leads is mostly the best here too, or nearly. So hardly any other
// one is better than that, and all others are refused without a root.
#[inline(never)]
fn cheapest_by_guess(
    segments: &Segments,
    nearest: Receding,
    guess: u32,
    costs: &[u64],
    roots: &mut Roots,
) -> OnwardSegment
    requires nearest { nearest.moments.now ≡ segments.now.moments.now }
    requires some { nearest.to ≤ slice_index segments.now.lasts.items nearest.from }
    requires lap { slice_index segments.now.lasts.items nearest.from < length segments.now.moments.now }
    requires slots { IsPowerOfTwo (length costs.now) }
    requires small { (k : ℕ) → nearest.to ≤ k → k ≤ slice_index segments.now.lasts.items nearest.from
        → slice_index costs.now (slot_of (length costs.now) k) < 2 ^ 56 }
    ensures { HasCheapest
        (λ k. penalty_of segments.now.moments.now nearest.entry.from k + slice_index costs.now (slot_of (length costs.now) k))
        nearest.entry.to (slice_index segments.now.lasts.items nearest.entry.from + 1) result }
{
    let from = nearest.from;
    let last = segments.lasts[from as usize];
    let to = guess.max(nearest.to).min(last);
    let guessed = Growing::in_lap(segments.moments, segments.points, from, to);
    let tried = onward_by(segments, &guessed, costs, roots);
    // A nearer one that costs as much is better.
    let bound = OnwardSegment {
        cost: tried.cost + 1,
        next: to,
    };
    let segment = Growing::of(nearest);
    let rest = costs[slot(costs, nearest.to as usize)];
    let first = cheaper_by(segments, &segment, rest, bound, false, roots);
    cheaper_far_beyond(segments, &segment, last + 1, costs, first, roots)
}

/// This segment, and what the polygon costs from it on.
#[inline(always)]
pub(crate) fn onward_by(
    segments: &Segments,
    segment: &Growing,
    costs: &[u64],
    roots: &mut Roots,
) -> OnwardSegment
    requires segment { segment.now.moments.now ≡ segments.now.moments.now }
    requires reached { segment.now.to ≤ slice_index segments.now.lasts.items segment.now.from }
    requires slots { IsPowerOfTwo (length costs.now) }
    requires small { slice_index costs.now (slot_of (length costs.now) segment.now.to) < 2 ^ 56 }
    ensures { HasCheapest
        (λ k. penalty_of segments.now.moments.now segment.now.from k + slice_index costs.now (slot_of (length costs.now) k))
        segment.now.to (segment.now.to + 1) result }
{
    let rest = costs[slot(costs, segment.to as usize)];
    OnwardSegment {
        cost: segment.penalty_by(roots) + rest,
        next: segment.to,
    }
}

/// The cheapest segment to one of the points of the first lap beyond a segment's end and before `stop`, and of several the
/// shortest; or `best`, where none of them is cheaper. No root is kept where they are taken seldom.
#[inline(always)]
fn cheaper_beyond(
    segments: &Segments,
    segment: &Growing,
    stop: u32,
    costs: &[u64],
    best: OnwardSegment,
    seldom: bool,
    roots: &mut Roots,
) -> OnwardSegment
    requires segment { segment.now.moments.now ≡ segments.now.moments.now }
    requires some { segment.now.to < stop }
    requires ends { stop ≤ slice_index segments.now.lasts.items segment.now.from + 1 }
    requires lap { stop ≤ length segments.now.moments.now }
    requires slots { IsPowerOfTwo (length costs.now) }
    ensures { IsCheaperIn
        (λ k. penalty_of segments.now.moments.now segment.now.from k + slice_index costs.now (slot_of (length costs.now) k))
        (segment.now.to + 1) stop best result }
{
    let mut grown = *segment;
    let mut cheapest = best;
    for to in segment.to + 1..stop {
        grown = grown.longer_by(segments.points[to as usize]);
        let rest = costs[slot(costs, to as usize)];
        cheapest = cheaper_by(segments, &grown, rest, cheapest, seldom, roots);
    }
    cheapest
}

/// The same of a wide window, in which roots are taken seldom.
//
// It isn't inlined, so the loop has the registers for itself.
#[inline(never)]
pub(crate) fn cheaper_far_beyond(
    segments: &Segments,
    segment: &Growing,
    stop: u32,
    costs: &[u64],
    best: OnwardSegment,
    roots: &mut Roots,
) -> OnwardSegment
    requires segment { segment.now.moments.now ≡ segments.now.moments.now }
    requires some { segment.now.to < stop }
    requires ends { stop ≤ slice_index segments.now.lasts.items segment.now.from + 1 }
    requires lap { stop ≤ length segments.now.moments.now }
    requires slots { IsPowerOfTwo (length costs.now) }
    ensures { IsCheaperIn
        (λ k. penalty_of segments.now.moments.now segment.now.from k + slice_index costs.now (slot_of (length costs.now) k))
        (segment.now.to + 1) stop best result }
{
    cheaper_beyond(segments, segment, stop, costs, best, true, roots)
}

/// The segment, from whose end the rest costs so much, where it is cheaper than `best`.
//
// Where the rest alone isn't cheaper, the segment isn't looked at.
#[inline(always)]
pub(crate) fn cheaper_by(
    segments: &Segments,
    segment: &Growing,
    rest: u64,
    best: OnwardSegment,
    seldom: bool,
    roots: &mut Roots,
) -> OnwardSegment
    requires segment { segment.now.moments.now ≡ segments.now.moments.now }
    requires reached { segment.now.to ≤ slice_index segments.now.lasts.items segment.now.from }
    ensures cheaper { penalty_of segments.now.moments.now segment.now.from segment.now.to + rest < best.cost
        → (result.cost ≡ penalty_of segments.now.moments.now segment.now.from segment.now.to + rest)
        × (result.next ≡ segment.now.to) }
    ensures same { best.cost ≤ penalty_of segments.now.moments.now segment.now.from segment.now.to + rest
        → result ≡ best }
{
    if best.cost <= rest {
        return best;
    }
    let limit = (best.cost - rest).min(1 << 24);
    if segment.reaches(limit) {
        return best;
    }
    OnwardSegment {
        cost: penalty(segment, seldom, roots) + rest,
        next: segment.to,
    }
}

/// The segment's penalty, by the roots that are kept unless they are taken seldom.
#[inline(always)]
fn penalty(segment: &Growing, seldom: bool, roots: &mut Roots) -> u64
    requires { unsigned_abs (spread_of segment.now.moments.now segment.now.from segment.now.to) < 2 ^ 48 }
    ensures { IsPenalty segment.now.moments.now segment.now.from segment.now.to result }
{
    if seldom {
        segment.penalty()
    } else {
        segment.penalty_by(roots)
    }
}
