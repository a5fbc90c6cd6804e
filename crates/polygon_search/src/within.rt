//! The search for the best polygon within a limit.
//!
//! As soon as some polygon is known, each better one costs no more than that: the limit. What a polygon pays up to a
//! vertex is its floor at least, and from there on the best way on. Where both come to more than the limit, the vertex is on
//! no best polygon: it counts as far, and no segment to it is looked at. Where the floor and what can be left show that
//! beforehand, none from it is either.
//!
//! If the cost that is found is within the limit, it is the least: the best polygon costs no more, so none of its
//! vertices counted as far.
ghost use Rattle.std.specs.Prelude.{◌≡◌, ℕ, ◌+◌, ◌-◌, ◌*◌, ◌<◌, ◌≤◌, ◌^◌, length, slice_index, IfOk, IfSome};
ghost use Rattle.std.specs.Int.{IsPowerOfTwo};
ghost use Rattle.pt_core.specs.ClosedWalk.{IsClosedWalk};
ghost use Rattle.least_walk.specs.Inner.Suffix.{IsLeastCost};
ghost use Rattle.polygon_search.specs.Inner.Lasts.{IsUpToLast};
ghost use Rattle.polygon_search.specs.Polygon.{penalty_of};
ghost use Rattle.least_walk.specs.LeastWalk.{IsLeast, walk_from, step_count, total_cost};
ghost use Rattle.polygon_search.specs.declared.blocks.TheConstants.{BLOCK};
ghost use Rattle.polygon_search.specs.Inner.BlockLeasts.{AreLeasts};
ghost use Rattle.polygon_search.specs.Inner.Search.{AreEnoughSlots, AreWindowEnds, slot_of};
ghost use Rattle.polygon_search.specs.Inner.VertexBounds.{AreBounds, AreWindowBegins};
ghost use Rattle.polygon_search.specs.Inner.Within.{AreKeptWithin, HasNextsWithin, IsLeastRest, IsOnwardBy};

use crate::blocks::{cheapest_by_blocks, fill_leasts};
use crate::bounds::{Bound, FAR, fill_bounds};
use crate::limit::likely_limit;
use crate::room::make_places;
use crate::search::{OnwardSegment, cheapest_from, nearest_from, slot, walk_along};
use crate::segments::Segments;
use crate::windows::{fill_begins, is_worth};
use least_walk::Walk;
use prefix_moments::{Receding, Roots};
use pt_core::NoMemory;
use std::alloc::Global;

/// A window that goes so far beyond its nearest point is looked at by blocks.
const BROAD: u32 = 64;

/// The same as `least_by_windows` finds, by bounds, where these are worth their price. Lists are given to it that have room for
/// the costs that are kept, and for where each point's best way on leads.
#[inline(never)]
pub(crate) fn least_by_bounds(
    alloc: Global,
    segments: &Segments,
    farthest: &[u32],
    costs: &mut [u64],
    nexts: &mut [u32],
    begins: &mut Vec<u32>,
    bounds: &mut Vec<Bound>,
    rears: &mut Vec<u64>,
    leasts: &mut Vec<u64>,
    roots: &mut Roots,
) -> Result<Option<Walk>, NoMemory>
    requires closed { IsClosedWalk segments.now.moments.now }
    requires ends { AreWindowEnds (length segments.now.moments.now) segments.now.lasts.items farthest.now }
    requires slots { AreEnoughSlots (length segments.now.moments.now) segments.now.lasts.items (length costs.old) }
    requires next_places { length segments.now.moments.now + 1 ≤ length nexts.old }
    ensures least { IfOk result (λ found. IfSome found (λ walk. IsLeast (length segments.now.moments.now)
        (IsUpToLast segments.now.lasts.items) (penalty_of segments.now.moments.now)
        (walk_from walk.at (length segments.now.moments.now)))) }
    ensures starts { IfOk result (λ found. IfSome found (λ walk. walk.count ≡ length walk.at)) }
    ensures count { IfOk result (λ found. IfSome found (λ walk. walk.count
        ≡ step_count (walk_from walk.at (length segments.now.moments.now)))) }
    ensures cost { IfOk result (λ found. IfSome found (λ walk. walk.cost
        ≡ total_cost (penalty_of segments.now.moments.now)
        (walk_from walk.at (length segments.now.moments.now)))) }
{
    fill_begins(segments, farthest, begins)?;
    if !is_worth(begins, farthest, segments.lasts.len()) {
        return Ok(None);
    }
    make_places(bounds, segments.lasts.len() + 1, Bound::none())?;
    make_places(rears, segments.lasts.len() + 1, 0u64)?;
    make_places(leasts, costs.len(), 0u64)?;
    fill_bounds(segments, begins, farthest, bounds, roots);
    let limit = likely_limit(segments, begins, farthest, bounds, rears).min(FAR);
    fill_costs_within(
        segments, begins, farthest, bounds, limit, leasts, costs, nexts, roots,
    );
    if limit < costs[0] {
        return Ok(None);
    }
    let count = (farthest.len() - 1) as u32;
    let walk = walk_along(alloc, segments, count, costs[0], nexts)?;
    Ok(Some(walk))
}

/// The same as `fill_costs` does, for the vertices that a polygon of at most this cost may have.
pub(crate) fn fill_costs_within(
    segments: &Segments,
    begins: &[u32],
    farthest: &[u32],
    bounds: &[Bound],
    limit: u64,
    leasts: &mut [u64],
    costs: &mut [u64],
    nexts: &mut [u32],
    roots: &mut Roots,
)
    requires limit { limit < 2 ^ 56 }
    requires slots { AreEnoughSlots (length segments.now.moments.now) segments.now.lasts.items (length costs.old) }
    requires next_places { length segments.now.moments.now + 1 ≤ length nexts.old }
    requires blocks { length costs.old ≤ length leasts.old }
    requires bound_places { length segments.now.moments.now + 1 ≤ length bounds.now }
    requires windows { AreWindowBegins (length segments.now.moments.now) segments.now.lasts.items begins.now farthest.now }
    requires bounds { AreBounds segments.now.lasts.items begins.now farthest.now
        (penalty_of segments.now.moments.now) bounds.now }
    ensures cost { slice_index costs.new 0 ≤ limit → IsLeastCost (length segments.now.moments.now)
        (IsUpToLast segments.now.lasts.items) (penalty_of segments.now.moments.now)
        0 (slice_index costs.new 0) }
    ensures nexts { HasNextsWithin (length segments.now.moments.now) (IsUpToLast segments.now.lasts.items)
        (penalty_of segments.now.moments.now) bounds.now limit 0 nexts.new }
{
    let size = segments.lasts.len();
    costs[slot(costs, size)] = 0;
    let mut rest = left_by(bounds[size], 0);
    for window in (0..farthest.len() - 1).rev() {
        rest = fill_window_within(
            segments, begins, farthest, bounds, window, limit, rest, leasts, costs, nexts, roots,
        );
    }
}

/// The same for the vertices of one window, where all of the next one are done and this is the least that is left from one of
/// them. It gives the least that is left from one of these.
fn fill_window_within(
    segments: &Segments,
    begins: &[u32],
    farthest: &[u32],
    bounds: &[Bound],
    window: usize,
    limit: u64,
    rest: u64,
    leasts: &mut [u64],
    costs: &mut [u64],
    nexts: &mut [u32],
    roots: &mut Roots,
) -> u64
    requires limit { limit < 2 ^ 56 }
    requires rest { rest < 2 ^ 57 }
    requires slots { AreEnoughSlots (length segments.now.moments.now) segments.now.lasts.items (length costs.old) }
    requires next_places { length segments.now.moments.now + 1 ≤ length nexts.old }
    requires blocks { length costs.old ≤ length leasts.old }
    requires bound_places { length segments.now.moments.now + 1 ≤ length bounds.now }
    requires windows { AreWindowBegins (length segments.now.moments.now) segments.now.lasts.items begins.now farthest.now }
    requires bounds { AreBounds segments.now.lasts.items begins.now farthest.now
        (penalty_of segments.now.moments.now) bounds.now }
    requires window { window + 1 < length farthest.now }
    requires least_rest { IsLeastRest (length segments.now.moments.now) (IsUpToLast segments.now.lasts.items)
        (penalty_of segments.now.moments.now) bounds.now limit
        (slice_index begins.now (window + 1)) (slice_index farthest.now (window + 1)) rest }
    requires later { AreKeptWithin (length segments.now.moments.now) (IsUpToLast segments.now.lasts.items)
        (penalty_of segments.now.moments.now) bounds.now limit (slice_index begins.now (window + 1)) costs.old }
    requires later_nexts { HasNextsWithin (length segments.now.moments.now) (IsUpToLast segments.now.lasts.items)
        (penalty_of segments.now.moments.now) bounds.now limit (slice_index begins.now (window + 1)) nexts.old }
    ensures next_places { length nexts.new ≡ length nexts.old }
    ensures blocks { length leasts.new ≡ length leasts.old }
    ensures rest { result < 2 ^ 57 }
    ensures least_rest { IsLeastRest (length segments.now.moments.now) (IsUpToLast segments.now.lasts.items)
        (penalty_of segments.now.moments.now) bounds.now limit
        (slice_index begins.now window) (slice_index farthest.now window) result }
    ensures costs { AreKeptWithin (length segments.now.moments.now) (IsUpToLast segments.now.lasts.items)
        (penalty_of segments.now.moments.now) bounds.now limit (slice_index begins.now window) costs.new }
    ensures nexts { HasNextsWithin (length segments.now.moments.now) (IsUpToLast segments.now.lasts.items)
        (penalty_of segments.now.moments.now) bounds.now limit (slice_index begins.now window) nexts.new }
{
    let begin = begins[window + 1];
    fill_leasts(begin, farthest[window + 1], bounds, costs, leasts);
    let mut least = FAR + (1 << 32);
    let mut nearest = nearest_from(segments, farthest[window], begin);
    loop {
        let first = nearest.from as usize;
        let bound = bounds[first];
        // On a line near 45 degrees every second point goes on alike.
        let guess = nexts[(first + 2).min(segments.lasts.len())];
        let onward = onward_within(
            segments, nearest, bound, limit, rest, guess, leasts, costs, roots,
        );
        costs[slot(costs, first)] = onward.cost;
        nexts[first] = onward.next;
        least = least.min(left_by(bound, onward.cost));
        if nearest.from == begins[window] {
            return least;
        }
        nearest = nearest.earlier_by(segments.points[first - 1]);
    }
}

/// The cheapest segment from a point into the next window, where a polygon through it may be within the limit; else one that
/// costs too much.
#[inline(always)]
fn onward_within(
    segments: &Segments,
    nearest: Receding,
    bound: Bound,
    limit: u64,
    rest: u64,
    guess: u32,
    leasts: &[u64],
    costs: &[u64],
    roots: &mut Roots,
) -> OnwardSegment
    requires nearest { nearest.moments.now ≡ segments.now.moments.now }
    requires some { nearest.to ≤ slice_index segments.now.lasts.items nearest.from }
    requires lap { nearest.to < length segments.now.moments.now
        → slice_index segments.now.lasts.items nearest.from < length segments.now.moments.now }
    requires slots { IsPowerOfTwo (length costs.now) }
    requires small { (k : ℕ) → nearest.to ≤ k → k ≤ slice_index segments.now.lasts.items nearest.from
        → slice_index costs.now (slot_of (length costs.now) k) < 2 ^ 56 }
    requires blocks { slice_index segments.now.lasts.items nearest.from - nearest.to < BLOCK * length leasts.now }
    requires leasts { AreLeasts
        (λ k. penalty_of segments.now.moments.now nearest.from k + slice_index costs.now (slot_of (length costs.now) k))
        bound.ahead nearest.to (slice_index segments.now.lasts.items nearest.from + 1) leasts.now }
    requires floor { bound.floor < 2 ^ 56 }
    requires limit { limit < 2 ^ 56 }
    requires rest { rest < 2 ^ 57 }
    ensures small { result.cost < 2 ^ 56 }
    ensures onward { IsOnwardBy
        (λ k. penalty_of segments.now.moments.now nearest.entry.from k + slice_index costs.now (slot_of (length costs.now) k))
        nearest.entry.to (slice_index segments.now.lasts.items nearest.entry.from + 1) limit rest bound result }
{
    let far = OnwardSegment {
        cost: FAR,
        next: guess,
    };
    if limit < bound.floor + u64::from(bound.ahead) + rest {
        return far;
    }
    let most = limit - bound.floor;
    let broad = segments.lasts[nearest.from as usize] - nearest.to >= BROAD;
    let onward = if broad {
        cheapest_by_blocks(
            segments,
            nearest,
            guess,
            most,
            bound.ahead,
            leasts,
            costs,
            roots,
        )
    } else {
        cheapest_from(segments, nearest, guess, costs, roots)
    };
    if most < onward.cost {
        return OnwardSegment {
            cost: FAR,
            next: onward.next,
        };
    }
    onward
}

/// What is left from a vertex whose best way on costs so much, with what the second half of a segment to it adds.
#[inline(always)]
fn left_by(bound: Bound, cost: u64) -> u64
    requires { cost < 2 ^ 56 }
    ensures sum { result ≡ bound.behind + cost }
    ensures small { result < 2 ^ 57 }
{
    u64::from(bound.behind) + cost
}
