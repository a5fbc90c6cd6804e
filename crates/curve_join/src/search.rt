//! The best cut of an outline into runs.
//!
//! The best way on from a piece takes one run to a later piece, and then the best way on from that one. So the ways are
//! computed from the end backwards. For each piece the search finds three things at once: the number of runs of its
//! best way on, their cost, and the end of the first one.
ghost use Rattle.std.specs.Prelude.{◌≡◌, ℕ, ◌+◌, ◌<◌, ◌≤◌, ◌^◌, ◌⊎◌, true, false, length, slice_index, slice_range, All, IfOk, OnOk};
ghost use Rattle.least_walk.specs.LeastWalk.{IsLeast, walk_from};
ghost use Rattle.least_walk.specs.Inner.Suffix.{HasCosts, HasFewest, HasNexts, IsFewestFrom, IsLeastCost, IsLeastNext};
ghost use Rattle.curve_join.specs.Inner.Bends.{IsWorkable};
ghost use Rattle.curve_join.specs.Inner.Choice.{IsLastRun};
ghost use Rattle.curve_join.specs.Choice.{MayBeOne, run_penalty};
ghost use Rattle.curve_join.specs.Join.{GoesRound, first_bend, sense_at};
ghost use Rattle.curve_join.specs.Inner.CutSearch.{AreJoinedRuns, AreLeastCosts, IsJoinedRun, IsNotBehind, paid};

use crate::bend::Bend;
use crate::room::{JoinRoom, JoinedRun, with_places, without_runs};
use crate::run::{joined_round, round_count};
use crate::runs::Runs;
use crate::sense::Sense;
use least_walk::{Walk, walk_by};
use pt_core::NoMemory;
use std::alloc::Global;
use std::mem::replace;

/// A way on from a piece to the end of the outline.
#[derive(Clone, Copy)]
pub(crate) struct WayOn {
    /// The number of its runs.
    count: u32,
    /// The sum of their penalties.
    cost: u128,
    /// The end of its first run.
    next: u32,
}

impl WayOn {
    /// Whether this way is better than the other one: it has fewer runs, or equally many at a lower cost, or equal cost
    /// and a shorter first run.
    fn is_before(self, other: WayOn) -> bool
        ensures before { result ≡ true → IsNotBehind self other }
        ensures not { result ≡ false → IsNotBehind other self }
    {
        if self.count != other.count {
            return self.count < other.count;
        }
        if self.cost != other.cost {
            return self.cost < other.cost;
        }
        self.next < other.next
    }
}

/// The walk that `least_walk::least` finds for these runs, computed with less work.
pub(crate) fn least_by_runs(
    alloc: Global,
    runs: &Runs,
    room: &mut JoinRoom,
) -> Result<Walk, NoMemory>
    ensures least { IfOk result (λ walk. IsLeast (length runs.now.bends.items)
        (MayBeOne runs.now.tol runs.now.bends.items) (run_penalty runs.now.bends.items)
        (walk_from walk.at (length runs.now.bends.items))) }
    ensures places { OnOk result (length room.new.joined.items ≡ length runs.now.bends.items + 1) }
    ensures joined { OnOk result (AreJoinedRuns runs.now.bends.items room.new.joined.items) }
{
    let places = runs.bends.len() + 1;
    let mut counts = with_places(replace(&mut room.counts, Vec::new(alloc)), places, 0)?;
    let mut costs = with_places(replace(&mut room.costs, Vec::new(alloc)), places, 0)?;
    let mut nexts = with_places(replace(&mut room.nexts, Vec::new(alloc)), places, 0)?;
    let mut joined = without_runs(replace(&mut room.joined, Vec::new(alloc)), places)?;
    fill_ways(runs, &mut counts, &mut costs, &mut nexts, &mut joined);
    let walk = walk_by(alloc, runs, &counts, &costs, &nexts)?;
    room.joined = joined;
    room.counts = counts;
    room.costs = costs;
    room.nexts = nexts;
    Ok(walk)
}

/// Fills in the best way on from each piece.
fn fill_ways(
    runs: &Runs,
    counts: &mut [u32],
    costs: &mut [u128],
    nexts: &mut [u32],
    joined: &mut [JoinedRun],
)
    requires count_places { length counts.old ≡ length runs.now.bends.items + 1 }
    requires cost_places { length costs.old ≡ length runs.now.bends.items + 1 }
    requires next_places { length nexts.old ≡ length runs.now.bends.items + 1 }
    requires joined_places { length joined.old ≡ length runs.now.bends.items + 1 }
    requires none { All (λ run. run.to ≡ 0) joined.old }
    ensures counts { HasFewest (length runs.now.bends.items) (MayBeOne runs.now.tol runs.now.bends.items)
        0 counts.new }
    ensures costs { HasCosts (length runs.now.bends.items) (MayBeOne runs.now.tol runs.now.bends.items)
        (run_penalty runs.now.bends.items) 0 costs.new }
    ensures nexts { HasNexts (length runs.now.bends.items) (MayBeOne runs.now.tol runs.now.bends.items)
        (run_penalty runs.now.bends.items) 0 nexts.new }
    ensures joined { AreJoinedRuns runs.now.bends.items joined.new }
{
    let size = runs.bends.len();
    counts[size] = 0;
    costs[size] = 0;
    for from in (0..size).rev() {
        let way = best_from(runs, from as u32, counts, costs, &mut joined[from]);
        counts[from] = way.count;
        costs[from] = way.cost;
        nexts[from] = way.next;
    }
}

/// The best way on from a piece, if those from each later piece are known.
//
// The farthest run is tried first. In most cases it leaves the fewest runs, and then the nearer ones are ruled out by
// their counts alone.
fn best_from(
    runs: &Runs,
    from: u32,
    counts: &[u32],
    costs: &[u128],
    joined: &mut JoinedRun,
) -> WayOn
    requires from { from < length runs.now.bends.items }
    requires count_places { length counts.now ≡ length runs.now.bends.items + 1 }
    requires cost_places { length costs.now ≡ length runs.now.bends.items + 1 }
    requires fewest { HasFewest (length runs.now.bends.items) (MayBeOne runs.now.tol runs.now.bends.items)
        (from + 1) counts.now }
    requires costs { AreLeastCosts (length runs.now.bends.items)
        (MayBeOne runs.now.tol runs.now.bends.items) (run_penalty runs.now.bends.items) (from + 1) costs.now }
    requires joined { IsJoinedRun runs.now.bends.items from joined.old }
    ensures count { IsFewestFrom (length runs.now.bends.items)
        (MayBeOne runs.now.tol runs.now.bends.items) from result.count }
    ensures cost { IsLeastCost (length runs.now.bends.items) (MayBeOne runs.now.tol runs.now.bends.items)
        (run_penalty runs.now.bends.items) from result.cost }
    ensures next { IsLeastNext (length runs.now.bends.items) (MayBeOne runs.now.tol runs.now.bends.items)
        (run_penalty runs.now.bends.items) from result.next }
    ensures joined { IsJoinedRun runs.now.bends.items from joined.new }
{
    let last = last_from(&runs.bends, from as usize);
    let mut best = way_by(counts, costs, from + 1);
    for to in (from + 2..last + 1).rev() {
        best = better(runs, from, way_by(counts, costs, to), best, joined);
    }
    best
}

/// The end of the longest run that may begin at this piece: the pieces after it no longer go round, or the run would
/// have more than 64 pieces.
fn last_from(bends: &[Bend], from: usize) -> u32
    requires small { All IsWorkable bends.now }
    requires most { length bends.now ≤ 2 ^ 31 }
    requires within { from < length bends.now }
    ensures { IsLastRun bends.now from result }
{
    let end = bends.len().min(from + 64);
    let run = &bends[from..end];
    let count = round_count(Sense::of(run[0].turn), run[0].arrives, run);
    (from + count.max(1)) as u32
}

/// The way on by a run that ends at `to`, without the penalty of that run.
fn way_by(counts: &[u32], costs: &[u128], to: u32) -> WayOn
    requires count { to < length counts.now }
    requires cost { to < length costs.now }
    requires few { slice_index counts.now to ≤ 2 ^ 31 }
    ensures count { result.count ≡ slice_index counts.now to + 1 }
    ensures cost { result.cost ≡ slice_index costs.now to }
    ensures next { result.next ≡ to }
{
    WayOn {
        count: counts[to as usize] + 1,
        cost: costs[to as usize],
        next: to,
    }
}

/// The better one of `best` and the way on by a run that ends at `way.next`. `way` doesn't include the penalty of that
/// run. If the run is better, its piece is stored in `joined`.
//
// A way that isn't better even without the penalty is ruled out before the run is examined.
fn better(runs: &Runs, from: u32, way: WayOn, best: WayOn, joined: &mut JoinedRun) -> WayOn
    requires from { from < length runs.now.bends.items }
    requires onwards { from + 1 < way.next }
    requires within { way.next ≤ length runs.now.bends.items }
    requires few { way.next ≤ from + 64 }
    requires round { All (GoesRound (sense_at (slice_range runs.now.bends.items from way.next))
        (first_bend (slice_range runs.now.bends.items from way.next)).arrives)
        (slice_range runs.now.bends.items from way.next) }
    requires small { way.cost < 2 ^ 88 }
    requires joined { IsJoinedRun runs.now.bends.items from joined.old }
    ensures one { (result ≡ best) ⊎ (MayBeOne runs.now.tol runs.now.bends.items from way.next
        × (result ≡ paid (run_penalty runs.now.bends.items from way.next) way)) }
    ensures best { IsNotBehind result best }
    ensures run { MayBeOne runs.now.tol runs.now.bends.items from way.next
        → IsNotBehind result (paid (run_penalty runs.now.bends.items from way.next) way) }
    ensures joined { IsJoinedRun runs.now.bends.items from joined.new }
{
    if !way.is_before(best) {
        return best;
    }
    let limit = limit_of(way, best);
    let Some((piece, penalty)) = joined_round(runs.tol, &runs.run(from, way.next), limit) else {
        return best;
    };
    let way = WayOn {
        count: way.count,
        cost: way.cost + u128::from(penalty),
        next: way.next,
    };
    if !way.is_before(best) {
        return best;
    }
    *joined = JoinedRun {
        to: way.next,
        piece,
    };
    way
}

/// The greatest penalty with which a way on may still be better than `best`.
fn limit_of(way: WayOn, best: WayOn) -> u64
    requires { IsNotBehind way best }
    ensures { (penalty : ℕ) → penalty < 2 ^ 56 → result < penalty → IsNotBehind best (paid penalty way) }
{
    if way.count < best.count {
        return u64::MAX;
    }
    let rest = best.cost - way.cost;
    rest.min(u128::from(u64::MAX)) as u64
}
