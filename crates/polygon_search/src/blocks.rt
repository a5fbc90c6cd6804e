//! The cheapest segment from a point into a broad window, whose points are left out by blocks.
//!
//! What a polygon costs from point i on by way of point j of the next window is at least what the halves of the segment
//! add, ahead of i and behind j, and what the best way on from j costs. The latter two hang on j alone. So the least of
//! them is written down for each block of a window. Where that and what is ahead of i come to as much as some
//! segment from i costs, no segment to the block is looked at.
ghost use Rattle.std.specs.Prelude.{◌≡◌, ℕ, ◌+◌, ◌-◌, ◌*◌, ◌<◌, ◌≤◌, ◌^◌, length, slice_index};
ghost use Rattle.std.specs.Int.{IsPowerOfTwo};
ghost use Rattle.polygon_search.specs.declared.blocks.TheConstants.{BLOCK};
ghost use Rattle.polygon_search.specs.Inner.BlockLeasts.{AreLeasts, left_at};
ghost use Rattle.polygon_search.specs.Inner.Search.{HasCheapest, IsCheaperIn, slot_of};
ghost use Rattle.polygon_search.specs.Polygon.{penalty_of};

use crate::bounds::Bound;
use crate::search::{OnwardSegment, cheaper_by, cheaper_far_beyond, onward_by, slot};
use crate::segments::Segments;
use prefix_moments::{Growing, Receding, Roots};

/// So many points of a window are a block.
pub(crate) const BLOCK: u32 = 16;

/// Writes down, for each block of the points from `begin` to `last`, what is left from one of them at least: what the second
/// half of a segment to it adds, and what the best way on costs.
pub(crate) fn fill_leasts(
    begin: u32,
    last: u32,
    bounds: &[Bound],
    costs: &[u64],
    leasts: &mut [u64],
)
    requires order { begin ≤ last }
    requires few { last ≤ 2 ^ 31 }
    requires places { last < length bounds.now }
    requires slots { IsPowerOfTwo (length costs.now) }
    requires blocks { last - begin < BLOCK * length leasts.old }
    ensures places { length leasts.new ≡ length leasts.old }
    ensures leasts { AreLeasts (left_at bounds.now costs.now) 0 begin (last + 1) leasts.new }
{
    for block in 0..(last - begin) / BLOCK + 1 {
        let from = begin + block * BLOCK;
        leasts[block as usize] = least_left(from, (from + BLOCK).min(last + 1), bounds, costs);
    }
}

/// What is left at least from one of the points from `from` to before `stop`.
fn least_left(from: u32, stop: u32, bounds: &[Bound], costs: &[u64]) -> u64
    requires places { stop ≤ length bounds.now }
    requires slots { IsPowerOfTwo (length costs.now) }
    ensures { (k : ℕ) → from ≤ k → k < stop → result ≤ left_at bounds.now costs.now k }
{
    let mut least = u64::MAX;
    for at in from..stop {
        let behind = u64::from(bounds[at as usize].behind);
        least = least.min(behind.saturating_add(costs[slot(costs, at as usize)]));
    }
    least
}

/// The same as `cheapest_from` finds, in a window of which so much is left from each block at least, where a segment costs
/// no more than `most` with what is left; else one that costs more.
#[inline(never)]
pub(crate) fn cheapest_by_blocks(
    segments: &Segments,
    nearest: Receding,
    guess: u32,
    most: u64,
    ahead: u32,
    leasts: &[u64],
    costs: &[u64],
    roots: &mut Roots,
) -> OnwardSegment
    requires nearest { nearest.moments.now ≡ segments.now.moments.now }
    requires some { nearest.to ≤ slice_index segments.now.lasts.items nearest.from }
    requires lap { slice_index segments.now.lasts.items nearest.from < length segments.now.moments.now }
    requires slots { IsPowerOfTwo (length costs.now) }
    requires small { (k : ℕ) → nearest.to ≤ k → k ≤ slice_index segments.now.lasts.items nearest.from
        → slice_index costs.now (slot_of (length costs.now) k) < 2 ^ 56 }
    requires most { most < 2 ^ 56 }
    requires blocks { slice_index segments.now.lasts.items nearest.from - nearest.to < BLOCK * length leasts.now }
    requires leasts { AreLeasts
        (λ k. penalty_of segments.now.moments.now nearest.from k + slice_index costs.now (slot_of (length costs.now) k))
        ahead nearest.to (slice_index segments.now.lasts.items nearest.from + 1) leasts.now }
    ensures cheapest { result.cost ≤ most → HasCheapest
        (λ k. penalty_of segments.now.moments.now nearest.entry.from k + slice_index costs.now (slot_of (length costs.now) k))
        nearest.entry.to (slice_index segments.now.lasts.items nearest.entry.from + 1) result }
    ensures none { most < result.cost → (k : ℕ) → nearest.entry.to ≤ k → k ≤ slice_index segments.now.lasts.items nearest.entry.from
        → most < penalty_of segments.now.moments.now nearest.entry.from k + slice_index costs.now (slot_of (length costs.now) k) }
{
    let from = nearest.from;
    let begin = nearest.to;
    let last = segments.lasts[from as usize];
    let to = guess.max(begin).min(last);
    let guessed = Growing::in_lap(segments.moments, segments.points, from, to);
    let tried = onward_by(segments, &guessed, costs, roots);
    // A nearer one that costs as much is better.
    let mut best = OnwardSegment {
        cost: tried.cost.min(most) + 1,
        next: to,
    };
    let blocks = (last - begin) / BLOCK + 1;
    let mut block = 0;
    loop {
        let limit = best.cost.saturating_sub(u64::from(ahead));
        let low = next_cheap(leasts, block, blocks, limit);
        if low == blocks {
            return best;
        }
        block = next_dear(leasts, low, blocks, limit);
        let stop = (begin + block * BLOCK).min(last + 1);
        best = cheaper_between(
            segments,
            from,
            begin + low * BLOCK,
            stop,
            costs,
            best,
            roots,
        );
    }
}

/// The first one of these blocks, from `block` on, of which less than this is left; or how many there are.
#[inline(always)]
fn next_cheap(leasts: &[u64], block: u32, blocks: u32, limit: u64) -> u32
    requires order { block ≤ blocks }
    requires places { blocks ≤ length leasts.now }
    ensures order { block ≤ result }
    ensures within { result ≤ blocks }
    ensures dear { (b : ℕ) → block ≤ b → b < result → limit ≤ slice_index leasts.now b }
{
    let mut next = block;
    while next < blocks && limit <= leasts[next as usize] {
        next += 1;
    }
    next
}

/// The first one of these blocks, behind `block`, of which no less than this is left; or how many there are.
#[inline(always)]
fn next_dear(leasts: &[u64], block: u32, blocks: u32, limit: u64) -> u32
    requires order { block < blocks }
    requires places { blocks ≤ length leasts.now }
    ensures order { block < result }
    ensures within { result ≤ blocks }
{
    let mut next = block + 1;
    while next < blocks && leasts[next as usize] < limit {
        next += 1;
    }
    next
}

/// The cheapest segment from a point to one of the points from `begin` to before `stop`, and of several the shortest; or
/// `best`, where none of them is cheaper.
fn cheaper_between(
    segments: &Segments,
    from: u32,
    begin: u32,
    stop: u32,
    costs: &[u64],
    best: OnwardSegment,
    roots: &mut Roots,
) -> OnwardSegment
    requires onwards { from < begin }
    requires some { begin < stop }
    requires ends { stop ≤ slice_index segments.now.lasts.items from + 1 }
    requires lap { stop ≤ length segments.now.moments.now }
    requires slots { IsPowerOfTwo (length costs.now) }
    ensures { IsCheaperIn
        (λ k. penalty_of segments.now.moments.now from k + slice_index costs.now (slot_of (length costs.now) k))
        begin stop best result }
{
    let segment = Growing::in_lap(segments.moments, segments.points, from, begin);
    let rest = costs[slot(costs, begin as usize)];
    let first = cheaper_by(segments, &segment, rest, best, false, roots);
    cheaper_far_beyond(segments, &segment, stop, costs, first, roots)
}
