//! The best of the ways once round from several points.
//!
//! No segment from point k or before reaches past the longest one from k. So each cyclic polygon has a vertex among
//! the points after k up to there, the window after k, and it is enough to look at the ways once round from these few
//! points.
ghost use Rattle.std.specs.Prelude.{◌≡◌, ℕ, ◌+◌, ◌/◌, ◌<◌, ◌≤◌, ◌^◌, ◌↔◌, true, length, IfOk};
ghost use Rattle.std.specs.Ordering.{nat_cmp};
ghost use Rattle.std.specs.Cmp.Lexicographic.{slice_cmp};
ghost use Rattle.std.specs.declared.cmp.Ordering.TheVariants.{Less};
ghost use Rattle.straight_paths.specs.Straight.{IsPossible};
ghost use Rattle.least_walk.specs.Inner.Suffix.{IsFewestFrom};
ghost use Rattle.cyclic_optimal.specs.Cyclic.{IsLeastCyclic, round_penalty};
ghost use Rattle.cyclic_optimal.specs.Inner.Fronts.{IsBestAmong};

use crate::fronts::{fronts_by, tops};
use crate::leaps::{all_leaps, nexts};
use crate::round::{Best, best_round};
use crate::sides::WalkSegments;
use crate::windows::{narrowest, sparsest};
use pt_core::NoMemory;
use std::alloc::Global;
use std::cmp::Ordering;

/// A window of at most so many points is looked through as it stands. There is one behind each corner.
const FEW: usize = 8;

/// The least cyclic polygon.
pub(crate) fn least_polygon(alloc: Global, sides: &WalkSegments) -> Result<Best, NoMemory>
    ensures least { IfOk result (λ best. IsLeastCyclic sides.now.moments.now best.at.items) }
    ensures cost { IfOk result (λ best. best.worth / 2 ^ 32 ≡ round_penalty sides.now.moments.now best.at.items) }
{
    let point = window(alloc, sides)?;
    best_after(alloc, sides, point)
}

/// The point behind which a vertex of each cyclic polygon is looked for.
//
// A path without any corner has wide windows alone. There it is worth while to look for one with few points at which
// a polygon of fewest segments can begin.
//
// The window after the first point could hold thousands of points on a long straight side. The narrowest holds two or
// three behind each corner. On a disc with a radius of 2,000 pixels it holds 32, of which polygons of fewest segments
// begin at 29; the sparsest has 15 such points. Where so many longest segments lead tells which points these are, by
// two passes over the points for each binary digit of the number of segments. Tried and left: halving the window by
// lower bounds, which saved nothing; and lower bounds by two passes over the whole window, which leave fewer searches
// but look at more pairs themselves; and to write down the penalties that all searches from there ask for, which took
// longer than to find the few that count.
fn window(alloc: Global, sides: &WalkSegments) -> Result<usize, NoMemory>
    ensures point { IfOk result (λ point. point < length sides.now.moments.now) }
    ensures within { IfOk result (λ point. (j : ℕ) → IsPossible sides.now.moments.now point j
        → j < length sides.now.moments.now) }
{
    let narrow = narrowest(sides);
    if sides.last(narrow) - narrow <= FEW {
        return Ok(narrow);
    }
    let nexts = nexts_round(alloc, sides, narrow)?;
    sparsest(alloc, sides, &nexts, narrow)
}

/// For each point, the nearest one from which the polygon's other segments can lead round to it, where this point has
/// the narrowest window.
fn nexts_round(alloc: Global, sides: &WalkSegments, narrow: usize) -> Result<Vec<usize>, NoMemory>
    requires point { narrow < length sides.now.moments.now }
    requires within { (j : ℕ) → IsPossible sides.now.moments.now narrow j
        → j < length sides.now.moments.now }
    ensures { IfOk result (λ nexts. length nexts.items ≡ length sides.now.moments.now) }
{
    let count = fewest_among(alloc, sides, narrow + 1, sides.last(narrow) + 1)?;
    nexts(alloc, &all_leaps(alloc, sides, count.saturating_sub(1))?)
}

/// The least cyclic polygon, by the window after this point.
fn best_after(alloc: Global, sides: &WalkSegments, point: usize) -> Result<Best, NoMemory>
    requires point { point < length sides.now.moments.now }
    requires within { (j : ℕ) → IsPossible sides.now.moments.now point j
        → j < length sides.now.moments.now }
    ensures least { IfOk result (λ best. IsLeastCyclic sides.now.moments.now best.at.items) }
    ensures cost { IfOk result (λ best. best.worth / 2 ^ 32 ≡ round_penalty sides.now.moments.now best.at.items) }
{
    let best = best_among(alloc, sides, point + 1, sides.last(point) + 1)?;
    Ok(best)
}

/// The best way once round from one of the points from `low` to before `high`.
pub(crate) fn best_among(
    alloc: Global,
    sides: &WalkSegments,
    low: usize,
    high: usize,
) -> Result<Best, NoMemory>
    requires some { low < high }
    requires within { high ≤ length sides.now.moments.now }
    ensures { IfOk result (IsBestAmong sides.now.moments.now low high) }
{
    let fewest = fewest_among(alloc, sides, low, high)?;
    // No way yet: any of the fewest segments is better.
    let mut best = Best {
        count: fewest + 1,
        worth: 0,
        at: Vec::new(alloc),
    };
    let mut kept = Vec::new(alloc);
    for start in (low..high).rev() {
        let ways = tops(alloc, sides, start)?;
        if ways.len() <= fewest + 1 {
            kept = fronts_by(alloc, sides, start, &ways, &kept)?;
            let next = best_round(alloc, sides, start, &kept)?;
            best = better(best, next);
        }
    }
    Ok(best)
}

/// The fewest segments of a way once round from one of the points from `low` to before `high`.
fn fewest_among(
    alloc: Global,
    sides: &WalkSegments,
    low: usize,
    high: usize,
) -> Result<usize, NoMemory>
    requires some { low < high }
    requires within { high ≤ length sides.now.moments.now }
    ensures some { IfOk result (λ count. (s : ℕ) × (low ≤ s) × (s < high)
        × IsFewestFrom (s + length sides.now.moments.now) (IsPossible sides.now.moments.now) s count) }
{
    let mut fewest = tops(alloc, sides, low)?.len() - 1;
    for start in low + 1..high {
        fewest = fewest.min(tops(alloc, sides, start)?.len() - 1);
    }
    Ok(fewest)
}

/// The one of fewer segments, or of as many that count less, or the lower list of two that tie in both; of two that are
/// the same the former.
fn better(best: Best, next: Best) -> Best
    ensures fewer { next.count < best.count → result ≡ next }
    ensures more { best.count < next.count → result ≡ best }
    ensures lower { next.count ≡ best.count → next.worth < best.worth → result ≡ next }
    ensures higher { next.count ≡ best.count → best.worth < next.worth → result ≡ best }
    ensures first { next.count ≡ best.count → next.worth ≡ best.worth
        → slice_cmp nat_cmp next.at.items best.at.items ≡ Less → result ≡ next }
    ensures kept { next.count ≡ best.count → next.worth ≡ best.worth
        → ¬ (slice_cmp nat_cmp next.at.items best.at.items ≡ Less) → result ≡ best }
{
    if next.count < best.count
        || (next.count == best.count && next.worth < best.worth)
        || (next.count == best.count && next.worth == best.worth && is_lower(&next.at, &best.at))
    {
        next
    } else {
        best
    }
}

/// Whether the first list is lexicographically lower.
fn is_lower(next: &[u32], best: &[u32]) -> bool
    ensures { result ≡ true ↔ (slice_cmp nat_cmp next.now best.now ≡ Less) }
{
    next.cmp(best) == Ordering::Less
}
