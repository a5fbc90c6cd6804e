//! What some polygon costs: a limit for the search.
//!
//! Of each window a few vertices are taken, those of the least bounds in parts of it and its first one, and the best
//! polygon through such vertices is found. Nothing is proved of it: any number will do for a limit.
ghost use Rattle.std.specs.Prelude.{◌≡◌, ℕ, ◌+◌, ◌<◌, ◌≤◌, ◌^◌, length, slice_index};
ghost use Rattle.polygon_search.specs.declared.limit.TheConstants.{PARTS};
ghost use Rattle.polygon_search.specs.Inner.VertexBounds.{AreWindowBegins};

use crate::bounds::{Bound, FAR};
use crate::segments::Segments;

/// In so many parts of a window the vertex of the least bound is taken.
const PARTS: usize = 16;

/// So many vertices are taken of a window.
const CHOSEN: usize = PARTS + 1;

/// Some vertices of a window, and what the cheapest polygons cost from them on.
#[derive(Clone, Copy)]
struct Chosen {
    at: [u32; CHOSEN],
    costs: [u64; CHOSEN],
}

/// What some polygon costs, or nearly 2^56. A list is given to it that has room for a number of each point.
pub(crate) fn likely_limit(
    segments: &Segments,
    begins: &[u32],
    farthest: &[u32],
    bounds: &[Bound],
    rears: &mut [u64],
) -> u64
    requires places { length segments.now.moments.now + 1 ≤ length bounds.now }
    requires rear_places { length segments.now.moments.now + 1 ≤ length rears.old }
    requires windows { AreWindowBegins (length segments.now.moments.now) segments.now.lasts.items begins.now farthest.now }
{
    let size = segments.lasts.len();
    rears[size] = 0;
    let mut chosen = Chosen {
        at: [size as u32; CHOSEN],
        costs: [0; CHOSEN],
    };
    for window in (0..farthest.len() - 1).rev() {
        let begin = begins[window];
        let end = farthest[window];
        fill_rears(segments, begin, end, begins[window + 1], bounds, rears);
        let at = chosen_of(begin, end, bounds, rears);
        let mut costs = [FAR; CHOSEN];
        for k in 0..CHOSEN {
            costs[k] = cheapest_by(segments, at[k], bounds, &chosen);
        }
        chosen = Chosen { at, costs };
    }
    chosen.costs[0]
}

/// Writes down what polygons pay at least from the points from `begin` to `end` on, where the next window begins at a point and
/// has these numbers.
//
// No segment of a point reaches farther than that of the next one. So each point of the next window is looked at once.
fn fill_rears(
    segments: &Segments,
    begin: u32,
    end: u32,
    next: u32,
    bounds: &[Bound],
    rears: &mut [u64],
)
    requires order { begin ≤ end }
    requires inside { end < length segments.now.moments.now }
    requires places { length segments.now.moments.now + 1 ≤ length bounds.now }
    requires rear_places { length segments.now.moments.now + 1 ≤ length rears.old }
    ensures { length rears.new ≡ length rears.old }
{
    let mut least = u64::MAX;
    let mut at = next;
    for from in begin..end + 1 {
        let last = segments.lasts[from as usize];
        while at <= last {
            let behind = u64::from(bounds[at as usize].behind);
            least = least.min(behind.saturating_add(rears[at as usize]));
            at += 1;
        }
        let ahead = u64::from(bounds[from as usize].ahead);
        rears[from as usize] = ahead.saturating_add(least);
    }
}

/// The vertex of the least bound in each of some parts of a window, and its first one.
//
// From each vertex a segment leads to the first one of the next window. So there is always some polygon.
fn chosen_of(begin: u32, end: u32, bounds: &[Bound], rears: &[u64]) -> [u32; CHOSEN]
    requires order { begin ≤ end }
    requires few { end ≤ 2 ^ 31 }
    requires places { end < length bounds.now }
    requires rear_places { end < length rears.now }
    ensures { (k : ℕ) → slice_index result k ≤ end }
{
    let mut at = [begin; CHOSEN];
    let width = u64::from(end - begin) + 1;
    for k in 0..PARTS {
        let low = part_of(begin, width, k as u64);
        let high = part_of(begin, width, k as u64 + 1);
        at[k] = least_bound(low, high.max(low + 1), bounds, rears);
    }
    at
}

/// Where this part of so many points begins.
fn part_of(begin: u32, width: u64, part: u64) -> u32
    requires part { part ≤ PARTS }
    requires few { begin + width < 2 ^ 32 }
    ensures beyond { begin ≤ result }
    ensures within { result ≤ begin + width }
    ensures before { part < PARTS → 0 < width → result < begin + width }
{
    begin + (width * part / PARTS as u64) as u32
}

/// The point from `low` to before `high` through which polygons pay least, by what they have paid there and pay from there on.
fn least_bound(low: u32, high: u32, bounds: &[Bound], rears: &[u64]) -> u32
    requires some { low < high }
    requires places { high ≤ length bounds.now }
    requires rear_places { high ≤ length rears.now }
    ensures { result < high }
{
    let mut best = low;
    let mut least = u64::MAX;
    for k in low..high {
        let sum = bounds[k as usize].floor.saturating_add(rears[k as usize]);
        if sum < least {
            best = k;
            least = sum;
        }
    }
    best
}

/// What the cheapest polygon costs from a point on that goes on through one of the chosen ones.
//
// A penalty takes as long as a dozen bounds. So none is worked out where the bounds show that it is too dear.
fn cheapest_by(segments: &Segments, from: u32, bounds: &[Bound], chosen: &Chosen) -> u64
    requires start { from < length segments.now.moments.now }
    requires places { length segments.now.moments.now + 1 ≤ length bounds.now }
{
    let last = segments.lasts[from as usize];
    let ahead = u64::from(bounds[from as usize].ahead);
    let mut least = FAR;
    for k in 0..CHOSEN {
        let to = chosen.at[k];
        if from < to && to <= last {
            let rest = chosen.costs[k];
            let halves = ahead + u64::from(bounds[to as usize].behind);
            if rest.saturating_add(halves) < least {
                least = least.min(rest.saturating_add(segments.moments.penalty(from, to)));
            }
        }
    }
    least
}
