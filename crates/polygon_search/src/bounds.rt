//! Bounds: what is known of vertices before the search, so that most of them are left out.
//!
//! A polygon that comes to a vertex has paid as much as the vertex's floor. A segment costs at least what its two
//! halves add, and what a half adds hangs on its outer end alone. So one pass over the windows bounds each vertex,
//! where all segments between two windows are as many as the product of their points.
//!
//! ```text
//!     window     middle     next window        ahead: what the points up to the middle add at least
//!     i----------|----------j                  behind: what those beyond the middle add
//! ```
ghost use Rattle.std.specs.Prelude.{◌≡◌, ℕ, ◌+◌, ◌<◌, ◌≤◌, ◌^◌, length, slice_index, unsigned_abs, IfSome};
ghost use Rattle.pt_core.specs.ClosedWalk.{IsClosedWalk};
ghost use Rattle.prefix_moments.specs.Sums.{spread_of};
ghost use Rattle.polygon_search.specs.Polygon.{penalty_of};
ghost use Rattle.polygon_search.specs.Inner.VertexBounds.{AreBounds, AreBoundsOf, AreWindowBegins, bound_at, no_bound};
ghost use Rattle.polygon_search.specs.Inner.Joining.{AreBlank, AreChanged, IsAheadFound, IsAheadOf, IsBehindFound, IsBehindOf, IsFloorChange, IsLowered, ReachesBack, ReachesOn};

use crate::segments::Segments;
use half_penalties::Halves;
use prefix_moments::{Growing, Roots};

/// What nobody pays for a polygon: 2^56 - 1.
pub(crate) const FAR: u64 = (1 << 56) - 1;

/// In two windows with so many segments between them for each of their points, all of these are looked at.
const FEW: u64 = 16;

/// What is known of a vertex.
#[derive(Clone, Copy)]
pub(crate) struct Bound {
    /// What a polygon has paid at least when it comes there: less than 2^56.
    pub(crate) floor: u64,
    /// What the first half of each segment from there adds at least.
    pub(crate) ahead: u32,
    /// What the second half of each segment that leads there adds at least.
    pub(crate) behind: u32,
}

impl Bound {
    /// Of a vertex of which nothing is known.
    pub(crate) fn none() -> Bound
        ensures { result ≡ no_bound }
    {
        Bound {
            floor: 0,
            ahead: 0,
            behind: 0,
        }
    }
}

/// Writes down what is known of each vertex of the windows.
pub(crate) fn fill_bounds(
    segments: &Segments,
    begins: &[u32],
    farthest: &[u32],
    bounds: &mut [Bound],
    roots: &mut Roots,
)
    requires closed { IsClosedWalk segments.now.moments.now }
    requires places { length segments.now.moments.now + 1 ≤ length bounds.old }
    requires windows { AreWindowBegins (length segments.now.moments.now) segments.now.lasts.items begins.now farthest.now }
    ensures places { length bounds.new ≡ length bounds.old }
    ensures bounds { AreBounds segments.now.lasts.items begins.now farthest.now
        (penalty_of segments.now.moments.now) bounds.new }
{
    bounds.fill(Bound::none());
    for window in 0..farthest.len() - 1 {
        if are_few(begins, farthest, window) {
            join_by_segments(segments, begins, farthest, window, bounds, roots);
        } else {
            join_by_halves(segments, begins, farthest, window, bounds);
        }
    }
}

/// Whether few segments lead from this window into the next one.
fn are_few(begins: &[u32], farthest: &[u32], window: usize) -> bool
    requires begins { length begins.now ≡ length farthest.now }
    requires window { window + 1 < length farthest.now }
    requires near { (w : ℕ) → w < length farthest.now → slice_index begins.now w ≤ slice_index farthest.now w }
    requires few { (w : ℕ) → w < length farthest.now → slice_index farthest.now w ≤ 2 ^ 31 }
{
    let here = u64::from(farthest[window] - begins[window]) + 1;
    let next = u64::from(farthest[window + 1] - begins[window + 1]) + 1;
    here * next <= FEW * (here + next)
}

/// Joins this window with the next one by all segments between them.
fn join_by_segments(
    segments: &Segments,
    begins: &[u32],
    farthest: &[u32],
    window: usize,
    bounds: &mut [Bound],
    roots: &mut Roots,
)
    requires places { length segments.now.moments.now + 1 ≤ length bounds.old }
    requires windows { AreWindowBegins (length segments.now.moments.now) segments.now.lasts.items begins.now farthest.now }
    requires window { window + 1 < length farthest.now }
    requires bounds { AreBoundsOf segments.now.lasts.items begins.now farthest.now
        (penalty_of segments.now.moments.now) window bounds.old }
    requires blank { AreBlank begins.now farthest.now window bounds.old }
    ensures places { length bounds.new ≡ length bounds.old }
    ensures bounds { AreBoundsOf segments.now.lasts.items begins.now farthest.now
        (penalty_of segments.now.moments.now) (window + 1) bounds.new }
    ensures blank { AreBlank begins.now farthest.now (window + 1) bounds.new }
{
    let begin = begins[window + 1];
    raise_floors(begin, farthest[window + 1], bounds);
    for from in begins[window]..farthest[window] + 1 {
        lower_floors(segments, from, begin, bounds, roots);
    }
}

/// Sets the floors of the points from `begin` to `last` to what nobody pays.
fn raise_floors(begin: u32, last: u32, bounds: &mut [Bound])
    requires few { last ≤ 2 ^ 31 }
    requires some { begin ≤ last }
    requires places { last < length bounds.old }
    ensures { AreChanged (λ k. IsFloorChange) begin (last + 1) bounds.old bounds.new }
{
    for to in begin..last + 1 {
        bounds[to as usize].floor = FAR;
    }
}

/// Lowers the floors of the points from `begin` on to which segments from this one lead.
fn lower_floors(segments: &Segments, from: u32, begin: u32, bounds: &mut [Bound], roots: &mut Roots)
    requires start { from < length segments.now.moments.now }
    requires onwards { from < begin }
    requires reached { begin ≤ slice_index segments.now.lasts.items from }
    requires places { length segments.now.moments.now + 1 ≤ length bounds.old }
    requires paid { (bound_at bounds.old from).floor < 2 ^ 56 }
    ensures { AreChanged (λ k. IsLowered (bound_at bounds.old from).floor (penalty_of segments.now.moments.now from k))
        begin (slice_index segments.now.lasts.items from + 1) bounds.old bounds.new }
{
    let paid = bounds[from as usize].floor;
    let mut segment = Growing::between(segments.moments, from, begin);
    let last = segments.lasts[from as usize];
    lower_floor(&segment, paid, bounds, roots);
    for to in begin + 1..last + 1 {
        segment = segment.longer();
        lower_floor(&segment, paid, bounds, roots);
    }
}

/// Lowers the floor of a segment's end, where a polygon that has paid so much at its start comes there for less.
fn lower_floor(segment: &Growing, paid: u64, bounds: &mut [Bound], roots: &mut Roots)
    requires small { unsigned_abs (spread_of segment.now.moments.now segment.now.from segment.now.to) < 2 ^ 48 }
    requires cheap { penalty_of segment.now.moments.now segment.now.from segment.now.to < 2 ^ 24 }
    requires paid { paid < 2 ^ 56 }
    requires place { segment.now.to < length bounds.old }
    ensures { AreChanged (λ k. IsLowered paid (penalty_of segment.now.moments.now segment.now.from k))
        segment.now.to (segment.now.to + 1) bounds.old bounds.new }
{
    let floor = bounds[segment.to as usize].floor;
    if floor <= paid {
        return;
    }
    if segment.reaches((floor - paid).min(1 << 24)) {
        return;
    }
    bounds[segment.to as usize].floor = floor.min(paid + segment.penalty_by(roots));
}

/// Joins this window with the next one by what the halves of the segments add.
fn join_by_halves(
    segments: &Segments,
    begins: &[u32],
    farthest: &[u32],
    window: usize,
    bounds: &mut [Bound],
)
    requires closed { IsClosedWalk segments.now.moments.now }
    requires places { length segments.now.moments.now + 1 ≤ length bounds.old }
    requires windows { AreWindowBegins (length segments.now.moments.now) segments.now.lasts.items begins.now farthest.now }
    requires window { window + 1 < length farthest.now }
    requires bounds { AreBoundsOf segments.now.lasts.items begins.now farthest.now
        (penalty_of segments.now.moments.now) window bounds.old }
    requires blank { AreBlank begins.now farthest.now window bounds.old }
    ensures places { length bounds.new ≡ length bounds.old }
    ensures bounds { AreBoundsOf segments.now.lasts.items begins.now farthest.now
        (penalty_of segments.now.moments.now) (window + 1) bounds.new }
    ensures blank { AreBlank begins.now farthest.now (window + 1) bounds.new }
{
    let first = begins[window];
    let end = farthest[window];
    let begin = begins[window + 1];
    let last = farthest[window + 1];
    // Between the two windows, since the first one ends before the second begins.
    let middle = end + (begin - 1 - end) / 2;
    let halves = Halves::between(segments.moments, segments.points, first, middle, last);
    let least = fill_ahead(&halves, first, end, bounds);
    fill_behind(&halves, begin, last, least, bounds);
}

/// Writes down what is ahead of the points from `first` to `end`, and gives the least of what polygons have paid in the
/// middle.
fn fill_ahead(halves: &Option<Halves>, first: u32, end: u32, bounds: &mut [Bound]) -> u64
    requires few { end ≤ 2 ^ 31 }
    requires some { first ≤ end }
    requires places { end < length bounds.old }
    requires halves { IfSome halves.now (λ h. ReachesBack h first end) }
    requires small { (k : ℕ) → (bound_at bounds.old k).floor < 2 ^ 56 }
    ensures ahead { AreChanged (IsAheadFound halves.now result) first (end + 1) bounds.old bounds.new }
    ensures small { result < 2 ^ 56 }
{
    let mut least = FAR;
    for from in first..end + 1 {
        let ahead = ahead_of(halves, from);
        let bound = &mut bounds[from as usize];
        bound.ahead = ahead;
        least = least.min(bound.floor + u64::from(ahead));
    }
    least
}

/// Writes down what is behind the points from `begin` to `last`, and their floors, where polygons have paid so much in the
/// middle.
fn fill_behind(halves: &Option<Halves>, begin: u32, last: u32, paid: u64, bounds: &mut [Bound])
    requires few { last ≤ 2 ^ 31 }
    requires some { begin ≤ last }
    requires places { last < length bounds.old }
    requires halves { IfSome halves.now (λ h. ReachesOn h begin last) }
    requires paid { paid < 2 ^ 56 }
    ensures { AreChanged (IsBehindFound halves.now paid) begin (last + 1) bounds.old bounds.new }
{
    for to in begin..last + 1 {
        let behind = behind_of(halves, to);
        let bound = &mut bounds[to as usize];
        bound.behind = behind;
        bound.floor = FAR.min(paid + u64::from(behind));
    }
}

/// What the half from a point to the middle adds at least, where there are halves.
#[inline(always)]
fn ahead_of(halves: &Option<Halves>, from: u32) -> u32
    requires { IfSome halves.now (λ h. ReachesBack h from from) }
    ensures ahead { IsAheadOf halves.now from result }
    ensures small { result < 2 ^ 24 }
{
    match halves {
        Some(halves) => halves.before(from),
        None => 0,
    }
}

/// What the half from the middle to a point adds at least, where there are halves.
#[inline(always)]
fn behind_of(halves: &Option<Halves>, to: u32) -> u32
    requires { IfSome halves.now (λ h. ReachesOn h to to) }
    ensures behind { IsBehindOf halves.now to result }
    ensures small { result < 2 ^ 24 }
{
    match halves {
        Some(halves) => halves.behind(to),
        None => 0,
    }
}
