//! Where windows begin.
ghost use Rattle.std.specs.Prelude.{◌≡◌, ℕ, ◌+◌, ◌<◌, ◌≤◌, length, slice_index, OnOk, IfOk};
ghost use Rattle.polygon_search.specs.Inner.Search.{AreWindowEnds, BeginsWindow, counts_of};
ghost use Rattle.polygon_search.specs.Inner.VertexBounds.{AreWindowBegins};

use crate::segments::Segments;
use pt_core::NoMemory;

/// So many segments for each point of the path, or more, and bounds are worth their price.
const WORTH: u64 = 64;

/// Writes down the first points of the windows that end with these.
//
// From the end down: a window begins with the first point whose longest segment reaches the next one.
pub(crate) fn fill_begins(
    segments: &Segments,
    farthest: &[u32],
    begins: &mut Vec<u32>,
) -> Result<(), NoMemory>
    requires ends { AreWindowEnds (length segments.now.moments.now) segments.now.lasts.items farthest.now }
    ensures { OnOk result (AreWindowBegins (length segments.now.moments.now) segments.now.lasts.items begins.new.items farthest.now) }
{
    begins.clear();
    begins.resize(farthest.len(), segments.lasts.len() as u32)?;
    for window in (0..farthest.len() - 1).rev() {
        begins[window] = begin_before(segments, farthest[window], begins[window + 1]);
    }
    Ok(())
}

/// The first of the points up to `end` whose longest segment reaches a point, where that of `end` does.
fn begin_before(segments: &Segments, end: u32, reached: u32) -> u32
    requires end { end < length segments.now.moments.now }
    requires reaches { reached ≤ slice_index segments.now.lasts.items end }
    ensures near { result ≤ end }
    ensures reaches { reached ≤ slice_index segments.now.lasts.items result }
    ensures first { (k : ℕ) → k < result → slice_index segments.now.lasts.items k < reached }
{
    let mut begin = end;
    while begin > 0 && reached <= segments.lasts[begin as usize - 1] {
        begin -= 1;
    }
    begin
}

/// Whether so many segments lead from window to window that bounds are worth their price.
pub(crate) fn is_worth(begins: &[u32], farthest: &[u32], points: usize) -> bool {
    let mut segments = 0u64;
    let mut before = 1u64;
    for (begin, end) in begins.iter().zip(farthest) {
        let width = u64::from(end.saturating_sub(*begin)) + 1;
        segments = segments.saturating_add(width.saturating_mul(before));
        before = width;
    }
    WORTH.saturating_mul(points as u64) <= segments
}
