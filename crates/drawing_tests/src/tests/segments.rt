//! Segments of polygons, as arguments for the calls that are tested.
ghost use Rattle.std.specs.Prelude.{◌≡◌, ◌+◌, ◌-◌, ◌≤◌, ◌<◌, ◌^◌, IsTrue, length};
ghost use Rattle.pt_core.specs.OnPage.{AreOnPage};
ghost use Rattle.vertex_adjust.specs.Line.{AreSums};
ghost use Rattle.vertex_adjust.specs.Vertex.{IsPolygonAlong, IsSegmentOf, segment_end_of};

use prefix_moments::{Moments, Sums};
use pt_core::{MOST_STEPS, Point};

/// Whether these are the indices of a polygon of the points.
pub(super) fn is_polygon(points: &[Point], at: &[u32]) -> bool
    ensures { IsTrue result → IsPolygonAlong points.now at.now }
{
    if at.is_empty() || 1 << 31 < points.len() {
        return false;
    }
    for k in 0..at.len() {
        if !is_segment(points, at, k) {
            return false;
        }
    }
    true
}

/// Whether segment number `k` is a run of the path, of at most one lap.
fn is_segment(points: &[Point], at: &[u32], k: usize) -> bool
    requires few { length points.now ≤ 2 ^ 31 }
    requires segment { k < length at.now }
    ensures { IsTrue result → IsSegmentOf points.now at.now k }
{
    let size = points.len() as u64;
    let start = u64::from(at[k]);
    let end = if k + 1 < at.len() {
        u64::from(at[k + 1])
    } else {
        size + u64::from(at[0])
    };
    start < size && start < end && end - start <= u64::from(MOST_STEPS) && end - start <= size
}

/// The sums of a segment, as `line_of` takes them.
pub(super) fn segment_sums(points: &[Point], moments: &Moments, i: u32, j: u32) -> Sums
    requires on_page { AreOnPage points.now }
    requires moments { moments.now ≡ points.now }
    requires start { i < length points.now }
    requires onwards { i < j }
    requires steps { j - i ≤ MOST_STEPS }
    requires lap { j - i ≤ length points.now }
    ensures { AreSums result }
{
    moments.sums(i, j)
}
