//! Starts that may lie inside a path.
ghost use Rattle.std.specs.Prelude.{◌≡◌, ◌≤◌, ◌/◌, ◌%◌, false, All};
ghost use Rattle.std.specs.List.Sorted.{IsNonDecreasingBy};
ghost use Rattle.pt_core.specs.ClosedWalk.{IsClosedWalk};
ghost use Rattle.path_decompose.specs.Bounds.{IsCornerOf};
ghost use Rattle.path_tree.specs.Inner.Candidates.{is_candidate, is_held};

use crate::bounds::Bounds;
use crate::marks::count_below;
use crate::starts::{PathStart, ROW};
use pt_core::Point;

/// How many starts can be tested in the time that sorting a path's upright lines takes for each of its points.
const STARTS_FOR_A_POINT: usize = 16;

/// Whether a path after path `number` may start inside this path of `points`. If the result is false, none
/// does.
//
// Most paths have no holes. Their bounds show it, so that their lines needn't be sorted. If the path's rows
// have more starts than can be tested in the time that sorting the lines takes, the result is true without a
// test.
pub(crate) fn may_hold(starts: &[PathStart], points: &[Point], number: u32) -> bool
    requires closed { IsClosedWalk points.now }
    requires corners { All (IsCornerOf 32767 32767) points.now }
    requires order { IsNonDecreasingBy (λ start. start.place) starts.now }
    ensures { result ≡ false → All (λ start. is_held number points.now start ≡ false) starts.now }
{
    if starts.is_empty() {
        return false;
    }
    let bounds = Bounds::of(points);
    let first = count_below(starts, ROW * bounds.bottom);
    let from_bottom = &starts[first..];
    let count = count_below(from_bottom, ROW * (bounds.top + 1));
    if count / STARTS_FOR_A_POINT > points.len() {
        return true;
    }
    has_candidate(&from_bottom[..count], bounds, number)
}

/// Whether any of the starts belongs to a later path and lies in a column within the bounds.
fn has_candidate(starts: &[PathStart], bounds: Bounds, number: u32) -> bool
    ensures { result ≡ false → All (λ start. is_candidate number bounds start ≡ false) starts.now }
{
    for start in starts {
        if is_candidate(*start, bounds, number) {
            return true;
        }
    }
    false
}

/// Whether a start belongs to a later path and lies in a column within the bounds.
fn is_candidate(start: PathStart, bounds: Bounds, number: u32) -> bool
    ensures { result ≡ is_candidate number bounds start }
{
    let column = start.place % ROW;
    number < start.path && bounds.left <= column && column < bounds.right
}
