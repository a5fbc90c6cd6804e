//! The pixels inside a path.
ghost use Rattle.std.specs.Prelude.{◌≡◌, All};
ghost use Rattle.pt_core.specs.ClosedWalk.{IsClosedWalk};
ghost use Rattle.boundary_edges.specs.Bounds.{IsCornerOf};
ghost use Rattle.boundary_edges.specs.Inside.{line_between, is_crossed, inside};

use crate::line::upright_between;
use pt_core::{Path, Point};

/// Whether pixel (x, y) is inside a path.
///
/// This is the even-odd rule of vector graphics, with two differences. It looks along the row to the
/// left and not along any ray, and an edge at column `x` counts, since it is the pixel's own left side.
pub fn inside(path: &Path, x: u32, y: u32) -> bool
    requires closed { IsClosedWalk path.now.points }
    requires corners { All (IsCornerOf 32767 32767) path.now.points }
    ensures { result ≡ inside path.now.points x y }
{
    let mut odd = false;
    if let Some((first, rest)) = path.points.as_slice().split_first() {
        let mut from = *first;
        'corners: for to in rest {
            odd = odd != is_crossed(from, *to, x, y);
            from = *to;
        }
        odd = odd != is_crossed(from, *first, x, y);
    }
    odd
}

/// Whether the line between two corners one step apart is crossed on the way along row `y` from the left
/// into pixel (x, y).
fn is_crossed(from: Point, to: Point, x: u32, y: u32) -> bool
    ensures { result ≡ is_crossed x y (line_between from to) }
{
    match upright_between(from, to) {
        Some((column, row)) => column <= x && row == y,
        None => false,
    }
}
