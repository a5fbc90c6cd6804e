//! The lines between the corners of a path.
ghost use Rattle.std.specs.Prelude.{◌≡◌};
ghost use Rattle.boundary_edges.specs.Inside.{line_between};
ghost use Rattle.boundary_edges.specs.Inner.GridEdges.{place_of};

use pt_core::Point;

/// The column and the row of the line between two corners one step apart, where it is upright.
pub fn upright_between(from: Point, to: Point) -> Option<(u32, u32)>
    ensures { result ≡ place_of (line_between from to) }
{
    let x = from.x.unsigned_abs();
    if x == to.x.unsigned_abs() {
        Some((x, from.y.unsigned_abs().min(to.y.unsigned_abs())))
    } else {
        None
    }
}
