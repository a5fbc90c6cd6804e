//! Whether paths are copies of each other.
ghost use Rattle.std.specs.Prelude.{◌≡◌, ◌<◌, ◌-ℤ◌, ◌↔◌, IsTrue, length};
ghost use Rattle.path_copies.specs.Copy.{IsCopy};

use pt_core::Point;

/// Whether two paths are copies of each other.
//
// All points are looked at, also behind one that lies elsewhere: so nothing hangs on a point that comes before, and the
// compiler takes four at once.
pub(crate) fn is_copy(points: &[Point], other: &[Point]) -> bool
    requires { 0 < length other.now }
    ensures { IsTrue result ↔ IsCopy points.now other.now }
{
    if points.len() != other.len() {
        return false;
    }
    let mut are_alike = true;
    for k in 0..points.len() {
        are_alike &= lie_alike(points[0], other[0], points[k], other[k]);
    }
    are_alike
}

/// Whether the second two points lie as far from each other as the first two.
#[inline(always)]
fn lie_alike(first: Point, start: Point, point: Point, copy: Point) -> bool
    ensures { IsTrue result ↔ (copy.x -ℤ point.x ≡ start.x -ℤ first.x) × (copy.y -ℤ point.y ≡ start.y -ℤ first.y) }
{
    is_as_far_right(first, start, point, copy) & is_as_far_above(first, start, point, copy)
}

/// Whether they lie as far to the right.
#[inline(always)]
fn is_as_far_right(first: Point, start: Point, point: Point, copy: Point) -> bool
    ensures { IsTrue result ↔ (copy.x -ℤ point.x ≡ start.x -ℤ first.x) }
{
    if between(point.x, copy.x) != between(first.x, start.x) {
        return false;
    }
    true
}

/// Whether they lie as far above.
#[inline(always)]
fn is_as_far_above(first: Point, start: Point, point: Point, copy: Point) -> bool
    ensures { IsTrue result ↔ (copy.y -ℤ point.y ≡ start.y -ℤ first.y) }
{
    if between(point.y, copy.y) != between(first.y, start.y) {
        return false;
    }
    true
}

/// How far one coordinate lies from another.
#[inline(always)]
fn between(from: i32, to: i32) -> i64
    ensures { result ≡ to -ℤ from }
{
    i64::from(to) - i64::from(from)
}
