//! Possible segments, tested by the criterion over all triples of points, in whole numbers.
ghost use Rattle.std.specs.Prelude.{◌≤◌, ◌<◌, length};

use pt_core::Point;

/// Whether the segment from point `i` to point `j` is possible.
pub fn is_possible(points: &[Point], i: usize, j: usize) -> bool {
    let size = points.len();
    if j <= i || 100_000 < j || size < 4 || 100_000 < size || size < j - i + 3 {
        return false;
    }
    is_straight(points, i + size - 1, j - i + 2)
}

/// Whether the path is straight for `count` steps from point `start`.
fn is_straight(points: &[Point], start: usize, count: usize) -> bool
    requires some { 1 ≤ length points.now }
    requires start { start < 1000000 }
    requires count { count < 1000000 }
{
    let size = points.len();
    let (mut east, mut north, mut west, mut south) = (false, false, false, false);
    for k in start..start + count {
        let (a, b) = (points[k % size], points[(k + 1) % size]);
        east |= b.x > a.x;
        north |= b.y > a.y;
        west |= b.x < a.x;
        south |= b.y < a.y;
    }
    if east && north && west && south {
        return false;
    }
    for i in start..start + count + 1 {
        for j in i + 1..start + count + 1 {
            for k in j + 1..start + count + 1 {
                if !is_near(points[i % size], points[j % size], points[k % size]) {
                    return false;
                }
            }
        }
    }
    true
}

/// Whether the half-line from `from` through `to` comes within 1 of `between`.
//
// At p/q of the way to `to` it does. If it comes so near anywhere, it does so at its start, or at a border of
// one of the two strips of width 2 around `between`.
fn is_near(from: Point, between: Point, to: Point) -> bool {
    let (x, y) = (
        between.x.wrapping_sub(from.x),
        between.y.wrapping_sub(from.y),
    );
    let (u, v) = (to.x.wrapping_sub(from.x), to.y.wrapping_sub(from.y));
    let parts = [
        (0i32, 1i32),
        (x.wrapping_sub(1), u),
        (x.wrapping_add(1), u),
        (y.wrapping_sub(1), v),
        (y.wrapping_add(1), v),
    ];
    for (p, q) in parts {
        let (p, q) = if q < 0 {
            (p.wrapping_neg(), q.wrapping_neg())
        } else {
            (p, q)
        };
        let off_x = q.wrapping_mul(x).wrapping_sub(p.wrapping_mul(u));
        let off_y = q.wrapping_mul(y).wrapping_sub(p.wrapping_mul(v));
        let least = q.wrapping_neg();
        if p >= 0 && q > 0 && least <= off_x && off_x <= q && least <= off_y && off_y <= q {
            return true;
        }
    }
    false
}
