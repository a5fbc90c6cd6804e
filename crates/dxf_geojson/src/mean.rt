//! Weighted means of four points, which are the points of a curve.
ghost use Rattle.std.specs.Prelude.{◌≡◌, ◌+◌, ◌*◌, ◌-◌, ◌^◌, ◌≤◌, pos, ◌*ℤ◌, ◌≤ℤ◌, neg_ℤ};
ghost use Rattle.dxf_geojson.specs.Chords.{mean_of, mean_point};

use pt_core::Point;

/// The mean of four points with these weights, rounded down. The weights add up to 512.
//
// A weighted mean of four 32-bit numbers is a 32-bit number, so coordinates need no bound.
pub(crate) fn mean_point(
    i: u32,
    j: u32,
    k: u32,
    l: u32,
    p: Point,
    q: Point,
    r: Point,
    s: Point,
) -> Point
    requires { i + j + k + l ≡ 512 }
    ensures { result ≡ mean_point i j k l p q r s }
{
    Point {
        x: mean(i, j, k, l, p.x, q.x, r.x, s.x),
        y: mean(i, j, k, l, p.y, q.y, r.y, s.y),
    }
}

/// The mean of four coordinates with these weights, rounded down. The weights add up to 512.
fn mean(i: u32, j: u32, k: u32, l: u32, a: i32, b: i32, c: i32, d: i32) -> i32
    requires { i + j + k + l ≡ 512 }
    ensures { result ≡ mean_of i j k l a b c d }
{
    let sum = weighted(i, a) + weighted(j, b) + weighted(k, c) + weighted(l, d);
    sum.div_euclid(512) as i32
}

/// A coordinate times its weight.
fn weighted(weight: u32, c: i32) -> i64
    requires { weight ≤ 512 }
    ensures value { result ≡ pos weight *ℤ c }
    ensures least { neg_ℤ (pos (weight * 2147483648)) ≤ℤ result }
    ensures most { result ≤ℤ pos (weight * 2147483647) }
{
    i64::from(weight) * i64::from(c)
}
