//! The triangle of a vertex and its neighbours.
//!
//! Coordinates lie within 2^25 of each other, so that products of two differences are at most 2^50.
ghost use Rattle.std.specs.Prelude.{◌≡◌, ◌≤◌, ◌^◌, ◌-ℤ◌, ◌*ℤ◌, unsigned_abs};
ghost use Rattle.corner_smooth.specs.Corner.{IsInReach, IsNearWidePage, area_of, grid_distance_of};

use pt_core::Point;

/// Twice the triangle's area, in units of 1/1024 pixel each way.
pub(crate) fn area(before: Point, at: Point, after: Point) -> u64
    requires before { IsNearWidePage before }
    requires at { IsNearWidePage at }
    requires after { IsNearWidePage after }
    ensures value { result ≡ area_of before at after }
    ensures most { result ≤ 2 ^ 51 }
{
    let across = product(between(before.x, at.x), between(before.y, after.y));
    let along = product(between(before.y, at.y), between(before.x, after.x));
    (across - along).unsigned_abs()
}

/// How far the vertex's neighbours are from each other, along the columns and along the rows.
pub(crate) fn distance(before: Point, after: Point) -> u64
    requires before { IsNearWidePage before }
    requires after { IsNearWidePage after }
    ensures value { result ≡ grid_distance_of before after }
    ensures most { result ≤ 2 ^ 26 }
{
    between(before.x, after.x).unsigned_abs() + between(before.y, after.y).unsigned_abs()
}

/// How far one coordinate lies from another.
pub(crate) fn between(from: i32, to: i32) -> i64
    requires from { IsInReach from }
    requires to { IsInReach to }
    ensures value { result ≡ to -ℤ from }
    ensures most { unsigned_abs result ≤ 2 ^ 25 }
{
    i64::from(to) - i64::from(from)
}

/// The product of two differences of coordinates.
fn product(a: i64, b: i64) -> i64
    requires a { unsigned_abs a ≤ 2 ^ 25 }
    requires b { unsigned_abs b ≤ 2 ^ 25 }
    ensures value { result ≡ a *ℤ b }
    ensures most { unsigned_abs result ≤ 2 ^ 50 }
{
    a * b
}
