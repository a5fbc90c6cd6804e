//! Sums of coordinates as they stand.
ghost use Rattle.std.specs.Prelude.{◌≡◌, ◌+◌, ◌*◌, ◌<◌, ◌≤◌, ◌^◌, ℕ, ◌+ℤ◌, ◌-ℤ◌, ◌*ℤ◌, unsigned_abs, pos};
ghost use Rattle.std.specs.Int.{int_wrap, w64};
ghost use Rattle.prefix_moments.specs.Inner.Table.{spread_by, spread_from};

use pt_core::{LONGEST_SIDE, MOST_STEPS};

/// The sums of some points' coordinates, of their squares and of their products.
#[derive(Clone, Copy)]
pub(crate) struct RawSums {
    pub(crate) x: i64,
    pub(crate) y: i64,
    pub(crate) xx: i64,
    pub(crate) xy: i64,
    pub(crate) yy: i64,
}

/// The sum of the offsets of `count` coordinates from one of them.
pub(crate) fn moved(count: u32, sum: i64, from: i64) -> i64
    requires few { count ≤ MOST_STEPS + 1 }
    requires sum { unsigned_abs sum ≤ (MOST_STEPS + 1) * LONGEST_SIDE }
    requires from { unsigned_abs from ≤ LONGEST_SIDE }
    ensures value { result ≡ sum -ℤ pos count *ℤ from }
    ensures most { unsigned_abs result ≤ 2 * (MOST_STEPS + 1) * LONGEST_SIDE }
{
    sum - i64::from(count) * from
}

/// The sum of the products of offsets from (`a`, `b`).
///
/// `products` and `others` are the sum of the products and that of the second coordinates as they
/// stand; `offsets` is the sum of the first coordinates' offsets.
pub(crate) fn moved_products(products: i64, a: i64, others: i64, b: i64, offsets: i64) -> i64
    requires products { unsigned_abs products ≤ (MOST_STEPS + 1) * LONGEST_SIDE * LONGEST_SIDE }
    requires a { unsigned_abs a ≤ LONGEST_SIDE }
    requires others { unsigned_abs others ≤ (MOST_STEPS + 1) * LONGEST_SIDE }
    requires b { unsigned_abs b ≤ LONGEST_SIDE }
    requires offsets { unsigned_abs offsets ≤ 2 * (MOST_STEPS + 1) * LONGEST_SIDE }
    ensures { result ≡ (products -ℤ a *ℤ others) -ℤ b *ℤ offsets }
{
    products - product(a, others) - product(b, offsets)
}

/// A coordinate times a sum of others.
fn product(coordinate: i64, sum: i64) -> i64
    requires coordinate { unsigned_abs coordinate ≤ LONGEST_SIDE }
    requires sum { unsigned_abs sum ≤ 2 * (MOST_STEPS + 1) * LONGEST_SIDE }
    ensures value { result ≡ coordinate *ℤ sum }
    ensures most { unsigned_abs result ≤ 2 * (MOST_STEPS + 1) * LONGEST_SIDE * LONGEST_SIDE }
{
    coordinate * sum
}

/// The sum of the squared cross products of some offsets with the offset (`right`, `above`).
///
/// A square of the latter has up to 30 bits, and a sum of squares up to 46: their product needs more
/// than 64.
pub(crate) fn spread(xx: i64, xy: i64, yy: i64, right: i64, above: i64) -> i128
    requires right { unsigned_abs right ≤ LONGEST_SIDE }
    requires above { unsigned_abs above ≤ LONGEST_SIDE }
    ensures value { result ≡ spread_by xx xy yy right above }
    ensures most { unsigned_abs result < 2 ^ 110 }
{
    wide(offset_product(above, above), xx) - 2 * wide(offset_product(right, above), xy)
        + wide(offset_product(right, right), yy)
}

/// The sum of the squared differences of the cross products from a number, of `count` points with these sums; as much
/// of it as fits in 64 bits.
pub(crate) fn wrapped_spread(sums: RawSums, count: i64, right: i64, above: i64, number: i64) -> i64
    ensures { result ≡ int_wrap w64 (spread_from sums count right above number) }
{
    let mixed = right.wrapping_mul(sums.xy).wrapping_mul(2);
    let squares = above
        .wrapping_mul(above.wrapping_mul(sums.xx).wrapping_sub(mixed))
        .wrapping_add(right.wrapping_mul(right).wrapping_mul(sums.yy));
    let products = above
        .wrapping_mul(sums.x)
        .wrapping_sub(right.wrapping_mul(sums.y));
    let rest = count
        .wrapping_mul(number)
        .wrapping_sub(products.wrapping_mul(2));
    squares.wrapping_add(number.wrapping_mul(rest))
}

/// The cross product of a place with an offset.
pub(crate) fn crossed(x: i64, y: i64, right: i64, above: i64) -> i64
    requires x { unsigned_abs x ≤ LONGEST_SIDE }
    requires y { unsigned_abs y ≤ LONGEST_SIDE }
    requires right { unsigned_abs right ≤ LONGEST_SIDE }
    requires above { unsigned_abs above ≤ LONGEST_SIDE }
    ensures { result ≡ x *ℤ above -ℤ y *ℤ right }
{
    offset_product(x, above) - offset_product(y, right)
}

/// The product of two offsets of one point.
#[inline(always)]
pub(crate) fn offset_product(a: i64, b: i64) -> i64
    requires a { unsigned_abs a ≤ LONGEST_SIDE }
    requires b { unsigned_abs b ≤ LONGEST_SIDE }
    ensures value { result ≡ a *ℤ b }
    ensures most { unsigned_abs result ≤ LONGEST_SIDE * LONGEST_SIDE }
{
    a * b
}

/// A product in 128 bits.
fn wide(a: i64, b: i64) -> i128
    requires { unsigned_abs a ≤ LONGEST_SIDE * LONGEST_SIDE }
    ensures value { result ≡ a *ℤ b }
    ensures most { unsigned_abs result ≤ 2 ^ 107 }
{
    i128::from(a) * i128::from(b)
}
