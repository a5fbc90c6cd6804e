//! A segment that is made longer point by point.
ghost use Rattle.std.specs.Prelude.{◌≡◌, ℕ, ◌+◌, ◌-◌, ◌*◌, ◌/◌, ◌<◌, ◌≤◌, ◌^◌, ◌+ℤ◌, ◌-ℤ◌, ◌*ℤ◌, ◌≤ℤ◌, pos, true, false, unsigned_abs, length, IfSome, IfNone};
ghost use Rattle.std.specs.Int.{int_wrap, w64};
ghost use Rattle.pt_core.specs.ClosedWalk.{point_at};
ghost use Rattle.pt_core.specs.OnPage.{AreOnPage, IsOnPage};
ghost use Rattle.pt_core.specs.declared.limits.TheConstants.{LONGEST_SIDE, MOST_STEPS};
ghost use Rattle.prefix_moments.specs.Inner.Table.{spread_by};
ghost use Rattle.prefix_moments.specs.Sums.{above_of, rightward_of, spread_of, sums_of, IsPenalty};

use crate::moments::{Moments, between};
use crate::raw::offset_product;
use crate::receding::Receding;
use crate::roots::Roots;
use crate::start::{is_reached, mean_root};
use pt_core::{LONGEST_SIDE, MOST_STEPS, Point};

/// A segment from one point of a path, for whoever asks for it with each longer one in a row: a point more is three
/// products, where the sums over any segment are looked up in two rows and taken to its first point by ten.
#[derive(Clone, Copy)]
pub struct Growing<'a> {
    pub moments: &'a Moments<'a>,
    /// The number of its first point.
    pub from: u32,
    /// And of its last one.
    pub to: u32,
    first: Point,
    /// The number of its points.
    count: u64,
    /// How far the last point lies to the right of the first one, and above it.
    right: i64,
    above: i64,
    /// The sums of the squares of such offsets, of all of its points, and of their products.
    xx: i64,
    xy: i64,
    yy: i64,
    ghost point: { from < length moments.now },
    ghost onwards: { from < to },
    ghost steps: { to - from ≤ MOST_STEPS },
    ghost lap: { to - from ≤ length moments.now },
    ghost on_page: { AreOnPage moments.now },
    ghost first_on_page: { IsOnPage first },
    ghost first_is: { first ≡ point_at moments.now from },
    ghost count_is: { count ≡ to - from + 1 },
    ghost right_is: { right ≡ rightward_of moments.now from to },
    ghost above_is: { above ≡ above_of moments.now from to },
    ghost xx_is: { xx ≡ (sums_of moments.now from to).xx },
    ghost xy_is: { xy ≡ (sums_of moments.now from to).xy },
    ghost yy_is: { yy ≡ (sums_of moments.now from to).yy },
}

impl<'a> Growing<'a> {
    /// The same segment as one that grows at its start.
    #[inline(always)]
    pub fn of(segment: Receding<'a>) -> Growing<'a>
        ensures moments { result.moments.now ≡ segment.entry.moments.now }
        ensures from { result.from ≡ segment.entry.from }
        ensures to { result.to ≡ segment.entry.to }
    {
        let first = segment.first;
        let last = segment.last;
        let sums = segment.sums;
        Growing {
            moments: segment.moments,
            from: segment.from,
            to: segment.to,
            first,
            count: u64::from(segment.to - segment.from + 1),
            right: between(first.x, last.x),
            above: between(first.y, last.y),
            xx: sums.xx,
            xy: sums.xy,
            yy: sums.yy,
        }
    }

    /// The segment from point number `from` to number `to`.
    pub fn between(moments: &'a Moments<'a>, from: u32, to: u32) -> Growing<'a>
        requires on_page { AreOnPage moments.now }
        requires start { from < length moments.now }
        requires onwards { from < to }
        requires steps { to - from ≤ MOST_STEPS }
        requires lap { to - from ≤ length moments.now }
        ensures moments { result.moments.now ≡ moments.now }
        ensures from { result.from ≡ from }
        ensures to { result.to ≡ to }
    {
        Growing::of(Receding::between(moments, from, to))
    }

    /// The same, where both points are in the first lap, by the list of the path's points.
    #[inline(always)]
    pub fn in_lap(moments: &'a Moments<'a>, points: &[Point], from: u32, to: u32) -> Growing<'a>
        requires on_page { AreOnPage moments.now }
        requires points { points.now ≡ moments.now }
        requires onwards { from < to }
        requires steps { to - from ≤ MOST_STEPS }
        requires lap { to < length moments.now }
        ensures moments { result.moments.now ≡ moments.now }
        ensures from { result.from ≡ from }
        ensures to { result.to ≡ to }
    {
        Growing::of(Receding::in_lap(moments, points, from, to))
    }

    /// The same segment with one point more.
    #[inline(always)]
    pub fn longer(self) -> Growing<'a>
        requires number { self.to + 1 < 2 ^ 32 }
        requires steps { self.to - self.from < MOST_STEPS }
        requires lap { self.to - self.from < length self.moments.now }
        ensures moments { result.moments.now ≡ self.entry.moments.now }
        ensures from { result.from ≡ self.entry.from }
        ensures to { result.to ≡ self.entry.to + 1 }
    {
        self.longer_by(self.moments.place(self.to + 1))
    }

    /// The same, by the place of that point.
    #[inline(always)]
    pub fn longer_by(self, last: Point) -> Growing<'a>
        requires number { self.to + 1 < 2 ^ 32 }
        requires steps { self.to - self.from < MOST_STEPS }
        requires lap { self.to - self.from < length self.moments.now }
        requires last { last ≡ point_at self.moments.now (self.to + 1) }
        requires on_page { IsOnPage last }
        ensures moments { result.moments.now ≡ self.entry.moments.now }
        ensures from { result.from ≡ self.entry.from }
        ensures to { result.to ≡ self.entry.to + 1 }
    {
        let right = between(self.first.x, last.x);
        let above = between(self.first.y, last.y);
        Growing {
            moments: self.moments,
            from: self.from,
            to: self.to + 1,
            first: self.first,
            count: self.count + 1,
            right,
            above,
            xx: sum_with(self.xx, offset_product(right, right)),
            xy: sum_with(self.xy, offset_product(right, above)),
            yy: sum_with(self.yy, offset_product(above, above)),
        }
    }

    /// Whether its penalty is as large as a limit, where the squared cross products together are as small as those of
    /// a possible segment. No root is taken.
    #[inline(always)]
    pub fn reaches(&self, limit: u64) -> bool
        requires small { unsigned_abs (spread_of self.now.moments.now self.now.from self.now.to) < 2 ^ 48 }
        requires limit { limit ≤ 2 ^ 24 }
        ensures reached { result ≡ true → (penalty : ℕ)
            → IsPenalty self.now.moments.now self.now.from self.now.to penalty → limit ≤ penalty }
        ensures below { result ≡ false → (penalty : ℕ)
            → IsPenalty self.now.moments.now self.now.from self.now.to penalty → penalty < limit }
    {
        is_reached(self.total(), self.count(), limit)
    }

    /// Its penalty, where these are as small.
    #[inline(always)]
    pub fn penalty(&self) -> u64
        requires small { unsigned_abs (spread_of self.now.moments.now self.now.from self.now.to) < 2 ^ 48 }
        ensures { IsPenalty self.now.moments.now self.now.from self.now.to result }
    {
        mean_root(self.total(), self.count())
    }

    /// The same penalty, by the roots that were taken before.
    #[inline(always)]
    pub fn penalty_by(&self, roots: &mut Roots) -> u64
        requires small { unsigned_abs (spread_of self.now.moments.now self.now.from self.now.to) < 2 ^ 48 }
        ensures { IsPenalty self.now.moments.now self.now.from self.now.to result }
    {
        roots.root(self.total(), self.count() as u32)
    }

    /// Its penalty, where it is below a limit and the squared cross products together are as small as those of a
    /// possible segment.
    #[inline(always)]
    pub fn penalty_below(&self, limit: u64) -> Option<u64>
        requires small { unsigned_abs (spread_of self.now.moments.now self.now.from self.now.to) < 2 ^ 48 }
        requires limit { limit ≤ 2 ^ 24 }
        ensures some { IfSome result (λ penalty. IsPenalty self.now.moments.now self.now.from self.now.to penalty) }
        ensures below { IfSome result (λ penalty. penalty < limit) }
        ensures none { IfNone result ((penalty : ℕ)
            → IsPenalty self.now.moments.now self.now.from self.now.to penalty → limit ≤ penalty) }
    {
        if self.reaches(limit) {
            return None;
        }
        Some(self.penalty())
    }

    /// The number of its points.
    #[inline(always)]
    fn count(&self) -> u64
        ensures value { result ≡ self.now.to - self.now.from + 1 }
        ensures few { result ≤ MOST_STEPS + 1 }
    {
        self.count
    }

    /// The sum of the squared cross products of its points.
    #[inline(always)]
    fn total(&self) -> u64
        requires { unsigned_abs (spread_of self.now.moments.now self.now.from self.now.to) < 2 ^ 48 }
        ensures value { result ≡ unsigned_abs (spread_of self.now.moments.now self.now.from self.now.to) }
        ensures most { result < 2 ^ 48 }
    {
        wrapped_spread(self.xx, self.xy, self.yy, self.right, self.above) as u64
    }
}

/// A sum of products of offsets and one more of them.
#[inline(always)]
fn sum_with(sum: i64, product: i64) -> i64
    requires sum { unsigned_abs sum < 2 ^ 62 }
    requires product { unsigned_abs product ≤ LONGEST_SIDE * LONGEST_SIDE }
    ensures { result ≡ sum +ℤ product }
{
    sum + product
}

/// The sum of the squared cross products of some offsets with the last of them, as much of it as fits in 64 bits.
#[inline(always)]
fn wrapped_spread(xx: i64, xy: i64, yy: i64, right: i64, above: i64) -> i64
    requires right { unsigned_abs right ≤ LONGEST_SIDE }
    requires above { unsigned_abs above ≤ LONGEST_SIDE }
    ensures { result ≡ int_wrap w64 (spread_by xx xy yy right above) }
{
    let mixed = offset_product(right, above).wrapping_mul(xy);
    let squares = offset_product(above, above).wrapping_mul(xx);
    squares
        .wrapping_sub(2i64.wrapping_mul(mixed))
        .wrapping_add(offset_product(right, right).wrapping_mul(yy))
}
