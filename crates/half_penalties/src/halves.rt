//! What each half of a segment adds to its penalty at least.
ghost use Rattle.std.specs.Prelude.{◌≡◌, ℕ, ◌+◌, ◌-◌, ◌*◌, ◌<◌, ◌≤◌, ◌^◌, ℤ, pos, ◌-ℤ◌, ◌*ℤ◌, ◌≤ℤ◌, unsigned_abs, length, IfSome, IfNone, ◌≢◌, ◌+ℤ◌};
ghost use Rattle.pt_core.specs.ClosedWalk.{IsClosedWalk, point_at};
ghost use Rattle.pt_core.specs.OnPage.{AreOnPage, IsOnPage};
ghost use Rattle.pt_core.specs.declared.limits.TheConstants.{LONGEST_SIDE, MOST_STEPS};
ghost use Rattle.prefix_moments.specs.Sums.{above_of, rightward_of};
ghost use Rattle.prefix_moments.specs.Inner.Table.{IsRawOf, without_count};
ghost use Rattle.half_penalties.specs.Inner.HalfPenalties.{along_of, GoesOneWay, IsBoundBefore, IsBoundBehind, IsSlant};
ghost use Rattle.half_penalties.specs.Inner.Products.{moved_of, products_about};

use crate::bound::bound_by;
use crate::products::Products;
use prefix_moments::{Moments, Sums};
use pt_core::{LONGEST_SIDE, MOST_STEPS, Point};

/// The segments that are cut behind one point of a path, where the path takes but two of the four directions.
#[derive(Clone, Copy)]
pub struct Halves<'a> {
    pub moments: &'a Moments<'a>,
    points: &'a [Point],
    /// The number of the first half's last point.
    pub middle: u32,
    /// The diagonal that each step brings on, or each brings back: 1 for rightwards and upwards, -1 for rightwards and
    /// downwards.
    pub slant: i64,
    ghost points_are: { points.now ≡ moments.now },
    ghost on_page: { AreOnPage moments.now },
    ghost slanted: { IsSlant slant },
}

impl<'a> Halves<'a> {
    /// The segments from point number `first` or a later one to point number `last` or an earlier one, where the path
    /// from there to there goes one way.
    ///
    /// Its two ends alone tell that: they are as far apart, along rows and columns together, as there are steps between
    /// them.
    pub fn between(
        moments: &'a Moments<'a>,
        points: &'a [Point],
        first: u32,
        middle: u32,
        last: u32,
    ) -> Option<Halves<'a>>
        requires points { points.now ≡ moments.now }
        requires closed { IsClosedWalk moments.now }
        requires on_page { AreOnPage moments.now }
        requires order { first ≤ middle }
        requires beyond { middle < last }
        requires lap { last ≤ length moments.now }
        ensures moments { IfSome result (λ halves. halves.moments.now ≡ moments.now) }
        ensures middle { IfSome result (λ halves. halves.middle ≡ middle) }
        ensures one_way { IfSome result (λ halves. (i j : ℕ) → first ≤ i → i ≤ j → j ≤ last
            → GoesOneWay moments.now halves.slant i j) }
        ensures none { IfNone result ((slant : ℤ) → IsSlant slant → ¬ GoesOneWay moments.now slant first last) }
    {
        let way = offset_between(points, first, last);
        let slant = one_way(way.right, way.above, last - first)?;
        Some(Halves {
            moments,
            points,
            middle,
            slant,
        })
    }

    /// How much the half from point number `i` to the middle adds to the penalty of each segment at least.
    pub fn before(&self, i: u32) -> u32
        requires order { i ≤ self.now.middle }
        requires steps { self.now.middle - i ≤ MOST_STEPS }
        requires inside { self.now.middle < length self.now.moments.now }
        ensures bound { IsBoundBefore self.now.moments.now self.now.slant self.now.middle i result }
        ensures small { result < 2 ^ 24 }
    {
        if i == self.middle {
            return 0;
        }
        bound_by(
            self.products_from(i, self.middle),
            self.slant,
            self.middle - i,
        )
    }

    /// How much the half from the point after the middle to point number `j` adds at least.
    pub fn behind(&self, j: u32) -> u32
        requires beyond { self.now.middle < j }
        requires steps { j - self.now.middle ≤ MOST_STEPS }
        requires lap { j ≤ length self.now.moments.now }
        requires inside { self.now.middle < length self.now.moments.now }
        ensures bound { IsBoundBehind self.now.moments.now self.now.slant self.now.middle j result }
        ensures small { result < 2 ^ 24 }
    {
        let next = self.middle + 1;
        if j == next {
            return 0;
        }
        bound_by(self.products_to(next, j), self.slant, j - next)
    }

    /// The sums over the points from number `i` to number `j`, about the former.
    fn products_from(&self, i: u32, j: u32) -> Products
        requires order { i < j }
        requires steps { j - i ≤ MOST_STEPS }
        requires lap { j ≤ length self.now.moments.now }
        ensures { result ≡ products_about self.now.moments.now i i j }
    {
        let sums = self.moments.sums(i, j);
        Products {
            xx: sums.xx,
            xy: sums.xy,
            yy: sums.yy,
        }
    }

    /// The same about the latter.
    fn products_to(&self, i: u32, j: u32) -> Products
        requires order { i < j }
        requires steps { j - i ≤ MOST_STEPS }
        requires lap { j ≤ length self.now.moments.now }
        ensures { result ≡ products_about self.now.moments.now j i j }
    {
        let way = offset_between(self.points, i, j);
        moved(self.moments.sums(i, j), way.right, way.above)
    }
}

/// How far one point of a path lies from another.
#[derive(Clone, Copy)]
struct Offset {
    right: i64,
    above: i64,
}

/// How far point number `j` of a path lies from point number `i`.
fn offset_between(points: &[Point], i: u32, j: u32) -> Offset
    requires on_page { AreOnPage points.now }
    requires some { 0 < length points.now }
    requires first { i ≤ length points.now }
    requires last { j ≤ length points.now }
    ensures right { result.right ≡ rightward_of points.now i j }
    ensures above { result.above ≡ above_of points.now i j }
    ensures right_most { unsigned_abs result.right ≤ LONGEST_SIDE }
    ensures above_most { unsigned_abs result.above ≤ LONGEST_SIDE }
{
    let from = place(points, i);
    let to = place(points, j);
    Offset {
        right: between(from.x, to.x),
        above: between(from.y, to.y),
    }
}

/// Point number `k` of a path. Behind the last point comes the first one again.
fn place(points: &[Point], k: u32) -> Point
    requires on_page { AreOnPage points.now }
    requires some { 0 < length points.now }
    requires lap { k ≤ length points.now }
    ensures value { result ≡ point_at points.now k }
    ensures on_page { IsOnPage result }
{
    let at = k as usize;
    if at == points.len() {
        return points[0];
    }
    points[at]
}

/// How far one coordinate lies from another.
fn between(from: i32, to: i32) -> i64
    requires from_low { pos 0 ≤ℤ from }
    requires from_high { from ≤ℤ pos LONGEST_SIDE }
    requires to_low { pos 0 ≤ℤ to }
    requires to_high { to ≤ℤ pos LONGEST_SIDE }
    ensures value { result ≡ to -ℤ from }
    ensures most { unsigned_abs result ≤ LONGEST_SIDE }
{
    i64::from(to) - i64::from(from)
}

/// The diagonal along which an offset goes as far as it has steps, if it does.
fn one_way(right: i64, above: i64, steps: u32) -> Option<i64>
    requires right { unsigned_abs right ≤ LONGEST_SIDE }
    requires above { unsigned_abs above ≤ LONGEST_SIDE }
    ensures slant { IfSome result (λ slant. IsSlant slant) }
    ensures along { IfSome result (λ slant. unsigned_abs (along_of slant right above) ≡ steps) }
    ensures rising { IfNone result (unsigned_abs (right +ℤ above) ≢ steps) }
    ensures falling { IfNone result (unsigned_abs (right -ℤ above) ≢ steps) }
{
    if (right + above).unsigned_abs() == u64::from(steps) {
        return Some(1);
    }
    if (right - above).unsigned_abs() == u64::from(steps) {
        return Some(-1);
    }
    None
}

/// The sums of a segment about the point that lies so far to the right of its first one, and above it.
fn moved(sums: Sums, right: i64, above: i64) -> Products
    requires few { sums.count ≤ MOST_STEPS + 1 }
    requires small { IsRawOf (MOST_STEPS + 1) (without_count sums) }
    requires right { unsigned_abs right ≤ LONGEST_SIDE }
    requires above { unsigned_abs above ≤ LONGEST_SIDE }
    ensures { result ≡ moved_of sums right above }
{
    let x = less_product(sums.x, i64::from(sums.count), right);
    let y = less_product(sums.y, i64::from(sums.count), above);
    Products {
        xx: less_product(less_product(sums.xx, right, sums.x), right, x),
        xy: less_product(less_product(sums.xy, right, sums.y), above, x),
        yy: less_product(less_product(sums.yy, above, sums.y), above, y),
    }
}

/// A sum without a product.
fn less_product(sum: i64, a: i64, b: i64) -> i64
    requires sum { unsigned_abs sum ≤ 2 ^ 48 }
    requires a { unsigned_abs a ≤ 2 ^ 17 }
    requires b { unsigned_abs b ≤ 2 ^ 40 }
    ensures value { result ≡ sum -ℤ a *ℤ b }
{
    sum - a * b
}
