//! The table of a path's sums.
ghost use Rattle.std.specs.Prelude.{◌≡◌, ℕ, pos, unsigned_abs, ◌-ℤ◌, ◌≤ℤ◌, ◌+◌, ◌-◌, ◌*◌, ◌/◌, ◌%◌, ◌<◌, ◌≤◌, ◌^◌, List, length, IfOk, IfSome, IfNone, IsTrue, ◌↔◌};
ghost use Rattle.pt_core.specs.ClosedWalk.{IsClosedWalk, point_at};
ghost use Rattle.pt_core.specs.Root.{IsRoot};
ghost use Rattle.pt_core.specs.OnPage.{AreOnPage, IsOnPage};
ghost use Rattle.prefix_moments.specs.Sums.{sums_of, spread_of, IsPenalty};
ghost use Rattle.prefix_moments.specs.Inner.Table.{raw_of, prefix_of, IsRawOf, IsTable, offsets_of};

use crate::prefix::Prefix;
use crate::raw::{RawSums, moved, moved_products, spread};
use crate::room::MomentsRoom;
use crate::start::mean_root;
use crate::sums::Sums;
use pt_core::{LONGEST_SIDE, MOST_STEPS, NoMemory, Point, isqrt};
use std::alloc::Global;
use std::marker::Model;

/// The most points of a path that has a row before each point.
const MOST_DENSE: usize = 1 << 12;

/// Of a longer path a row stands before one point in 2 to this power, for a quarter of the memory.
//
// Before one in 8 the table would be half as large, but in a model the sums of a segment took 1.7 times as long.
const SELDOM: u32 = 2;

/// A path's sums, for any segment of at most one lap. Contracts see the path's points.
#[derive(Debug, Drop)]
pub struct Moments<'p> {
    points: &'p [Point],
    /// The sums over the points before one point in 2 to the power `shift`, from the first one on.
    rows: Vec<Prefix>,
    shift: u32,
}

impl<'p> Model for Moments<'p> {
    ghost use Rattle.std.specs.Prelude.{List};
    ghost use Rattle.pt_core.specs.declared.point.Point.{Point};
    ghost use Rattle.prefix_moments.specs.Inner.Table.{IsTable};

    ghost Value = { List Point };

    ghost view = { λ moments. moments.points.now };

    ghost invariant = { λ moments. IsTable moments.points.now moments.shift moments.rows.items };
}

impl<'p> Moments<'p> {
    /// Sums up a closed walk on a page.
    pub fn of(alloc: Global, points: &'p [Point]) -> Result<Moments<'p>, NoMemory>
        requires closed { IsClosedWalk points.now }
        requires on_page { AreOnPage points.now }
        ensures { IfOk result (λ moments. moments ≡ points.now) }
    {
        Moments::in_room(MomentsRoom::new(alloc), points)
    }

    /// The same, in the room of another path's sums.
    pub fn in_room(room: MomentsRoom, points: &'p [Point]) -> Result<Moments<'p>, NoMemory>
        requires closed { IsClosedWalk points.now }
        requires on_page { AreOnPage points.now }
        ensures { IfOk result (λ moments. moments ≡ points.now) }
    {
        if points.len() <= MOST_DENSE {
            let rows = table(room.rows, points, 0)?;
            return Ok(Moments {
                points,
                rows,
                shift: 0,
            });
        }
        let rows = table(room.rows, points, SELDOM)?;
        Ok(Moments {
            points,
            rows,
            shift: SELDOM,
        })
    }

    /// The room of these sums, which are no longer asked.
    pub fn into_room(self) -> MomentsRoom {
        MomentsRoom { rows: self.rows }
    }

    /// How many points the path has.
    pub fn count(&self) -> usize
        ensures { result ≡ length self.now }
    {
        self.points.len()
    }

    /// The sums over the points from number `i` to number `j`.
    pub fn sums(&self, i: u32, j: u32) -> Sums
        requires start { i < length self.now }
        requires onwards { i < j }
        requires steps { j - i ≤ MOST_STEPS }
        requires lap { j - i ≤ length self.now }
        ensures { result ≡ sums_of self.now i j }
    {
        let first = self.place(i);
        let raw = self.segment(i, j);
        offsets(raw, j - i + 1, i64::from(first.x), i64::from(first.y))
    }

    /// The same, where both points are in the first lap and the first one is known.
    #[inline(always)]
    pub(crate) fn sums_in_lap(&self, first: Point, i: u32, j: u32) -> Sums
        requires first { first ≡ point_at self.now i }
        requires on_page { IsOnPage first }
        requires onwards { i < j }
        requires steps { j - i ≤ MOST_STEPS }
        requires lap { j < length self.now }
        ensures { result ≡ sums_of self.now i j }
    {
        let raw = self.segment_in_lap(i, j);
        offsets(raw, j - i + 1, i64::from(first.x), i64::from(first.y))
    }

    /// Point number `k`, in the first lap or in the second.
    pub(crate) fn place(&self, k: u32) -> Point
        requires { k < 2 * length self.now }
        ensures value { result ≡ point_at self.now k }
        ensures on_page { IsOnPage result }
    {
        self.place_in_lap(in_lap(k as usize, self.count()))
    }

    /// The same of a point in the first lap.
    #[inline(always)]
    pub(crate) fn place_in_lap(&self, k: usize) -> Point
        requires { k < length self.now }
        ensures value { result ≡ point_at self.now k }
        ensures on_page { IsOnPage result }
    {
        let points = self.points;
        points[k]
    }

    /// The coordinates' own sums over the points from number `i` to number `j`.
    fn segment(&self, i: u32, j: u32) -> RawSums
        requires start { i < length self.now }
        requires onwards { i < j }
        requires steps { j - i ≤ MOST_STEPS }
        requires lap { j - i ≤ length self.now }
        ensures value { result ≡ raw_of (λ d. point_at self.now (i + d)) (j - i + 1) }
        ensures most { IsRawOf (MOST_STEPS + 1) result }
    {
        self.row(j as usize + 1).minus(self.row(i as usize)).raw()
    }

    /// The same of points of the first lap.
    #[inline(always)]
    fn segment_in_lap(&self, i: u32, j: u32) -> RawSums
        requires onwards { i < j }
        requires steps { j - i ≤ MOST_STEPS }
        requires lap { j < length self.now }
        ensures value { result ≡ raw_of (λ d. point_at self.now (i + d)) (j - i + 1) }
        ensures most { IsRawOf (MOST_STEPS + 1) result }
    {
        let before = self.row_in_lap(i as usize);
        self.row_in_lap(j as usize + 1).minus(before).raw()
    }

    /// The sums over the first `k` points, of one lap at most.
    #[inline(always)]
    fn row_in_lap(&self, k: usize) -> Prefix
        requires { k ≤ length self.now }
        ensures value { result ≡ prefix_of self.now k }
        ensures on_page { AreOnPage self.now }
    {
        if self.shift == 0 {
            return self.rows[k];
        }
        self.row_between(k)
    }

    /// The same, where `k` may be between two rows.
    //
    // It isn't inlined, so that the sums of a short path are one look at its table.
    #[inline(never)]
    fn row_between(&self, k: usize) -> Prefix
        requires { k ≤ length self.now }
        ensures { result ≡ prefix_of self.now k }
    {
        let row = k >> self.shift;
        sums_to(self.points, row << self.shift, self.rows[row], k)
    }

    /// The sums over the first `k` points, in the first lap or in the second.
    #[inline(always)]
    pub(crate) fn row(&self, k: usize) -> Prefix
        requires { k ≤ 2 * length self.now }
        ensures value { result ≡ prefix_of self.now k }
        ensures on_page { AreOnPage self.now }
    {
        if k <= self.count() {
            self.row_in_lap(k)
        } else {
            self.row_beyond(k)
        }
    }

    /// The same, where `k` is in the second lap.
    //
    // It isn't inlined, so that most sums are one look at the table.
    #[inline(never)]
    fn row_beyond(&self, k: usize) -> Prefix
        requires beyond { length self.now ≤ k }
        requires lap { k ≤ 2 * length self.now }
        ensures value { result ≡ prefix_of self.now k }
        ensures on_page { AreOnPage self.now }
    {
        let lap = self.count();
        self.row_in_lap(lap).plus(self.row_in_lap(k - lap))
    }

    /// The penalty of the straight segment from point number `i` to number `j` in place of the
    /// path's run between them, in units of 1/256.
    pub fn penalty(&self, i: u32, j: u32) -> u64
        requires start { i < length self.now }
        requires onwards { i < j }
        requires steps { j - i ≤ MOST_STEPS }
        requires lap { j - i ≤ length self.now }
        ensures { IsPenalty self.now i j result }
    {
        root_of_mean(self.total(i, j), j - i + 1)
    }

    /// The same penalty, where it is below a limit; no root is taken where it isn't.
    pub fn penalty_below(&self, i: u32, j: u32, limit: u64) -> Option<u64>
        requires start { i < length self.now }
        requires onwards { i < j }
        requires steps { j - i ≤ MOST_STEPS }
        requires lap { j - i ≤ length self.now }
        requires limit { limit ≤ 2 ^ 56 }
        ensures some { IfSome result (λ penalty. IsPenalty self.now i j penalty) }
        ensures below { IfSome result (λ penalty. penalty < limit) }
        ensures none { IfNone result ((penalty : ℕ)
            → IsPenalty self.now i j penalty → limit ≤ penalty) }
    {
        let total = self.total(i, j);
        let count = j - i + 1;
        if is_reached(limit, total, count) {
            return None;
        }
        Some(root_of_mean(total, count))
    }

    /// The sum of the squared cross products of the points from number `i` to number `j`.
    fn total(&self, i: u32, j: u32) -> u128
        requires start { i < length self.now }
        requires onwards { i < j }
        requires steps { j - i ≤ MOST_STEPS }
        requires lap { j - i ≤ length self.now }
        ensures value { result ≡ unsigned_abs (spread_of self.now i j) }
        ensures most { result < 2 ^ 110 }
    {
        let sums = self.sums(i, j);
        let first = self.place(i);
        let last = self.place(j);
        let right = between(first.x, last.x);
        let above = between(first.y, last.y);
        let total = spread(sums.xx, sums.xy, sums.yy, right, above);
        total as u128
    }
}

/// The rows of one lap, each of 2 to the power `shift` points more, in place of what stood in a list.
#[inline(always)]
fn table(mut rows: Vec<Prefix>, points: &[Point], shift: u32) -> Result<Vec<Prefix>, NoMemory>
    requires closed { IsClosedWalk points.now }
    requires on_page { AreOnPage points.now }
    requires shift { shift < 32 }
    ensures { IfOk result (λ rows. IsTable points.now shift rows.items) }
{
    rows.clear();
    let more = points.len() >> shift;
    rows.reserve(more + 1)?;
    let mut sums = Prefix::none();
    for m in 0..more {
        rows.push(sums)?;
        sums = sums_to(points, m << shift, sums, (m + 1) << shift);
    }
    rows.push(sums)?;
    Ok(rows)
}

/// The sums over the first `to` points, by those over the first `from` of them.
fn sums_to(points: &[Point], from: usize, before: Prefix, to: usize) -> Prefix
    requires on_page { AreOnPage points.now }
    requires before { before ≡ prefix_of points.now from }
    requires onwards { from ≤ to }
    requires lap { to ≤ length points.now }
    ensures { result ≡ prefix_of points.now to }
{
    let mut sums = before;
    for k in from..to {
        sums = sums.with(points[k]);
    }
    sums
}

/// The number in the first lap of point number `k`, of so many points.
fn in_lap(k: usize, points: usize) -> usize
    requires { k < 2 * points }
    ensures { result ≡ k % points }
{
    if k < points { k } else { k - points }
}

/// How far one coordinate lies from another.
pub(crate) fn between(from: i32, to: i32) -> i64
    requires from_low { pos 0 ≤ℤ from }
    requires from_high { from ≤ℤ pos LONGEST_SIDE }
    requires to_low { pos 0 ≤ℤ to }
    requires to_high { to ≤ℤ pos LONGEST_SIDE }
    ensures value { result ≡ to -ℤ from }
    ensures most { unsigned_abs result ≤ LONGEST_SIDE }
{
    i64::from(to) - i64::from(from)
}

/// The sums of the offsets of `count` points from (`x0`, `y0`).
#[inline(always)]
pub(crate) fn offsets(raw: RawSums, count: u32, x0: i64, y0: i64) -> Sums
    requires count { count ≤ MOST_STEPS + 1 }
    requires raw { IsRawOf (MOST_STEPS + 1) raw }
    requires x0 { unsigned_abs x0 ≤ LONGEST_SIDE }
    requires y0 { unsigned_abs y0 ≤ LONGEST_SIDE }
    ensures { result ≡ offsets_of raw count x0 y0 }
{
    let x = moved(count, raw.x, x0);
    let y = moved(count, raw.y, y0);
    Sums {
        count,
        x,
        y,
        xx: moved_products(raw.xx, x0, raw.x, x0, x),
        xy: moved_products(raw.xy, x0, raw.y, y0, x),
        yy: moved_products(raw.yy, y0, raw.y, y0, y),
    }
}

/// The root of 65536 times the mean of `count` numbers.
fn root_of_mean(total: u128, count: u32) -> u64
    requires some { 0 < count }
    requires total { total < 2 ^ 110 }
    ensures { IsRoot (65536 * total / count) result }
{
    if total < 1 << 48 {
        mean_root(total as u64, u64::from(count))
    } else {
        isqrt(65536 * total / u128::from(count))
    }
}

/// Whether the root of 65536 times the mean of `count` numbers reaches a limit: by squares, without a
/// division.
fn is_reached(limit: u64, total: u128, count: u32) -> bool
    requires limit { limit ≤ 2 ^ 56 }
    requires few { count ≤ MOST_STEPS + 1 }
    requires total { total < 2 ^ 110 }
    ensures { IsTrue result ↔ (limit * limit * count ≤ 65536 * total) }
{
    times(square(limit), count) <= 65536 * total
}

/// A limit's square.
fn square(limit: u64) -> u128
    requires { limit ≤ 2 ^ 56 }
    ensures value { result ≡ limit * limit }
    ensures most { result ≤ 2 ^ 112 }
{
    u128::from(limit) * u128::from(limit)
}

/// A square for each of `count` points.
fn times(square: u128, count: u32) -> u128
    requires square { square ≤ 2 ^ 112 }
    requires few { count ≤ MOST_STEPS + 1 }
    ensures { result ≡ square * count }
{
    square * u128::from(count)
}
