//! The segments from one point of a path.
ghost use Rattle.std.specs.Prelude.{◌≡◌, ℕ, ◌+◌, ◌-◌, ◌*◌, ◌/◌, ◌<◌, ◌≤◌, ◌^◌, pos, unsigned_abs, length, IfSome, IfNone, IsTrue, ◌↔◌};
ghost use Rattle.pt_core.specs.ClosedWalk.{point_at};
ghost use Rattle.pt_core.specs.OnPage.{IsOnPage};
ghost use Rattle.pt_core.specs.Root.{IsRoot};
ghost use Rattle.prefix_moments.specs.Sums.{spread_of, IsPenalty};
ghost use Rattle.prefix_moments.specs.Inner.Table.{prefix_of};

use crate::moments::{Moments, between};
use crate::prefix::Prefix;
use crate::raw::{crossed, wrapped_spread};
use pt_core::{MOST_STEPS, Point, isqrt, near_256ths, near_float};

/// A greater root isn't guessed, so that squares times counts fit.
const MOST_GUESSED: u64 = (1 << 23) - 1;

/// The segments from one point of a path, for whoever asks for many of them: what these have in common is looked up
/// once.
#[derive(Clone, Copy)]
pub struct Start<'a> {
    pub moments: &'a Moments<'a>,
    /// The point's number.
    pub from: u32,
    place: Point,
    /// The sums over the points before it.
    before: Prefix,
    ghost point: { from < length moments.now },
    ghost place_is: { place ≡ point_at moments.now from },
    ghost before_is: { before ≡ prefix_of moments.now from },
    ghost on_page: { IsOnPage place },
}

impl<'a> Start<'a> {
    /// The segments from point number `from`.
    pub fn at(moments: &'a Moments<'a>, from: u32) -> Start<'a>
        requires { from < length moments.now }
        ensures moments { result.moments.now ≡ moments.now }
        ensures from { result.from ≡ from }
    {
        Start {
            moments,
            from,
            place: moments.place(from),
            before: moments.row(from as usize),
        }
    }

    /// The penalty of the segment to point number `to`, whose squared cross products together are as small as those
    /// of a possible segment.
    pub fn penalty(&self, to: u32) -> u64
        requires onwards { self.now.from < to }
        requires steps { to - self.now.from ≤ MOST_STEPS }
        requires lap { to - self.now.from ≤ length self.now.moments.now }
        requires small { unsigned_abs (spread_of self.now.moments.now self.now.from to) < 2 ^ 48 }
        ensures { IsPenalty self.now.moments.now self.now.from to result }
    {
        mean_root(self.total(to), u64::from(to - self.from + 1))
    }

    /// The same penalty, where it is below a limit; no root is taken where it isn't.
    #[inline(always)]
    pub fn penalty_below(&self, to: u32, limit: u64) -> Option<u64>
        requires onwards { self.now.from < to }
        requires steps { to - self.now.from ≤ MOST_STEPS }
        requires lap { to - self.now.from ≤ length self.now.moments.now }
        requires small { unsigned_abs (spread_of self.now.moments.now self.now.from to) < 2 ^ 48 }
        requires limit { limit ≤ 2 ^ 24 }
        ensures some { IfSome result (λ penalty. IsPenalty self.now.moments.now self.now.from to penalty) }
        ensures below { IfSome result (λ penalty. penalty < limit) }
        ensures none { IfNone result ((penalty : ℕ)
            → IsPenalty self.now.moments.now self.now.from to penalty → limit ≤ penalty) }
    {
        root_below(self.total(to), u64::from(to - self.from + 1), limit)
    }

    /// The sum of the squared cross products of the points up to point number `to`.
    #[inline(always)]
    fn total(&self, to: u32) -> u64
        requires onwards { self.now.from < to }
        requires steps { to - self.now.from ≤ MOST_STEPS }
        requires lap { to - self.now.from ≤ length self.now.moments.now }
        requires small { unsigned_abs (spread_of self.now.moments.now self.now.from to) < 2 ^ 48 }
        ensures value { result ≡ unsigned_abs (spread_of self.now.moments.now self.now.from to) }
        ensures most { result < 2 ^ 48 }
    {
        let sums = self.moments.row(to as usize + 1).minus(self.before).raw();
        let last = self.moments.place(to);
        let right = between(self.place.x, last.x);
        let above = between(self.place.y, last.y);
        let start = crossed(
            i64::from(self.place.x),
            i64::from(self.place.y),
            right,
            above,
        );
        let total = wrapped_spread(sums, i64::from(to - self.from + 1), right, above, start);
        total as u64
    }
}

/// The root of 65536 times the mean of `count` numbers, where it is below a limit; none is taken where it isn't.
#[inline(always)]
pub(crate) fn root_below(total: u64, count: u64, limit: u64) -> Option<u64>
    requires total { total < 2 ^ 48 }
    requires some { 0 < count }
    requires few { count ≤ MOST_STEPS + 1 }
    requires limit { limit ≤ 2 ^ 24 }
    ensures some { IfSome result (λ root. IsRoot (65536 * total / count) root) }
    ensures below { IfSome result (λ root. root < limit) }
    ensures none { IfNone result ((root : ℕ) → IsRoot (65536 * total / count) root → limit ≤ root) }
{
    if is_reached(total, count, limit) {
        return None;
    }
    Some(mean_root(total, count))
}

/// The root of 65536 times the mean of `count` numbers.
//
// It is guessed by floating point, which divides and takes roots in less time. Where squares show that the guess is the root,
// it is; else the root is taken in whole numbers. Nothing is proved of the guess.
//
// It isn't inlined: where few roots are taken, a loop keeps its registers. And it is said to be called seldom, so what is
// kept in memory for a call is written down beside it and not in the loop.
#[cold]
#[inline(never)]
pub(crate) fn mean_root(total: u64, count: u64) -> u64
    requires total { total < 2 ^ 48 }
    requires some { 0 < count }
    ensures { IsRoot (65536 * total / count) result }
{
    let guess = near_mean_root(total, count);
    if is_mean_root(total, count, guess) {
        return guess;
    }
    isqrt(u128::from(65536 * total / count))
}

/// A number that mostly is that root.
//
// Each number here waits for the one before. So a sum of 32 bits, as most are, isn't taken to floating point by halves, and
// the root isn't multiplied.
fn near_mean_root(total: u64, count: u64) -> u64 {
    let total = if total < 1 << 32 {
        f64::from(total as u32)
    } else {
        near_float(total.cast_signed())
    };
    let count = f64::from((count & 0xffff_ffff) as u32);
    near_256ths((total / count).sqrt())
}

/// Whether a number is found to be that root: by squares, without a division.
#[tactic(auto, using(pt_core::proofs::Roots::quotient_root_is))]
fn is_mean_root(total: u64, count: u64, root: u64) -> bool
    requires total { total < 2 ^ 48 }
    requires some { 0 < count }
    ensures { IsTrue result → IsRoot (65536 * total / count) root }
{
    if u64::from(MOST_STEPS) + 1 < count || MOST_GUESSED < root {
        return false;
    }
    let number = 65536 * total;
    root * root * count <= number && number < (root + 1) * (root + 1) * count
}

/// Whether that root reaches a limit: by squares, without a division.
#[inline(always)]
pub(crate) fn is_reached(total: u64, count: u64, limit: u64) -> bool
    requires total { total < 2 ^ 48 }
    requires few { count ≤ MOST_STEPS + 1 }
    requires limit { limit ≤ 2 ^ 24 }
    ensures { IsTrue result ↔ (limit * limit * count ≤ 65536 * total) }
{
    let most = 65536 * total;
    let squares = square(limit) * count;
    squares <= most
}

/// A limit's square.
fn square(limit: u64) -> u64
    requires { limit ≤ 2 ^ 24 }
    ensures value { result ≡ limit * limit }
    ensures most { result ≤ 2 ^ 48 }
{
    limit * limit
}
