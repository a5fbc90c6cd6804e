//! A segment whose first point goes back along its path.
ghost use Rattle.std.specs.Prelude.{◌≡◌, ◌+◌, ◌-◌, ◌<◌, ◌≤◌, length, unsigned_abs};
ghost use Rattle.pt_core.specs.ClosedWalk.{point_at};
ghost use Rattle.pt_core.specs.OnPage.{AreOnPage, IsOnPage};
ghost use Rattle.pt_core.specs.declared.limits.TheConstants.{LONGEST_SIDE, MOST_STEPS};
ghost use Rattle.prefix_moments.specs.Inner.Table.{IsRawOf, with_first_of, without_count};
ghost use Rattle.prefix_moments.specs.Sums.{sums_of};

use crate::moments::{Moments, between, offsets};
use crate::raw::RawSums;
use crate::sums::Sums;
use pt_core::{LONGEST_SIDE, MOST_STEPS, Point};

/// A segment to one point of a path, for whoever asks for it from each point before in a row: from one point earlier
/// its sums follow from these, where those over any segment are looked up in two rows.
#[derive(Clone, Copy)]
pub struct Receding<'a> {
    pub moments: &'a Moments<'a>,
    /// The number of its first point.
    pub from: u32,
    /// And of its last one.
    pub to: u32,
    pub(crate) first: Point,
    pub(crate) last: Point,
    pub(crate) sums: Sums,
    ghost point: { from < length moments.now },
    ghost onwards: { from < to },
    ghost steps: { to - from ≤ MOST_STEPS },
    ghost lap: { to - from ≤ length moments.now },
    ghost on_page: { AreOnPage moments.now },
    ghost first_on_page: { IsOnPage first },
    ghost last_on_page: { IsOnPage last },
    ghost first_is: { first ≡ point_at moments.now from },
    ghost last_is: { last ≡ point_at moments.now to },
    ghost sums_are: { sums ≡ sums_of moments.now from to },
}

impl<'a> Receding<'a> {
    /// The segment from point number `from` to number `to`.
    #[inline(always)]
    pub fn between(moments: &'a Moments<'a>, from: u32, to: u32) -> Receding<'a>
        requires on_page { AreOnPage moments.now }
        requires start { from < length moments.now }
        requires onwards { from < to }
        requires steps { to - from ≤ MOST_STEPS }
        requires lap { to - from ≤ length moments.now }
        ensures moments { result.moments.now ≡ moments.now }
        ensures from { result.from ≡ from }
        ensures to { result.to ≡ to }
    {
        Receding {
            moments,
            from,
            to,
            first: moments.place(from),
            last: moments.place(to),
            sums: moments.sums(from, to),
        }
    }

    /// The same, where both points are in the first lap, by the list of the path's points.
    #[inline(always)]
    pub fn in_lap(moments: &'a Moments<'a>, points: &[Point], from: u32, to: u32) -> Receding<'a>
        requires on_page { AreOnPage moments.now }
        requires points { points.now ≡ moments.now }
        requires onwards { from < to }
        requires steps { to - from ≤ MOST_STEPS }
        requires lap { to < length moments.now }
        ensures moments { result.moments.now ≡ moments.now }
        ensures from { result.from ≡ from }
        ensures to { result.to ≡ to }
    {
        let first = points[from as usize];
        Receding {
            moments,
            from,
            to,
            first,
            last: points[to as usize],
            sums: moments.sums_in_lap(first, from, to),
        }
    }

    /// The same from one point earlier, by the place of that point.
    #[inline(always)]
    pub fn earlier_by(self, first: Point) -> Receding<'a>
        requires some { 0 < self.from }
        requires steps { self.to - self.from < MOST_STEPS }
        requires lap { self.to - self.from < length self.moments.now }
        requires first { first ≡ point_at self.moments.now (self.from - 1) }
        requires on_page { IsOnPage first }
        ensures moments { result.moments.now ≡ self.entry.moments.now }
        ensures from { result.from ≡ self.entry.from - 1 }
        ensures to { result.to ≡ self.entry.to }
    {
        let right = between(self.first.x, first.x);
        let above = between(self.first.y, first.y);
        // The sums' own number of points isn't asked, so a loop needn't keep it.
        let count = self.to - self.from + 1;
        Receding {
            moments: self.moments,
            from: self.from - 1,
            to: self.to,
            first,
            last: self.last,
            sums: with_first(self.sums, count, right, above),
        }
    }
}

/// The sums of `count` points with one more, which becomes the first: it lies so far to the right of the one that was, and
/// above it.
//
// Its own offset is none, and each other one loses what it has.
#[inline(always)]
fn with_first(sums: Sums, count: u32, right: i64, above: i64) -> Sums
    requires count { count ≡ sums.count }
    requires few { count ≤ MOST_STEPS }
    requires small { IsRawOf (MOST_STEPS + 1) (without_count sums) }
    requires right { unsigned_abs right ≤ LONGEST_SIDE }
    requires above { unsigned_abs above ≤ LONGEST_SIDE }
    ensures { result ≡ with_first_of sums right above }
{
    let raw = RawSums {
        x: sums.x,
        y: sums.y,
        xx: sums.xx,
        xy: sums.xy,
        yy: sums.yy,
    };
    let moved = offsets(raw, count, right, above);
    Sums {
        count: count + 1,
        x: moved.x,
        y: moved.y,
        xx: moved.xx,
        xy: moved.xy,
        yy: moved.yy,
    }
}
