//! Strips of the plane that hold what is straight from a point on.
//
// A path that goes back by 1 at most and stays in such a strip is clear: of three of its points the middle one is
// near the half-line from the first to the last. A strip that holds what is straight from a point on mostly holds
// the point before as well, so one sum tells that nothing ends sooner there.
ghost use Rattle.std.specs.Prelude.{◌≡◌, ◌↔◌, ◌⊎◌, ◌+◌, ◌^◌, ◌≤◌, ◌+ℤ◌, ◌*ℤ◌, neg_ℤ, ◌≤ℤ◌, ℕ, ℤ, pos, unsigned_abs, IfSome, IsTrue};
ghost use Rattle.pt_core.specs.declared.point.Point.{Point};
ghost use Rattle.path_cones.specs.Inner.Cones.{IsShort};
ghost use Rattle.path_cones.specs.Inner.Strips.{AreStrides, IsAcrossBefore, IsEarlierStrip, IsExtent, IsFromTo, IsSmallExtent, IsSpan, IsStrip, IsWiderLane, StaysIn, TakesIn, TakesInPlace, no_span, seen_of, with_across};
ghost use Rattle.path_cones.specs.Cones.{cross_of};
ghost use Rattle.path_cones.specs.Inner.Wedges.{IsQuarter};
ghost use Rattle.path_cones.specs.declared.vector.Vector.{Vector};
ghost use Rattle.path_cones.specs.declared.quarter.Quarter.{Quarter};

use crate::quarter::Quarter;
use crate::vector::Vector;

/// A strip, as it is seen from a point of the path in it. A place lies in it where the cross product of the strip's way
/// with the way to the place is one of `across`.
//
// Its borders are as near as the path lets them be, so that it may still be shifted to either side: a point that is
// beyond one of them is taken in as long as the strip isn't broader than its way allows. Borders that are fixed
// where the strip is found, with as much room on the one side as on the other, held fewer points.
#[derive(Clone, Copy)]
pub struct Strip {
    /// The quarter into which its way goes.
    pub quarter: Quarter,
    pub way: Vector,
    /// What the way goes along rows and columns together: what a strip may be broad.
    pub breadth: i64,
    /// How far the path goes across the way, to each side of the point.
    pub across: Span,
    /// How far later points are behind this one at most, along rows and along columns: 0 or 1.
    pub back: Vector,
}

/// The least and the greatest of some numbers, 0 among them.
#[derive(Clone, Copy)]
pub struct Span {
    pub least: i64,
    pub greatest: i64,
}

/// Where a strip lies on the page, by how far across its way places are: the point from which it is seen, and its borders. Each
/// number is a place's rise along the way turned to the left (`Vector::rise`).
//
// Borders that are seen from each point anew have to be shifted with each step. These stay where they are.
#[derive(Clone, Copy)]
pub struct Lane {
    pub here: i64,
    pub across: Span,
}

/// How far a path goes to each side, seen from its start: across a way, and to the right and up in a quarter.
#[derive(Clone, Copy)]
pub(crate) struct Extent {
    pub across: Span,
    pub right: Span,
    pub up: Span,
}

/// How far the two steps that go onward in a quarter go across a way.
#[derive(Clone, Copy)]
pub(crate) struct Strides {
    pub row: i64,
    pub column: i64,
}

impl Strides {
    /// Across this way.
    #[inline(always)]
    pub(crate) fn new(quarter: Quarter, way: Vector) -> Strides
        requires quarter { IsQuarter quarter }
        requires short { IsShort 65535 way }
        ensures { AreStrides quarter way result }
    {
        Strides {
            row: way.cross(Vector {
                x: quarter.right,
                y: 0,
            }),
            column: way.cross(Vector {
                x: 0,
                y: quarter.up,
            }),
        }
    }
}

impl Lane {
    /// Of a strip that is seen from a point so far across its way.
    #[inline(always)]
    pub fn of(across: Span, here: i64) -> Lane
        requires across { IsSpan (neg_ℤ (pos 131072)) (pos 131072) across }
        requires here { unsigned_abs here ≤ 2 ^ 48 }
        ensures here { result.here ≡ here }
        ensures across { seen_of result ≡ across }
    {
        Lane {
            here,
            across: Span {
                least: across.least + here,
                greatest: across.greatest + here,
            },
        }
    }

    /// With a point so far across the way in front, if it isn't broader than `breadth` then.
    #[inline(always)]
    pub fn before(self, here: i64, breadth: i64) -> Option<Lane>
        requires lane { IsSpan (neg_ℤ (pos 131072)) (pos 131072) (seen_of self) }
        requires from { unsigned_abs self.here ≤ 2 ^ 48 }
        requires here { unsigned_abs here ≤ 2 ^ 48 }
        ensures { IfSome result (IsWiderLane self here breadth) }
    {
        let least = lesser(self.across.least, here);
        let greatest = greater(self.across.greatest, here);
        if breadth < greatest - least {
            return None;
        }
        Some(Lane {
            here,
            across: Span { least, greatest },
        })
    }

    /// How far its borders are from the point from which it is seen.
    #[inline(always)]
    pub fn seen(self) -> Span
        requires lane { IsSpan (neg_ℤ (pos 131072)) (pos 131072) (seen_of self) }
        requires from { unsigned_abs self.here ≤ 2 ^ 48 }
        ensures { result ≡ seen_of self }
    {
        Span {
            least: self.across.least - self.here,
            greatest: self.across.greatest - self.here,
        }
    }
}

impl Strip {
    /// The strip seen from one step earlier, if it isn't too broad with that point and later ones are behind the point by
    /// 1 at most.
    pub fn earlier(self, step: Vector) -> Option<Strip>
        requires strip { IsStrip self }
        requires step { IsShort 1 step }
        ensures { IfSome result (IsEarlierStrip self step) }
    {
        let across = self.across_before(step, self.way.cross(step))?;
        let onward = self.quarter.turned(step);
        let back_x = greater(0, self.back.x - onward.x);
        if 1 < back_x {
            return None;
        }
        let back_y = greater(0, self.back.y - onward.y);
        if 1 < back_y {
            return None;
        }
        Some(Strip {
            quarter: self.quarter,
            way: self.way,
            breadth: self.breadth,
            across,
            back: Vector {
                x: back_x,
                y: back_y,
            },
        })
    }

    /// The same strip with other borders.
    #[inline(always)]
    pub fn with_across(self, across: Span) -> Strip
        ensures { result ≡ with_across self across }
    {
        Strip {
            quarter: self.quarter,
            way: self.way,
            breadth: self.breadth,
            across,
            back: self.back,
        }
    }

    /// How far the path goes across the way from one step earlier, which goes so far across it, if the strip isn't too broad with
    /// that point.
    #[inline(always)]
    fn across_before(self, step: Vector, by: i64) -> Option<Span>
        requires strip { IsStrip self }
        requires step { IsShort 1 step }
        requires by { by ≡ cross_of self.way step }
        ensures { IfSome result (IsAcrossBefore self step) }
    {
        let across = self.across.shifted(by);
        if self.breadth < across.greatest - across.least {
            return None;
        }
        Some(across)
    }
}

impl Span {
    /// Of 0 alone.
    pub(crate) fn at_zero() -> Span
        ensures { result ≡ no_span }
    {
        Span {
            least: 0,
            greatest: 0,
        }
    }

    /// Of 0 up to a number.
    pub(crate) fn up_to(greatest: i64) -> Span
        ensures least { result.least ≡ pos 0 }
        ensures greatest { result.greatest ≡ greatest }
    {
        Span { least: 0, greatest }
    }

    /// Of the numbers that are greater by so much, and of 0.
    fn shifted(self, by: i64) -> Span
        requires small { IsSpan (neg_ℤ (pos 131072)) (pos 131072) self }
        requires by { unsigned_abs by ≤ 131072 }
        ensures small { IsSpan (neg_ℤ (pos 262144)) (pos 262144) result }
        ensures least { result.least ≤ℤ (self.least +ℤ by) }
        ensures greatest { (self.greatest +ℤ by) ≤ℤ result.greatest }
    {
        Span {
            least: lesser(0, self.least + by),
            greatest: greater(0, self.greatest + by),
        }
    }

    /// The least and the greatest of these and a further number.
    pub(crate) fn with(self, number: i64) -> Span
        ensures takes_in { TakesIn self number result }
        ensures within { (low high : ℤ) → IsSpan low high self → IsFromTo low high number → IsSpan low high result }
    {
        Span {
            least: lesser(self.least, number),
            greatest: greater(self.greatest, number),
        }
    }
}

impl Extent {
    /// Of a path's start alone.
    pub(crate) fn at_start() -> Extent
        ensures { (quarter : Quarter) (way : Vector) (path : ℕ → Point) → IsExtent quarter way path 0 result }
    {
        Extent {
            across: Span::at_zero(),
            right: Span::at_zero(),
            up: Span::at_zero(),
        }
    }

    /// How far the path goes with a further place, which is so far across the way and onward in the quarter, if that isn't more
    /// than 1 behind the others.
    pub(crate) fn with(self, across: i64, onward: Vector) -> Option<Extent>
        requires small { IsSmallExtent self }
        requires across { IsFromTo (neg_ℤ (pos (2 ^ 34))) (pos (2 ^ 34)) across }
        requires onward { IsShort 65536 onward }
        ensures { IfSome result (TakesInPlace self across onward) }
    {
        if onward.x + 1 < self.right.greatest {
            return None;
        }
        if onward.y + 1 < self.up.greatest {
            return None;
        }
        Some(Extent {
            across: self.across.with(across),
            right: self.right.with(onward.x),
            up: self.up.with(onward.y),
        })
    }

    /// The strip along the way that takes in all of it, if there is one.
    pub(crate) fn strip(self, quarter: Quarter, way: Vector) -> Option<Strip>
        requires small { IsSmallExtent self }
        requires quarter { IsQuarter quarter }
        requires right { pos 0 ≤ℤ (quarter.right *ℤ way.x) }
        requires up { pos 0 ≤ℤ (quarter.up *ℤ way.y) }
        requires short { IsShort 65535 way }
        ensures strip { IfSome result IsStrip }
        ensures stays { IfSome result (λ strip. (path : ℕ → Point) (count : ℕ)
            → IsExtent quarter way path count self → StaysIn strip path count) }
    {
        let breadth = quarter.far(way);
        if breadth < 1 {
            return None;
        }
        if breadth < self.across.greatest - self.across.least {
            return None;
        }
        Some(Strip {
            quarter,
            way,
            breadth,
            across: self.across,
            back: Vector {
                x: -self.right.least,
                y: -self.up.least,
            },
        })
    }
}

/// The lesser of two numbers.
fn lesser(a: i64, b: i64) -> i64
    ensures first { result ≤ℤ a }
    ensures second { result ≤ℤ b }
    ensures one { (result ≡ a) ⊎ (result ≡ b) }
{
    if b < a { b } else { a }
}

/// The greater of two numbers.
fn greater(a: i64, b: i64) -> i64
    ensures first { a ≤ℤ result }
    ensures second { b ≤ℤ result }
    ensures one { (result ≡ a) ⊎ (result ≡ b) }
{
    if a < b { b } else { a }
}
