//! The search for a strip that holds what is straight from a point on: ways are tried, simple ones first.
ghost use Rattle.std.specs.Prelude.{◌≤◌, ℕ, ◌*ℤ◌, ◌≤ℤ◌, pos, unsigned_abs, IfSome};
ghost use Rattle.path_cones.specs.Inner.Cones.{IsShort, IsSound};
ghost use Rattle.path_cones.specs.Inner.Slopes.{AreSmallSlopes};
ghost use Rattle.path_cones.specs.Straight.{path_from};
ghost use Rattle.pt_core.specs.declared.point.Point.{Point};
ghost use Rattle.path_cones.specs.Inner.Tails.{IsSubpath};
ghost use Rattle.path_cones.specs.Inner.Strips.{AreUpTo, GoesAllOnward, HoldsPath, IsSway};
ghost use Rattle.path_cones.specs.Inner.Swings.{SwaysOn};
ghost use Rattle.path_cones.specs.Inner.Wedges.{IsQuarter};
ghost use Rattle.path_cones.specs.declared.vector.Vector.{Vector};

use crate::cone::Cone;
use crate::quarter::Quarter;
use crate::slopes::Slopes;
use crate::strip::{Extent, Span, Strip};
use crate::swing::sway_along;
use crate::track::Track;
use crate::vector::Vector;

/// A subpath of fewer steps gets the strip along its chord alone.
const SHORT: usize = 8;

/// So many strips are tried for a subpath at most. Six were the most in searches.
const MOST_TRIALS: u32 = 16;

/// After how many steps a path is farthest across a way, to each side.
//
// Their places are asked only where the strip fails: so the scan has two numbers more to carry, and not four.
#[derive(Clone, Copy)]
pub(crate) struct Ends {
    pub right: usize,
    pub left: usize,
}

/// What was found along a way.
#[derive(Clone, Copy)]
pub(crate) struct StripTrial {
    /// The strip along it, or None where the path doesn't stay in it.
    pub strip: Option<Strip>,
    /// Where the path is farthest across it; where it goes back by more than 1, its start alone.
    pub ends: Ends,
}

/// How far a path goes to each side of a way, and after how many steps it is farthest.
#[derive(Clone, Copy)]
pub(crate) struct Sway {
    pub span: Span,
    pub ends: Ends,
}

impl Sway {
    /// At the path's start alone.
    pub(crate) fn at_start() -> Sway
        ensures { (way : Vector) (path : ℕ → Point) → IsSway way path 0 result }
    {
        Sway {
            span: Span::at_zero(),
            ends: Ends::at_start(),
        }
    }

    /// The sway with a straight run that ends so far across the way, after this number of steps.
    #[inline(always)]
    pub(crate) fn on(self, across: i64, next: usize) -> Sway
        ensures { SwaysOn self across next result }
    {
        Sway {
            span: self.span.with(across),
            ends: self.ends.with(self.span, across, next),
        }
    }
}

impl Ends {
    /// At the path's start alone.
    fn at_start() -> Ends
        ensures { (most : ℕ) → AreUpTo most result }
    {
        Ends { right: 0, left: 0 }
    }

    /// The ends after more steps, by which the path is so far across the way, where the others are as far as this span.
    fn with(self, span: Span, across: i64, steps: usize) -> Ends
        ensures { (most : ℕ) → steps ≤ most → AreUpTo most self → AreUpTo most result }
    {
        Ends {
            right: if across < span.least {
                steps
            } else {
                self.right
            },
            left: if span.greatest < across {
                steps
            } else {
                self.left
            },
        }
    }

    /// How far the place farthest to the left is from that farthest to the right, in the quarter turned to be the one
    /// up and to the right.
    //
    // Two of the quarters are turned over for that: left and right change places in them, and so do the signs of both
    // numbers. So each coordinate takes the sign of the other one.
    fn apart(self, track: &Track, first: usize, quarter: Quarter) -> Vector
        requires right { IsSubpath track.now first self.right }
        requires left { IsSubpath track.now first self.left }
        ensures { IsShort 131070 result }
    {
        let right = track.way(first, self.right);
        let left = track.way(first, self.left);
        Vector {
            x: by_sign(quarter.up, left.x - right.x),
            y: by_sign(quarter.right, left.y - right.y),
        }
    }
}

/// A number, or that with the other sign where the sign is below 0.
fn by_sign(sign: i64, number: i64) -> i64
    requires { unsigned_abs number ≤ 131070 }
    ensures { unsigned_abs result ≤ 131070 }
{
    if sign < 0 { -number } else { number }
}

/// A strip in which the path from this point stays for so many steps, if one of those that are tried is one: along ways
/// of a cone, where the steps aren't few.
//
// Found by trial, it needs no lemma on which is best: the path is looked at once more, a corner at a time, for how
// far it goes across a way to both sides, and where that is no more than the breadth it is a strip. The price: a strip
// is no longer than its numbers say, and on ragged rims it holds two or three points, so that two points of five lie in
// none.
//
// The cone is lent, so that it isn't copied from where the scan before left it.
#[inline(never)]
pub fn strip_from(track: &Track, first: usize, steps: usize, cone: &Cone) -> Option<Strip>
    requires subpath { IsSubpath track.now first steps }
    requires cone { IsSound cone.now }
    ensures { IfSome result (λ strip. HoldsPath strip (path_from track.now first) steps) }
{
    let quarter = Quarter::of(track.way(first, steps));
    match onward_to(track, first, steps, quarter) {
        Some(onward) if steps >= SHORT => {
            let slopes = Slopes::of(*cone, quarter);
            simplest_onward(track, first, steps, quarter, onward, slopes)
        }
        _ => strip_around(track, first, steps, cone),
    }
}

/// The same where the path may go back, or the steps are few.
#[inline(never)]
fn strip_around(track: &Track, first: usize, steps: usize, cone: &Cone) -> Option<Strip>
    requires subpath { IsSubpath track.now first steps }
    requires cone { IsSound cone.now }
    ensures { IfSome result (λ strip. HoldsPath strip (path_from track.now first) steps) }
{
    let chord = track.way(first, steps);
    if steps < SHORT {
        return strip_along(track, first, steps, chord).strip;
    }
    let quarter = Quarter::of(chord);
    let slopes = Slopes::of(*cone, quarter);
    simplest_strip(track, first, steps, quarter, slopes)
}

/// A strip in which the path from this point stays for so many steps, along the simplest way between two slopes of a
/// quarter, if it is found.
//
// 1. The simplest way that is left is tried.
// 2. Where the path is broader than its strip, the two places that are farthest across the way tell that the strips of
//    all ways to one side of it are too narrow too. Those are cut off.
//
// The greater a way's numbers, the more of its breadth is used up: along the chord of a staircase of single steps that
// ends with a double one, one unit is left, so that the strip would fail two periods earlier, and the whole subpath be
// looked at anew from every fourth point. Along the simplest way the staircase takes 2 of a breadth of 2, for good.
//
// Nothing rests on which ways are cut off but time.
fn simplest_strip(
    track: &Track,
    first: usize,
    steps: usize,
    quarter: Quarter,
    slopes: Slopes,
) -> Option<Strip>
    requires subpath { IsSubpath track.now first steps }
    requires quarter { IsQuarter quarter }
    requires slopes { AreSmallSlopes slopes }
    ensures { IfSome result (λ strip. HoldsPath strip (path_from track.now first) steps) }
{
    let mut slopes = slopes;
    for _ in 0..MOST_TRIALS {
        let slope = slopes.simplest()?;
        let trial = strip_along(track, first, steps, quarter.turned(slope.way()));
        if trial.strip.is_some() {
            return trial.strip;
        }
        slopes = slopes.cut(trial.ends.apart(track, first, quarter))?;
    }
    None
}

/// The same, where the path goes so far into the quarter, and none of its steps goes back there.
//
// What is asked of all ways alike is asked before the first one. All of it is one function, so that no trial is handed on
// through memory.
#[inline(always)]
fn simplest_onward(
    track: &Track,
    first: usize,
    steps: usize,
    quarter: Quarter,
    onward: Vector,
    slopes: Slopes,
) -> Option<Strip>
    requires subpath { IsSubpath track.now first steps }
    requires onward { GoesAllOnward track.now first steps quarter onward }
    requires slopes { AreSmallSlopes slopes }
    ensures { IfSome result (λ strip. HoldsPath strip (path_from track.now first) steps) }
{
    let mut slopes = slopes;
    for _ in 0..MOST_TRIALS {
        let way = quarter.turned(slopes.simplest()?.way());
        let trial = strip_onward(track, first, steps, quarter, onward, way);
        if trial.strip.is_some() {
            return trial.strip;
        }
        slopes = slopes.cut(trial.ends.apart(track, first, quarter))?;
    }
    None
}

/// How far the path from this point goes into a quarter in so many steps, if there are any and none of them goes back there.
//
// None does where the path goes as far into the quarter as it has steps.
#[inline(always)]
fn onward_to(track: &Track, first: usize, most: usize, quarter: Quarter) -> Option<Vector>
    requires subpath { IsSubpath track.now first most }
    requires quarter { IsQuarter quarter }
    ensures { IfSome result (GoesAllOnward track.now first most quarter) }
{
    let onward = quarter.turned(track.way(first, most));
    if most == 0 || onward.x + onward.y != most as i64 {
        return None;
    }
    Some(onward)
}

/// The strip along a way in which the path from this point stays for so many steps, if it does.
#[inline(never)]
fn strip_along(track: &Track, first: usize, most: usize, way: Vector) -> StripTrial
    requires subpath { IsSubpath track.now first most }
    requires short { IsShort 65535 way }
    ensures ends { AreUpTo most result.ends }
    ensures strip { IfSome result.strip (λ strip. HoldsPath strip (path_from track.now first) most) }
{
    let quarter = Quarter::of(way);
    match onward_to(track, first, most, quarter) {
        Some(onward) => strip_onward(track, first, most, quarter, onward, way),
        None => strip_by_extent(track, first, most, way),
    }
}

/// The same strip, where the path goes so far into the way's quarter, and none of its steps goes back there.
//
// Then all that is asked of its corners is how far across the way they are. Of maps and text nearly all subpaths are like
// that.
#[inline(always)]
fn strip_onward(
    track: &Track,
    first: usize,
    most: usize,
    quarter: Quarter,
    onward: Vector,
    way: Vector,
) -> StripTrial
    requires subpath { IsSubpath track.now first most }
    requires onward { GoesAllOnward track.now first most quarter onward }
    requires right { pos 0 ≤ℤ (quarter.right *ℤ way.x) }
    requires up { pos 0 ≤ℤ (quarter.up *ℤ way.y) }
    requires short { IsShort 65535 way }
    ensures ends { AreUpTo most result.ends }
    ensures strip { IfSome result.strip (λ strip. HoldsPath strip (path_from track.now first) most) }
{
    let sway = sway_along(track, first, most, quarter, way);
    let extent = Extent {
        across: sway.span,
        right: Span::up_to(onward.x),
        up: Span::up_to(onward.y),
    };
    StripTrial {
        strip: extent.strip(quarter, way),
        ends: sway.ends,
    }
}

/// The same strip, where the path may go back.
#[inline(never)]
fn strip_by_extent(track: &Track, first: usize, most: usize, way: Vector) -> StripTrial
    requires subpath { IsSubpath track.now first most }
    requires short { IsShort 65535 way }
    ensures ends { AreUpTo most result.ends }
    ensures strip { IfSome result.strip (λ strip. HoldsPath strip (path_from track.now first) most) }
{
    let quarter = Quarter::of(way);
    let mut extent = Extent::at_start();
    let mut ends = Ends::at_start();
    let mut steps = 0;
    while steps < most {
        let next = track.run_end(first, steps, most);
        let place = track.way(first, next);
        let across = way.cross(place);
        ends = ends.with(extent.across, across, next);
        let Some(farther) = extent.with(across, quarter.turned(place)) else {
            return StripTrial {
                strip: None,
                ends: Ends::at_start(),
            };
        };
        extent = farther;
        steps = next;
    }
    StripTrial {
        strip: extent.strip(quarter, way),
        ends,
    }
}
