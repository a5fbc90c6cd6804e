//! How far a path that never goes back in a quarter sways across a way.
ghost use Rattle.std.specs.Prelude.{◌≡◌, ◌+◌, ◌<◌, ◌≤◌, length, pos, ◌+ℤ◌, ◌*ℤ◌, IsTrue};
ghost use Rattle.path_cones.specs.Straight.{path_from};
ghost use Rattle.path_cones.specs.Inner.Cones.{IsShort};
ghost use Rattle.path_cones.specs.Inner.Stairs.{AreStairs, stairs_of};
ghost use Rattle.path_cones.specs.Inner.Strips.{IsSway};
ghost use Rattle.path_cones.specs.Inner.Swings.{IsSmallSwing, IsSwing};
ghost use Rattle.path_cones.specs.Inner.Tails.{IsSubpath};
ghost use Rattle.path_cones.specs.Inner.Wedges.{IsQuarter};

use crate::quarter::Quarter;
use crate::strip::Strides;
use crate::track::Track;
use crate::trial::Sway;
use crate::vector::Vector;

/// How a path sways across a way, seen at a corner of the path.
#[derive(Clone, Copy)]
pub(crate) struct Swing {
    pub way: Vector,
    /// The number of steps to this corner, and to the next one.
    pub steps: usize,
    pub next: usize,
    /// How far the corner is across the way.
    pub across: i64,
    /// How far a step of the run ahead goes across it, and a step of the run after that.
    pub turn: i64,
    pub other: i64,
    pub sway: Sway,
}

impl Swing {
    /// At the path's start.
    #[inline(always)]
    fn start(track: &Track, first: usize, most: usize, quarter: Quarter, way: Vector) -> Swing
        requires subpath { IsSubpath track.now first most }
        requires some { 1 ≤ most }
        requires quarter { IsQuarter quarter }
        requires stairs { AreStairs (path_from track.now first) most (stairs_of quarter (path_from track.now first)) }
        requires short { IsShort 65535 way }
        ensures swing { IsSwing track.now first most result }
        ensures way { result.way ≡ way }
    {
        let Strides { row, column } = Strides::new(quarter, way);
        let next = track.corner_after(first, 0);
        if track.step(first).is_upright() {
            return Swing {
                way,
                steps: 0,
                next,
                across: 0,
                turn: column,
                other: row,
                sway: Sway::at_start(),
            };
        }
        Swing {
            way,
            steps: 0,
            next,
            across: 0,
            turn: row,
            other: column,
            sway: Sway::at_start(),
        }
    }

    /// How far across the way the path is so many steps after the corner, on the run ahead.
    #[inline(always)]
    fn across_after(self, run: usize) -> i64
        requires small { IsSmallSwing self }
        requires run { run ≤ 2147483648 }
        ensures { result ≡ self.across +ℤ pos run *ℤ self.turn }
    {
        self.across + run as i64 * self.turn
    }

    /// The swing at the next corner.
    #[inline(always)]
    fn run_on(self, track: &Track, first: usize, most: usize, in_lap: bool) -> Swing
        requires subpath { IsSubpath track.now first most }
        requires in_lap { IsTrue in_lap → first + most ≤ length track.now }
        requires before { self.next < most }
        requires swing { IsSwing track.now first most self }
        ensures swing { IsSwing track.now first most result }
        ensures way { result.way ≡ self.way }
        ensures later { self.steps < result.steps }
    {
        let across = self.across_after(self.next - self.steps);
        Swing {
            way: self.way,
            steps: self.next,
            next: track.corner_within(first, self.next, in_lap),
            across,
            turn: self.other,
            other: self.turn,
            sway: self.sway.on(across, self.next),
        }
    }
}

/// The swing at the last corner before so many steps.
//
// Two runs at a time, so that the two kinds of steps need not change places.
#[inline(always)]
fn last_swing(track: &Track, first: usize, most: usize, start: Swing) -> Swing
    requires subpath { IsSubpath track.now first most }
    requires swing { IsSwing track.now first most start }
    ensures swing { IsSwing track.now first most result }
    ensures way { result.way ≡ start.way }
    ensures last { most ≤ result.next }
{
    if most <= track.size() - first {
        return swing_within(track, first, most, true, start);
    }
    swing_within(track, first, most, false, start)
}

/// The same, where it is told whether all points are known to be in the first lap.
#[inline(always)]
fn swing_within(track: &Track, first: usize, most: usize, in_lap: bool, start: Swing) -> Swing
    requires subpath { IsSubpath track.now first most }
    requires in_lap { IsTrue in_lap → first + most ≤ length track.now }
    requires swing { IsSwing track.now first most start }
    ensures swing { IsSwing track.now first most result }
    ensures way { result.way ≡ start.way }
    ensures last { most ≤ result.next }
{
    let mut swing = start;
    while swing.next < most {
        let corner = swing.run_on(track, first, most, in_lap);
        if most <= corner.next {
            return corner;
        }
        swing = corner.run_on(track, first, most, in_lap);
    }
    swing
}

/// How far the path from this point goes to each side of a way, in so many steps, none of which goes back in the quarter.
#[inline(always)]
pub(crate) fn sway_along(
    track: &Track,
    first: usize,
    most: usize,
    quarter: Quarter,
    way: Vector,
) -> Sway
    requires subpath { IsSubpath track.now first most }
    requires some { 1 ≤ most }
    requires quarter { IsQuarter quarter }
    requires stairs { AreStairs (path_from track.now first) most (stairs_of quarter (path_from track.now first)) }
    requires short { IsShort 65535 way }
    ensures { IsSway way (path_from track.now first) most result }
{
    let start = Swing::start(track, first, most, quarter, way);
    let last = last_swing(track, first, most, start);
    last.sway.on(last.across_after(most - last.steps), most)
}
