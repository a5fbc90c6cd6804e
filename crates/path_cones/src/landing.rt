//! Scans along paths that never go back in a quarter of the plane.
ghost use Rattle.std.specs.Prelude.{◌≡◌, ◌+◌, ◌<◌, ◌≤◌, length, IfSome, IsTrue, None};
ghost use Rattle.path_cones.specs.Straight.{path_from};
ghost use Rattle.path_cones.specs.Inner.Cones.{IsSound};
ghost use Rattle.path_cones.specs.Inner.Stairs.{AreStairs, IsLanding, IsLastLanding, stairs_of};
ghost use Rattle.path_cones.specs.Inner.Tails.{IsClearUpTo, IsSubpath};
ghost use Rattle.path_cones.specs.Inner.Wedges.{IsQuarter};

use crate::first::Scan;
use crate::funnel::Funnel;
use crate::quarter::Quarter;
use crate::track::Track;
use std::cmp::min;

/// Where a scan stands at a corner of the path.
#[derive(Clone, Copy)]
pub(crate) struct Landing {
    /// The quarter that is turned to be the one up and to the right.
    pub quarter: Quarter,
    /// Whether the path is seen in the mirror that makes columns of rows, so that its next run goes to the right.
    pub mirrored: bool,
    /// The number of steps to this corner, and to the next one.
    pub steps: usize,
    pub next: usize,
    pub funnel: Funnel,
}

impl Landing {
    /// At the path's start.
    fn start(track: &Track, first: usize, most: usize, quarter: Quarter) -> Landing
        requires subpath { IsSubpath track.now first most }
        requires some { 1 ≤ most }
        requires quarter { IsQuarter quarter }
        requires stairs { AreStairs (path_from track.now first) most (stairs_of quarter (path_from track.now first)) }
        ensures { IsLanding track.now first most result }
    {
        Landing {
            quarter,
            mirrored: track.step(first).is_upright(),
            steps: 0,
            next: track.corner_after(first, 0),
            funnel: Funnel::open(),
        }
    }

    /// The landing at the next corner, if it comes before so many steps and the funnel holds it.
    #[inline(always)]
    fn run_on(self, track: &Track, first: usize, most: usize, in_lap: bool) -> Option<Landing>
        requires subpath { IsSubpath track.now first most }
        requires in_lap { IsTrue in_lap → first + most ≤ length track.now }
        requires landing { IsLanding track.now first most self }
        ensures landing { IfSome result (IsLanding track.now first most) }
        ensures later { IfSome result (λ landing. self.steps < landing.steps) }
        ensures last { (result ≡ None) → IsLastLanding most self }
    {
        if most <= self.next {
            return None;
        }
        let funnel = self.funnel.over(self.next - self.steps)?;
        Some(Landing {
            quarter: self.quarter,
            mirrored: !self.mirrored,
            steps: self.next,
            next: track.corner_within(first, self.next, in_lap),
            funnel: funnel.mirrored(),
        })
    }
}

/// The last landing before so many steps that the funnels hold.
//
// Two runs at a time, so that the mirror costs nothing: what one run puts into the place of the other border, the next
// one puts back.
fn last_landing(track: &Track, first: usize, most: usize, start: Landing) -> Landing
    requires subpath { IsSubpath track.now first most }
    requires landing { IsLanding track.now first most start }
    ensures landing { IsLanding track.now first most result }
    ensures last { IsLastLanding most result }
{
    if most <= track.size() - first {
        return landing_within(track, first, most, true, start);
    }
    landing_within(track, first, most, false, start)
}

/// The same, where it is told whether all points are known to be in the first lap.
#[inline(always)]
fn landing_within(track: &Track, first: usize, most: usize, in_lap: bool, start: Landing) -> Landing
    requires subpath { IsSubpath track.now first most }
    requires in_lap { IsTrue in_lap → first + most ≤ length track.now }
    requires landing { IsLanding track.now first most start }
    ensures landing { IsLanding track.now first most result }
    ensures last { IsLastLanding most result }
{
    let mut landing = start;
    while landing.next < most {
        let Some(corner) = landing.run_on(track, first, most, in_lap) else {
            return landing;
        };
        let Some(farther) = corner.run_on(track, first, most, in_lap) else {
            return corner;
        };
        landing = farther;
    }
    landing
}

/// For how many steps from this point on the cones hold, up to a number of steps in none of which the path goes back in the
/// quarter, and a cone of points among those.
pub(crate) fn scan_up(track: &Track, first: usize, most: usize, quarter: Quarter) -> Scan
    requires subpath { IsSubpath track.now first most }
    requires some { 1 ≤ most }
    requires quarter { IsQuarter quarter }
    requires stairs { AreStairs (path_from track.now first) most (stairs_of quarter (path_from track.now first)) }
    ensures steps { IsClearUpTo (path_from track.now first) most result.steps }
    ensures cone { IsSound result.cone }
{
    let start = Landing::start(track, first, most, quarter);
    let end = last_landing(track, first, most, start);
    let run = min(end.next, most) - end.steps;
    match end.funnel.over(run) {
        Some(funnel) => Scan {
            steps: most,
            cone: funnel.cone(end.quarter, end.mirrored),
        },
        None => Scan {
            steps: end.steps + end.funnel.held(run),
            cone: end.funnel.cone(end.quarter, end.mirrored),
        },
    }
}
