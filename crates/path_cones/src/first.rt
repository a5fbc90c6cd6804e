//! How far the cones from one point hold.
ghost use Rattle.std.specs.Prelude.{◌≡◌, ◌⊎◌, ◌+◌, ◌<◌, ◌≤◌};
ghost use Rattle.path_cones.specs.Inner.Cones.{HoldsWay, IsSound};
ghost use Rattle.path_cones.specs.Straight.{path_from};
ghost use Rattle.path_cones.specs.Inner.Tails.{IsClearUpTo, IsSubpath, way_along};

use crate::cone::Cone;
use crate::landing::scan_up;
use crate::quarter::Quarter;
use crate::track::Track;

/// For how many steps from this point on the cones hold, up to a number of steps, and a cone of points among those.
//
// Where the path goes as far into a quarter as it has steps, none of its steps goes back there. Of maps and text nearly
// all paths that are scanned are like that.
#[inline(always)]
pub fn clear_steps(track: &Track, first: usize, most: usize) -> Scan
    requires subpath { IsSubpath track.now first most }
    ensures steps { IsClearUpTo (path_from track.now first) most result.steps }
    ensures cone { IsSound result.cone }
{
    let way = track.way(first, most);
    let quarter = Quarter::of(way);
    if 0 < most && quarter.far(way) == most as i64 {
        return scan_up(track, first, most, quarter);
    }
    scan_around(track, first, most)
}

/// The same, where the path may go back.
//
// The cone is the intersection of those around each point so far, so the next point needs no look
// back: it is in the cone exactly where each point so far is near the half-line through it. Along a
// straight run only the last point is asked, and speaks for those between: a half-line near the
// run's two ends is near each point between them, and of two half-lines near a point each one
// between them is near it.
#[inline(never)]
fn scan_around(track: &Track, first: usize, most: usize) -> Scan
    requires subpath { IsSubpath track.now first most }
    ensures steps { IsClearUpTo (path_from track.now first) most result.steps }
    ensures cone { IsSound result.cone }
{
    let mut cone = Cone::Open;
    let mut steps = 0;
    while steps < most {
        let next = track.run_end(first, steps, most);
        let way = track.way(first, next);
        if !cone.holds(way) {
            let last = last_held(track, first, cone, steps, next);
            return Scan { steps: last, cone };
        }
        cone = cone.narrowed(way);
        steps = next;
    }
    Scan { steps: most, cone }
}

/// How far a scan from a point has come: after how many steps it stands, and a cone of points among those.
#[derive(Clone, Copy)]
pub struct Scan {
    pub steps: usize,
    pub cone: Cone,
}

/// After how many steps the cone ends, by halving: it holds the point after `held` steps, or is that
/// of the points so far, and it doesn't hold the point after `out` steps.
//
// A run of up to three steps takes two tests at most, one of 2,000 takes eleven, and there is one such run in each
// scan. Division would need the floor of two quotients, and a case of its own for a run through the start itself.
fn last_held(track: &Track, first: usize, cone: Cone, held: usize, out: usize) -> usize
    requires subpath { IsSubpath track.now first out }
    requires sound { IsSound cone }
    requires order { held < out }
    requires not_held { ¬ HoldsWay cone (way_along (path_from track.now first) out) }
    ensures at_least { held ≤ result }
    ensures below { result < out }
    ensures last { (result ≡ held) ⊎ HoldsWay cone (way_along (path_from track.now first) result) }
    ensures next { ¬ HoldsWay cone (way_along (path_from track.now first) (result + 1)) }
{
    let (mut last, mut beyond) = (held, out);
    while last + 1 < beyond {
        let middle = last + (beyond - last) / 2;
        if cone.holds(track.way(first, middle)) {
            last = middle;
        } else {
            beyond = middle;
        }
    }
    last
}
