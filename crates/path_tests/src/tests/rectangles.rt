//! Paths around rectangles, with results that were found by hand: segments, corners, sums, penalties and polygons.
ghost use Rattle.std.specs.Prelude.{IfOk};
ghost use Rattle.pt_core.specs.ClosedWalk.{IsClosedWalk};
ghost use Rattle.pt_core.specs.OnPage.{AreOnPage};

use page_samples::round;
use polygon_optimal::polygon;
use prefix_moments::{Moments, Sums};
use pt_base::is_closed_walk;
use pt_core::Point;
use std::alloc::Global;
use std::test::Fail;
use straight_paths::Reach;

/// The path around a rectangle at the lower left corner of a page.
fn path_round(alloc: Global, width: i32, height: i32) -> Result<Vec<Point>, Fail>
    ensures closed { IfOk result (λ points. IsClosedWalk points.items) }
    ensures on_page { IfOk result (λ points. AreOnPage points.items) }
{
    let points = round(alloc, width, height)?;
    if !is_closed_walk(&points) {
        return Err(Fail::from("the path isn't closed"));
    }
    Ok(points)
}

/// The rectangle's sides, a segment, how far the segments from its start reach, how many steps away the next corner is,
/// and whether the segment is possible. Values that aren't known are left out. The largest rectangle is a page of 297
/// by 210 millimetres at 300 pixels per inch.
const REACHES: &[(i32, i32, u32, u32, Option<u32>, Option<u32>, Option<bool>)] = &[
    (3, 3, 0, 1, Some(3), Some(3), None),
    (3, 3, 1, 2, Some(2), Some(2), None),
    (3, 3, 2, 3, Some(2), Some(1), None),
    (3, 3, 3, 4, Some(3), Some(3), None),
    (3, 3, 11, 12, Some(2), Some(1), None),
    (2480, 3508, 0, 1, Some(3508), Some(3508), None),
    (2480, 3508, 1, 2, Some(3507), Some(3507), None),
    (2480, 3508, 3508, 3509, Some(2480), Some(2480), None),
    (2480, 3508, 5988, 5989, Some(3508), Some(3508), None),
    (2480, 3508, 11_975, 11_976, Some(2), Some(1), None),
    // At point 3 the distance is exactly 1. Point 5 is beyond the corner.
    (3, 3, 2, 4, None, None, Some(true)),
    (3, 3, 1, 4, None, None, Some(false)),
    // A triangle through every second point, from the first one or from the next.
    (2, 1, 0, 2, None, None, Some(true)),
    (2, 1, 2, 4, None, None, Some(true)),
    (2, 1, 4, 6, None, None, Some(true)),
    (2, 1, 1, 3, None, None, Some(true)),
    (2, 1, 3, 5, None, None, Some(true)),
    (2, 1, 5, 7, None, None, Some(true)),
    (3, 1, 0, 2, None, None, Some(true)),
    (3, 1, 2, 5, None, None, Some(true)),
    (3, 1, 5, 8, None, None, Some(true)),
    (3, 1, 0, 3, None, None, Some(true)),
    (3, 1, 3, 5, None, None, Some(true)),
    (40, 1, 0, 21, None, None, Some(true)),
    (40, 1, 21, 42, None, None, Some(true)),
    (40, 1, 42, 82, None, None, Some(true)),
    (40, 1, 0, 40, None, None, Some(true)),
    (40, 1, 0, 41, None, None, Some(false)),
    (40, 1, 41, 82, None, None, Some(false)),
];

#[test]
fn farthest_corners_and_possible_segments(rt: HostRuntime) -> Result<(), Fail> {
    for &(width, height, i, j, far, corner, possible) in REACHES {
        let found = reach(rt.alloc(), width, height, i, j)?;
        let wanted = (
            far.unwrap_or(found.0),
            corner.unwrap_or(found.1),
            possible.unwrap_or(found.2),
        );
        assert_eq!(rt; found, wanted, "{width} by {height}: {i} to {j}");
    }
    Ok(())
}

fn reach(alloc: Global, width: i32, height: i32, i: u32, j: u32) -> Result<(u32, u32, bool), Fail> {
    let points = path_round(alloc, width, height)?;
    if points.len() <= i as usize || j <= i {
        return Err(Fail::from("no such segment"));
    }
    let reach = Reach::of(alloc, &points)?;
    Ok((reach.far(i), reach.next_corner(i), reach.possible(i, j)))
}

/// The rectangle's sides, a segment, its penalty and its sums. Values that aren't known are left out.
const MOMENTS: &[(i32, i32, u32, u32, Option<u64>, Option<Sums>)] = &[
    (3, 3, 2, 4, Some(147), None),
    (3, 3, 0, 12, Some(0), None),
    (2, 1, 0, 2, Some(147), None),
    (2, 1, 2, 4, Some(147), None),
    (2, 1, 4, 6, Some(0), None),
    (3, 1, 0, 2, Some(147), None),
    (3, 1, 2, 5, Some(286), None),
    (3, 1, 5, 8, Some(0), None),
    (3, 1, 0, 3, Some(286), None),
    (3, 1, 3, 5, Some(147), None),
    (40, 1, 0, 21, Some(2923), None),
    (40, 1, 21, 42, Some(2923), None),
    (40, 1, 42, 82, Some(0), None),
    // Down the left side, and past the last point along the upper side and down again.
    (3, 3, 0, 3, None, Some(DOWN)),
    (3, 3, 11, 13, None, Some(ROUND_THE_END)),
];

const DOWN: Sums = Sums {
    count: 4,
    x: 0,
    y: -6,
    xx: 0,
    xy: 0,
    yy: 14,
};

const ROUND_THE_END: Sums = Sums {
    count: 3,
    x: -2,
    y: -1,
    xx: 2,
    xy: 1,
    yy: 1,
};

#[test]
fn penalties_and_sums(rt: HostRuntime) -> Result<(), Fail> {
    for &(width, height, i, j, penalty, sums) in MOMENTS {
        let found = moments(rt.alloc(), width, height, i, j)?;
        let wanted = (penalty.unwrap_or(found.0), sums.unwrap_or(found.1));
        assert_eq!(rt; found, wanted, "{width} by {height}: {i} to {j}");
    }
    Ok(())
}

fn moments(alloc: Global, width: i32, height: i32, i: u32, j: u32) -> Result<(u64, Sums), Fail> {
    let points = path_round(alloc, width, height)?;
    let size = points.len();
    if size <= i as usize || j <= i || 100 < j || size < (j - i) as usize {
        return Err(Fail::from("no such segment"));
    }
    let moments = Moments::of(alloc, &points)?;
    Ok((moments.penalty(i, j), moments.sums(i, j)))
}

/// The rectangle's sides, the best polygon's vertices, and its penalty.
const POLYGONS: &[(i32, i32, &[u32], u128)] = &[
    (1, 1, &[0, 1, 2, 3], 0),
    (5, 5, &[0, 5, 10, 15], 0),
    (2, 1, &[0, 2, 4], 294),
    // The lists 0 2 5 and 0 3 5 tie.
    (3, 1, &[0, 2, 5], 433),
    // The middle segment has to end at point 42, and the first one may lead to point 40.
    (40, 1, &[0, 21, 42], 5846),
    (248, 351, &[0, 351, 599, 950], 0),
    // The longest bar. Another program computed its polygon.
    (32767, 1, &[0, 206, 32769], 4842942),
];

#[test]
fn best_polygons(rt: HostRuntime) -> Result<(), Fail> {
    for &(width, height, at, cost) in POLYGONS {
        let same = is_best(rt.alloc(), width, height, at, cost)?;
        assert!(rt; same, "{width} by {height}");
    }
    Ok(())
}

fn is_best(alloc: Global, width: i32, height: i32, at: &[u32], cost: u128) -> Result<bool, Fail> {
    let points = path_round(alloc, width, height)?;
    let best = polygon(alloc, &points)?;
    Ok(best.at.as_slice() == at && best.cost == cost)
}
