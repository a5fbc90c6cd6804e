//! How far possible segments reach, found by cones that walk along every point of the path.
use pt_core::{MOST_STEPS, NoMemory, Point};
use std::alloc::Global;

/// The step from one point to another.
type Way = (i64, i64);

/// The most steps of a possible segment.
const MOST: usize = MOST_STEPS as usize;

/// For each point of a closed walk, the number of steps of its longest possible segment.
pub fn reaches(alloc: Global, points: &[Point]) -> Result<Vec<u32>, NoMemory> {
    let size = points.len();
    let mut ends = vec![in alloc; 0usize; size]?;
    let mut reaches = vec![in alloc; 0u32; size]?;
    if size < 4 || 100_000_000 < size {
        return Ok(reaches);
    }
    // Two laps, backwards: a straight subpath ends at the latest where those from later points do.
    let mut end = usize::MAX;
    for index in (0..size.wrapping_mul(2)).rev() {
        let place = index % size;
        let own = index.wrapping_add(straight_steps(points, place));
        end = end.min(own);
        ends[place] = end.wrapping_sub(index);
    }
    // A segment's straight subpath has one more step before it and one after it.
    for place in 0..size {
        let straight = ends[place.wrapping_add(size).wrapping_sub(1) % size];
        let most = MOST.min(size.wrapping_sub(3));
        reaches[place] = straight.wrapping_sub(2).min(most) as u32;
    }
    Ok(reaches)
}

/// The number of steps from a point for which the cones hold and not all four directions occur.
fn straight_steps(points: &[Point], first: usize) -> usize {
    let size = points.len();
    let (mut low, mut high) = ((0, 0), (0, 0));
    let (mut east, mut north, mut west, mut south) = (false, false, false, false);
    for steps in 1..size.min(MOST.wrapping_add(3)) {
        let before = at(points, first.wrapping_add(steps).wrapping_sub(1));
        let here = at(points, first.wrapping_add(steps));
        east |= here.x > before.x;
        north |= here.y > before.y;
        west |= here.x < before.x;
        south |= here.y < before.y;
        let way = between(at(points, first), here);
        if east && north && west && south || !is_in(low, high, way) {
            return steps.wrapping_sub(1);
        }
        (low, high) = narrowed(low, high, way);
    }
    size.wrapping_sub(1).min(MOST.wrapping_add(2))
}

/// The point with this index, in any lap.
fn at(points: &[Point], index: usize) -> Point {
    match points.get(index % points.len().max(1)) {
        Some(point) => *point,
        None => Point { x: 0, y: 0 },
    }
}

fn between(from: Point, to: Point) -> Way {
    (
        i64::from(to.x).wrapping_sub(i64::from(from.x)),
        i64::from(to.y).wrapping_sub(i64::from(from.y)),
    )
}

fn cross(a: Way, b: Way) -> i64 {
    a.0.wrapping_mul(b.1).wrapping_sub(a.1.wrapping_mul(b.0))
}

/// Whether a direction lies in the cone from `low` to `high`. The cone (0, 0) has no borders and contains all
/// directions.
fn is_in(low: Way, high: Way, way: Way) -> bool {
    low == (0, 0) || way != (0, 0) && cross(low, way) >= 0 && cross(way, high) >= 0
}

/// The part of a cone that comes within 1 of the end of `way`.
fn narrowed(low: Way, high: Way, way: Way) -> (Way, Way) {
    let (x, y) = way;
    if -1 <= x && x <= 1 && -1 <= y && y <= 1 {
        return (low, high);
    }
    // The corners of the square around the end that lie farthest to the right and to the left.
    let (mut right, mut left) = (way, way);
    for corner in [(-1i64, -1i64), (-1, 1), (1, -1), (1, 1)] {
        let there = (x.wrapping_add(corner.0), y.wrapping_add(corner.1));
        if is_before(there, right) {
            right = there;
        }
        if is_before(left, there) {
            left = there;
        }
    }
    let low = if low == (0, 0) || is_before(low, right) {
        right
    } else {
        low
    };
    let high = if high == (0, 0) || is_before(left, high) {
        left
    } else {
        high
    };
    (low, high)
}

/// Whether the first direction lies to the right of the second one.
fn is_before(first: Way, second: Way) -> bool {
    cross(first, second) > 0
}

/// The number of steps from a point to the next one at which the path turns.
pub fn next_corner(points: &[Point], first: usize) -> u32 {
    let start = between(at(points, first), at(points, first.wrapping_add(1)));
    let mut steps = 1u32;
    for index in first.wrapping_add(1)..first.wrapping_add(points.len()) {
        if between(at(points, index), at(points, index.wrapping_add(1))) != start {
            return steps;
        }
        steps = steps.wrapping_add(1);
    }
    0
}
