//! Where the corners of a closed walk are.
ghost use Rattle.std.specs.Prelude.{◌≡◌, ◌+◌, ◌^◌, ◌<◌, ◌≤◌, length, unsigned_abs, IfOk};
ghost use Rattle.pt_core.specs.ClosedWalk.{IsClosedWalk};
ghost use Rattle.path_cones.specs.Corners.{IsNextCorner};
ghost use Rattle.path_cones.specs.Inner.Corners.{AreNextCorners, mark_of, marked_by};

use crate::laps::Laps;
use pt_core::{NoMemory, Point};
use std::alloc::Global;

/// For each point, the number of steps to the next corner.
pub(crate) fn corners_of(alloc: Global, laps: &Laps) -> Result<Vec<u32>, NoMemory>
    requires closed { IsClosedWalk laps.now }
    ensures places { IfOk result (λ corners. length corners.items ≡ length laps.now) }
    ensures corners { IfOk result (λ corners. AreNextCorners laps.now corners.items) }
{
    let mut corners = vec![in alloc; 0; laps.size()]?;
    fill_corners(laps, &mut corners);
    Ok(corners)
}

/// Writes down the number of steps from each point to the next corner.
//
// Each point is looked up once, by its place in the first lap. Steps are told apart by their marks, which take one sum a
// point.
fn fill_corners(laps: &Laps, corners: &mut [u32])
    requires closed { IsClosedWalk laps.now }
    requires places { length corners.old ≡ length laps.now }
    ensures places { length corners.new ≡ length corners.old }
    ensures corners { AreNextCorners laps.now corners.new }
{
    let mut next = first_corner(laps);
    let mut there = mark(laps.at(laps.size()));
    let mut after = mark(laps.at(laps.size() + 1)) - there;
    for index in (0..laps.size()).rev() {
        let here = mark(laps.in_lap(index));
        let step = there - here;
        next = corner_earlier(laps, index, step, after, next);
        there = here;
        after = step;
        corners[index] = next as u32;
    }
}

/// A number that a step to the east makes greater by 1, one to the north by 2, and the others less by as much.
#[inline(always)]
fn mark(point: Point) -> i64
    ensures value { result ≡ mark_of point }
    ensures small { unsigned_abs result ≤ 2 ^ 33 }
{
    i64::from(point.x) + 2 * i64::from(point.y)
}

/// The number of steps from the first point to the next corner.
fn first_corner(laps: &Laps) -> usize
    requires closed { IsClosedWalk laps.now }
    ensures { IsNextCorner laps.now (length laps.now) result }
{
    for steps in 1..laps.size() {
        if !laps.step(steps - 1).is_same(laps.step(steps)) {
            return steps;
        }
    }
    // A walk without a corner never comes back.
    unreachable!()
}

/// The number of steps to the next corner, by that from the next point and by how much the steps from here and from there
/// add to the mark.
#[inline(always)]
fn corner_earlier(laps: &Laps, index: usize, step: i64, after: i64, later: usize) -> usize
    requires closed { IsClosedWalk laps.now }
    requires index { index < length laps.now }
    requires step { step ≡ marked_by laps.now index }
    requires after { after ≡ marked_by laps.now (index + 1) }
    requires later { IsNextCorner laps.now (index + 1) later }
    ensures corner { IsNextCorner laps.now index result }
    ensures most { result < length laps.now }
{
    if step == after { later + 1 } else { 1 }
}
