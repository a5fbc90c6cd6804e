//! Closed walks along pixel edges.

use pt_core::{NoMemory, Point};
use std::alloc::Global;

/// The path around a black rectangle at the lower left corner of a page.
pub fn round(alloc: Global, width: i32, height: i32) -> Result<Vec<Point>, NoMemory> {
    let mut points = Vec::new(alloc);
    put_side(&mut points, Point { x: 0, y: height }, (0, -1), height)?;
    put_side(&mut points, Point { x: 0, y: 0 }, (1, 0), width)?;
    put_side(&mut points, Point { x: width, y: 0 }, (0, 1), height)?;
    put_side(
        &mut points,
        Point {
            x: width,
            y: height,
        },
        (-1, 0),
        width,
    )?;
    Ok(points)
}

/// A walk with the longest straight part that fits into a square: stairs, with one step before them and one
/// after.
///
/// From (0, 1) it goes south, and then alternately east and north until a step below the upper side. Then it
/// goes north, east, and back by way of (`side`, 1).
pub fn hooked_stairs(alloc: Global, side: i32) -> Result<Vec<Point>, NoMemory> {
    let last = side.wrapping_sub(1);
    let mut points = vec![in alloc; Point { x: 0, y: 1 }]?;
    for step in 0..last {
        points.push(Point { x: step, y: step })?;
        points.push(Point {
            x: step.wrapping_add(1),
            y: step,
        })?;
    }
    points.push(Point { x: last, y: last })?;
    points.push(Point { x: last, y: side })?;
    put_side(&mut points, Point { x: side, y: side }, (0, -1), last)?;
    put_side(&mut points, Point { x: side, y: 1 }, (-1, 0), last)?;
    points.push(Point { x: 1, y: 1 })?;
    Ok(points)
}

/// Appends `count` points in a straight line.
fn put_side(
    points: &mut Vec<Point>,
    from: Point,
    step: (i32, i32),
    count: i32,
) -> Result<(), NoMemory> {
    let mut at = from;
    for _ in 0..count {
        points.push(at)?;
        at.x = at.x.wrapping_add(step.0);
        at.y = at.y.wrapping_add(step.1);
    }
    Ok(())
}

/// The path around a triangle: from the lower left corner of a square up stairs of one step east and one step
/// north, and back along the upper and the left side.
pub fn triangle(alloc: Global, side: i32) -> Result<Vec<Point>, NoMemory> {
    let mut points = Vec::new(alloc);
    for step in 0..side {
        points.push(Point { x: step, y: step })?;
        points.push(Point {
            x: step.wrapping_add(1),
            y: step,
        })?;
    }
    put_side(&mut points, Point { x: side, y: side }, (-1, 0), side)?;
    put_side(&mut points, Point { x: 0, y: side }, (0, -1), side)?;
    Ok(points)
}

/// Draws the walk that has the base-4 digits of `code` as its steps. Returns whether the walk is closed.
pub fn draw(code: u32, points: &mut [Point]) -> bool {
    let mut rest = code;
    let (mut x, mut y) = (100i32, 100i32);
    for point in points.iter_mut() {
        *point = Point { x, y };
        match rest % 4 {
            0 => x = x.wrapping_add(1),
            1 => y = y.wrapping_add(1),
            2 => x = x.wrapping_sub(1),
            _ => y = y.wrapping_sub(1),
        }
        rest /= 4;
    }
    x == 100 && y == 100
}
