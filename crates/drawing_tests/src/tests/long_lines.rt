//! Lines of the longest segments. Another program computed them with integers of any size.

use super::segments::segment_sums;
use page_samples::{hooked_stairs, round, triangle};
use prefix_moments::{Moments, Sums};
use pt_base::is_closed_walk;
use pt_core::{MOST_STEPS, NoMemory, Point};
use std::alloc::Global;
use std::test::Fail;
use vertex_adjust::{Line, line_of};

/// A walk that is as long as the greatest page allows.
#[derive(Clone, Copy)]
enum Walk {
    /// Around a row of pixels.
    Bar,
    /// Up stairs, and back along two sides.
    Stairs,
    /// Up stairs, with a step before them and one after them.
    Hooked,
}

fn points_of(alloc: Global, walk: Walk) -> Result<Vec<Point>, NoMemory> {
    match walk {
        Walk::Bar => round(alloc, 32767, 1),
        Walk::Stairs => triangle(alloc, 32767),
        Walk::Hooked => hooked_stairs(alloc, 32767),
    }
}

/// The number of points, and the sums of their offsets, of the offsets' squares and of their products.
type Numbers = (u32, i64, i64, i64, i64, i64);

/// The results for a segment: its sums, its penalty, and its line's normal and centre.
type Found = (Numbers, u64, (i64, i64), (i64, i64));

/// A walk, a segment, and the results for it.
const LONG: [(Walk, u32, u32, Found); 5] = [
    (
        Walk::Bar,
        1,
        32768,
        (
            (32768, 536854528, 0, 11727587164160, 0, 0),
            0,
            (0, 4096),
            (16776704, 0),
        ),
    ),
    (
        Walk::Stairs,
        0,
        65534,
        (
            (
                65535,
                1073709056,
                1073676289,
                23455174328320,
                23454637473792,
                23454100652031,
            ),
            5931415,
            (2896, -2897),
            (16776959, 16776448),
        ),
    ),
    // The most steps for which the variances are within 2^58, and one step more.
    (
        Walk::Stairs,
        0,
        60987,
        (
            (
                60988,
                929884036,
                929853542,
                18903922539354,
                18903457582089,
                18902992655318,
            ),
            4506953,
            (-2897, 2896),
            (15612928, 15612416),
        ),
    ),
    (
        Walk::Stairs,
        0,
        60988,
        (
            (
                60989,
                929914530,
                929884036,
                18904852423390,
                18904387466125,
                18903922539354,
            ),
            5519958,
            (2896, -2897),
            (15613183, 15612672),
        ),
    ),
    (
        Walk::Hooked,
        1,
        65535,
        (
            (
                65535,
                1073709055,
                1073676290,
                23455174262787,
                23454637473792,
                23454100717564,
            ),
            5931415,
            (2896, -2897),
            (16776959, 16776448),
        ),
    ),
];

#[test]
fn lines_of_the_longest_segments(rt: HostRuntime) -> Result<(), Fail> {
    for (walk, i, j, wanted) in LONG {
        let found = found_along(rt.alloc(), walk, i, j)?;
        assert_eq!(rt; found, Some(wanted), "{i} to {j}");
    }
    Ok(())
}

fn found_along(alloc: Global, walk: Walk, i: u32, j: u32) -> Result<Option<Found>, Fail> {
    let points = points_of(alloc, walk)?;
    let (start, end) = (i as usize, j as usize);
    if !is_closed_walk(&points) || points.len() <= start || end <= start {
        return Ok(None);
    }
    if MOST_STEPS < j - i || points.len() < end - start {
        return Ok(None);
    }
    let moments = Moments::of(alloc, &points)?;
    let sums = segment_sums(&points, &moments, i, j);
    let line = line_of(&sums, points[start]);
    let penalty = moments.penalty(i, j);
    Ok(Some((
        numbers_of(&sums),
        penalty,
        normal_of(line),
        (line.cx, line.cy),
    )))
}

fn numbers_of(sums: &Sums) -> Numbers {
    (sums.count, sums.x, sums.y, sums.xx, sums.xy, sums.yy)
}

fn normal_of(line: Line) -> (i64, i64) {
    (line.nx, line.ny)
}
