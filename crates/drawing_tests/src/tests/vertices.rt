//! Lines of segments and vertices of polygons. Another program computed them with integers of any size.
ghost use Rattle.std.specs.Prelude.{◌≡◌, IfOk};

use super::samples::{Place, points_at};
use super::segments::{is_polygon, segment_sums};
use prefix_moments::Moments;
use pt_base::is_closed_walk;
use pt_core::{MOST_STEPS, NoMemory, Polygon, Sequence};
use std::alloc::Global;
use std::test::Fail;
use vertex_adjust::{Line, VertexMemo, adjust, adjust_by, line_of};

const PIXEL: &[Place] = &[(0, 1), (0, 0), (1, 0), (1, 1)];

const NINE: &[Place] = &[
    (0, 3),
    (0, 2),
    (0, 1),
    (0, 0),
    (1, 0),
    (2, 0),
    (3, 0),
    (3, 1),
    (3, 2),
    (3, 3),
    (2, 3),
    (1, 3),
];

/// ```text
/// . . . . # #
/// # # # # # #
/// # # # # . .
/// ```
const SLOPE: &[Place] = &[
    (0, 2),
    (0, 1),
    (0, 0),
    (1, 0),
    (2, 0),
    (3, 0),
    (4, 0),
    (4, 1),
    (5, 1),
    (6, 1),
    (6, 2),
    (6, 3),
    (5, 3),
    (4, 3),
    (4, 2),
    (3, 2),
    (2, 2),
    (1, 2),
];

/// A path, a segment, and its line's normal and centre.
const LINES: [(&[Place], u32, u32, (i64, i64), (i64, i64)); 10] = [
    // Down, to the right, and both.
    (PIXEL, 0, 1, (4096, 0), (0, 512)),
    (PIXEL, 1, 2, (0, 4096), (512, 0)),
    (PIXEL, 0, 2, (2896, 2896), (341, 341)),
    // Equally far both ways.
    (PIXEL, 0, 3, (0, 0), (512, 512)),
    // Past the last point.
    (PIXEL, 3, 5, (2896, -2897), (341, 682)),
    (SLOPE, 6, 11, (2993, -2797), (5290, 1365)),
    (SLOPE, 2, 6, (0, 4096), (2048, 0)),
    (SLOPE, 13, 18, (-533, 4061), (2389, 2218)),
    (SLOPE, 5, 10, (-2001, 3574), (4778, 853)),
    (SLOPE, 12, 19, (-1059, 3956), (2432, 2176)),
];

#[test]
fn lines_of_segments(rt: HostRuntime) -> Result<(), Fail> {
    for (path, i, j, (nx, ny), (cx, cy)) in LINES {
        let found = line_along(rt.alloc(), path, i, j)?;
        assert_eq!(rt; found, Some(Line { nx, ny, cx, cy }), "{i} to {j}");
    }
    Ok(())
}

fn line_along(alloc: Global, path: &[Place], i: u32, j: u32) -> Result<Option<Line>, Fail> {
    let points = points_at(alloc, path)?;
    let (start, end) = (i as usize, j as usize);
    if !is_closed_walk(&points) || points.len() <= start || end <= start {
        return Ok(None);
    }
    if MOST_STEPS < j - i || points.len() < end - start {
        return Ok(None);
    }
    let moments = Moments::of(alloc, &points)?;
    let sums = segment_sums(&points, &moments, i, j);
    Ok(Some(line_of(&sums, points[start])))
}

/// A path, the indices of a polygon, and its vertices.
const VERTICES: [(&[Place], &[u32], &[Place]); 10] = [
    (
        PIXEL,
        &[0, 1, 2, 3],
        &[(0, 1024), (0, 0), (1024, 0), (1024, 1024)],
    ),
    (PIXEL, &[1, 2, 3], &[(-336, 0), (1024, 0), (1024, 1360)]),
    (PIXEL, &[1, 3], &[(512, 512), (512, 512)]),
    (PIXEL, &[2], &[(1024, 0)]),
    (
        NINE,
        &[2, 5, 8, 11],
        &[(-304, 608), (2464, -304), (3376, 2464), (608, 3376)],
    ),
    (
        NINE,
        &[1, 4, 6, 10],
        &[(-304, 2464), (512, 0), (3216, 0), (2560, 3408)],
    ),
    (
        NINE,
        &[0, 2, 5, 9],
        &[(0, 3072), (0, 512), (2560, -336), (3216, 3072)],
    ),
    (
        SLOPE,
        &[0, 2, 6, 11, 13],
        &[(0, 1904), (0, 0), (4016, 0), (6656, 2992), (4608, 2800)],
    ),
    (
        SLOPE,
        &[2, 6, 11, 16],
        &[(-512, 96), (4016, 0), (6656, 3184), (1536, 1968)],
    ),
    (
        SLOPE,
        &[1, 5, 10, 12],
        &[(-512, 960), (3008, -144), (6640, 1888), (5520, 3008)],
    ),
];

#[test]
fn vertices_of_polygons(rt: HostRuntime) -> Result<(), Fail> {
    // What is cached for one polygon must not change the next ones.
    let mut memo = VertexMemo::new(rt.alloc())?;
    for (path, at, vertices) in VERTICES {
        let same = has_vertices(rt.alloc(), path, at, vertices, &mut memo)?;
        assert!(rt; same, "{at:?}: {vertices:?}");
    }
    Ok(())
}

fn has_vertices(
    alloc: Global,
    path: &[Place],
    at: &[u32],
    vertices: &[Place],
    memo: &mut VertexMemo,
) -> Result<bool, Fail> {
    let points = points_at(alloc, path)?;
    if !is_closed_walk(&points) || !is_polygon(&points, at) {
        return Ok(false);
    }
    let polygon = polygon_at(alloc, at)?;
    let moments = Moments::of(alloc, &points)?;
    let adjusted = adjust(alloc, &points, &polygon)?;
    let by_memo = adjust_by(alloc, &points, &moments, &polygon, memo)?;
    let wanted = points_at(alloc, vertices)?;
    Ok(adjusted.as_slice() == wanted.as_slice() && by_memo.as_slice() == wanted.as_slice())
}

fn polygon_at(alloc: Global, at: &[u32]) -> Result<Polygon, NoMemory>
    ensures { IfOk result (λ polygon. polygon.at ≡ at.now) }
{
    Ok(Polygon {
        at: Sequence::from_vec(Vec::from_slice(alloc, at)?),
        cost: 0,
    })
}
