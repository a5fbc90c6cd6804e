//! The search for a vertex, compared with a plain search.
ghost use Rattle.std.specs.Prelude.{IsTrue, pos, unsigned_abs, ◌≤◌, ◌≤ℤ◌, ◌^◌};

use super::lot::Lot;
use super::plain::{best_of_all, best_of_column, moved};
use pt_core::{LONGEST_SIDE, Point};
use vertex_adjust::{Line, column, vertex};

/// How large the numbers of a normal are, and how far a line's centre may lie from the point. There are lines that meet
/// near the point, lines far away, and flat ones with many ties.
const KINDS: [(u32, u32); 5] = [
    (4096, 700),
    (4096, 1024 * LONGEST_SIDE),
    (3, 600),
    (1, 40),
    (4096, 60),
];

/// The last column and row of a page's corners.
const LAST: u16 = LONGEST_SIDE as u16;

/// How far right or up the centre of a segment's line may lie, in units of 1/1024 pixel: one page side beyond the last
/// corner.
const FARTHEST: u64 = 2048 * LONGEST_SIDE as u64;

/// A point with coordinates from 0 to `most`, and two lines near it.
fn drawn(lot: &mut Lot, round: usize, most: u16) -> (Point, Line, Line) {
    let (normal, spread) = KINDS[round % 5];
    let v = lot.point(most);
    let first = lot.line(v, normal, spread);
    let second = lot.line(v, normal, spread);
    (v, first, second)
}

/// Whether a line's normal has numbers of at most 1 in size, and its centre is at most this far away along both axes.
fn is_within(line: &Line, centre: u64) -> bool
    ensures nx { IsTrue result → unsigned_abs line.now.nx ≤ 2 ^ 12 }
    ensures ny { IsTrue result → unsigned_abs line.now.ny ≤ 2 ^ 12 }
    ensures cx { IsTrue result → unsigned_abs line.now.cx ≤ centre }
    ensures cy { IsTrue result → unsigned_abs line.now.cy ≤ centre }
{
    line.nx.unsigned_abs() <= 4096
        && line.ny.unsigned_abs() <= 4096
        && line.cx.unsigned_abs() <= centre
        && line.cy.unsigned_abs() <= centre
}

/// The vertex at a point between two lines, if they may be lines of a path on a page.
fn vertex_at(before: &Line, after: &Line, v: Point) -> Option<(i64, i64)> {
    if !is_within(before, FARTHEST) || !is_within(after, FARTHEST) {
        return None;
    }
    if v.x < 0 || i32::from(LAST) < v.x || v.y < 0 || i32::from(LAST) < v.y {
        return None;
    }
    let found = vertex(before, after, v);
    Some((i64::from(found.x), i64::from(found.y)))
}

/// The best of all places, found by trying all.
fn plain_vertex(before: &Line, after: &Line, v: Point) -> (i64, i64) {
    let best = best_of_all(before, after, v);
    (moved(v.x, best.right), moved(v.y, best.up))
}

/// The best row of a column of places, if the lines may be lines of a path on a far larger page.
fn row_at(first: &Line, second: &Line, v: Point, s: i32) -> Option<i64> {
    if !is_within(first, 1 << 27) || !is_within(second, 1 << 27) || s < -32 || 32 < s {
        return None;
    }
    if v.x < 0 || 32767 < v.x || v.y < 0 || 32767 < v.y {
        return None;
    }
    Some(i64::from(column(first, second, v, s)))
}

/// A line's normal and its centre.
type Numbers = (i64, i64, i64, i64);

fn line(numbers: Numbers) -> Line {
    let (nx, ny, cx, cy) = numbers;
    Line { nx, ny, cx, cy }
}

const NOWHERE: Numbers = (0, 0, 3072, 4096);

/// Two lines, and the vertex at the point (3, 4).
const TIES: [(Numbers, Numbers, (i64, i64)); 8] = [
    // All places are equally near: the point itself.
    (NOWHERE, NOWHERE, (3072, 4096)),
    // A slope to the right and down: the lower one of two places that are equally near to the point.
    ((2896, 2896, 3088, 4096), NOWHERE, (3088, 4096)),
    ((2896, 2896, 3024, 4096), NOWHERE, (3056, 4064)),
    ((2896, -2896, 3152, 4096), NOWHERE, (3104, 4048)),
    // Two columns are equally near: the shorter shift.
    ((4096, 0, 3080, 4096), NOWHERE, (3072, 4096)),
    // Lines that meet too far away, and at the last candidate.
    ((4096, 0, 3872, 4096), (0, 4096, 3072, 3396), (3584, 3584)),
    ((4096, 0, 3584, 4096), (0, 4096, 3072, 4608), (3584, 4608)),
    // Lines that don't meet.
    ((4096, 0, 3136, 4096), (4096, 0, 3008, 4096), (3072, 4096)),
];

#[test]
fn ties_and_lines_that_do_not_meet(rt: HostRuntime) {
    let v = Point { x: 3, y: 4 };
    for (before, after, wanted) in TIES {
        let (before, after) = (line(before), line(after));
        let found = (vertex_at(&before, &after, v), vertex_at(&after, &before, v));
        assert_eq!(rt; found, (Some(wanted), Some(wanted)));
        assert_eq!(rt; plain_vertex(&before, &after, v), wanted);
    }
}

#[test]
fn vertices_are_the_best_of_all_places(rt: HostRuntime) {
    let mut lot = Lot::new();
    for round in 0..500 {
        let (v, before, mut after) = drawn(&mut lot, round, LAST);
        // Every third pair of lines is parallel.
        if round % 3 == 0 {
            after = line((before.nx, before.ny, after.cx, after.cy));
        }
        let found = vertex_at(&before, &after, v);
        let wanted = plain_vertex(&before, &after, v);
        assert_eq!(rt; found, Some(wanted), "{before:?} {after:?}");
    }
}

#[test]
fn columns_are_lowest_where_all_rows_say(rt: HostRuntime) {
    let mut lot = Lot::new();
    for round in 0..1000 {
        let (v, first, second) = drawn(&mut lot, round, 32767);
        let s = (round % 65) as i32 - 32;
        let found = row_at(&first, &second, v, s);
        let best = best_of_column(&first, &second, v, i64::from(s));
        assert_eq!(rt; found, Some(best.up), "{first:?} {second:?} at {s}");
    }
}

#[test]
fn rows_of_columns(rt: HostRuntime) {
    let slope = line((2896, 2896, 341, 341));
    let flat = line((0, 0, 341, 341));
    let v = Point { x: 0, y: 0 };
    let rows = [
        row_at(&slope, &slope, v, 0),
        row_at(&slope, &slope, v, 32),
        row_at(&flat, &flat, v, 7),
    ];
    assert_eq!(rt; rows, [Some(32), Some(11), Some(0)]);
}
