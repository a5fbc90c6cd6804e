//! The best place of a vertex by its definition: all places are tried.

use pt_core::Point;
use vertex_adjust::Line;

/// A shift with the values that decide between shifts, in this order. The lesser of two is the better one.
#[derive(Clone, Copy, Debug, PartialEq, Eq, PartialOrd, Ord)]
pub(super) struct Tried {
    error: u128,
    length: u64,
    pub up: i64,
    pub right: i64,
}

/// The best of the 4,225 shifts.
pub(super) fn best_of_all(before: &Line, after: &Line, v: Point) -> Tried {
    let mut best = best_of_column(before, after, v, -32);
    for right in -31..33 {
        let next = best_of_column(before, after, v, right);
        if next < best {
            best = next;
        }
    }
    best
}

/// The best of the 65 shifts that go `right` steps to the right.
pub(super) fn best_of_column(before: &Line, after: &Line, v: Point, right: i64) -> Tried {
    let mut best = measured(before, after, v, right, -32);
    for up in -31..33 {
        let next = measured(before, after, v, right, up);
        if next < best {
            best = next;
        }
    }
    best
}

fn measured(before: &Line, after: &Line, v: Point, right: i64, up: i64) -> Tried {
    let x = moved(v.x, right);
    let y = moved(v.y, up);
    let error = square(distance(before, x, y)).wrapping_add(square(distance(after, x, y)));
    let length = right.wrapping_mul(right).wrapping_add(up.wrapping_mul(up));
    Tried {
        error,
        length: length.unsigned_abs(),
        up,
        right,
    }
}

/// A coordinate in units of 1/1024 pixel: `steps` steps of 1/64 pixel from a coordinate in pixels.
pub(super) fn moved(coordinate: i32, steps: i64) -> i64 {
    let start = i64::from(coordinate).wrapping_mul(1024);
    start.wrapping_add(steps.wrapping_mul(16))
}

fn distance(line: &Line, x: i64, y: i64) -> i64 {
    let right = line.nx.wrapping_mul(x.wrapping_sub(line.cx));
    right.wrapping_add(line.ny.wrapping_mul(y.wrapping_sub(line.cy)))
}

fn square(distance: i64) -> u128 {
    let size = u128::from(distance.unsigned_abs());
    size.wrapping_mul(size)
}
