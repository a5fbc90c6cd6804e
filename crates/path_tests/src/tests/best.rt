//! The best polygon among all lists of vertices, by the definition, in whole numbers: among the polygons through a
//! path's first point, and among all polygons.
ghost use Rattle.std.specs.Prelude.{◌≤◌, ◌<◌, length};

use page_samples::is_possible;
use pt_core::Point;

/// The vertices of the best polygon, one bit for each, and its penalty. With `through_first` only polygons through the
/// path's first point are tried.
pub(super) fn best(points: &[Point], through_first: bool) -> (u32, u64)
    requires { length points.now ≤ 24 }
{
    let costs = segments(points);
    let size = points.len();
    let mut vertices = 0u32;
    let mut cost = 0;
    for list in 1..1u32 << size {
        let fewer = vertices == 0 || list.count_ones() < vertices.count_ones();
        let as_few = fewer || list.count_ones() == vertices.count_ones();
        if as_few && (list % 2 == 1 || !through_first) {
            if let Some(total) = total(&costs, size, list) {
                if fewer || total < cost || total == cost && is_lower(list, vertices) {
                    vertices = list;
                    cost = total;
                }
            }
        }
    }
    (vertices, cost)
}

/// Whether a list of vertices is lower than another one of the same length: it has the first vertex in which they
/// differ.
fn is_lower(list: u32, other: u32) -> bool {
    let differing = list ^ other;
    let first = differing & differing.wrapping_neg();
    list & first != 0
}

/// The sum of the penalties of a polygon's segments, if all segments are possible. The last segment leads from the last
/// vertex to the first one.
fn total(costs: &[[Option<u64>; 49]; 25], size: usize, list: u32) -> Option<u64>
    requires { size ≤ 24 }
{
    let first = list.trailing_zeros() as usize;
    let mut total = 0u64;
    let mut from = first;
    for to in first + 1..first + size + 1 {
        if from < 25 && to < 49 && (to == first + size || to < size && list >> to & 1 == 1) {
            total = total.wrapping_add(costs[from][to]?);
            from = to;
        }
    }
    Some(total)
}

/// The penalties of the possible segments, including those that lead past the path's end.
fn segments(points: &[Point]) -> [[Option<u64>; 49]; 25]
    requires { length points.now ≤ 24 }
{
    let mut costs = [[None; 49]; 25];
    let size = points.len();
    for i in 0..size {
        for j in i + 1..i + size {
            if is_possible(points, i, j) {
                costs[i][j] = Some(penalty(points, i, j));
            }
        }
    }
    costs
}

/// The penalty of a segment, as a sum over its points.
fn penalty(points: &[Point], i: usize, j: usize) -> u64 {
    let size = points.len();
    if size == 0 || j <= i || 100_000 < j {
        return 0;
    }
    let (from, to) = (points[i % size], points[j % size]);
    let mut sum = 0u64;
    for k in i..j + 1 {
        let at = points[k % size];
        let across = cross(offset(from, at), offset(from, to));
        sum = sum.wrapping_add(across.wrapping_mul(across).unsigned_abs());
    }
    let mean = sum.wrapping_mul(65536) / (j - i + 1) as u64;
    for root in 0..1_000_000u64 {
        if mean < (root + 1) * (root + 1) {
            return root;
        }
    }
    u64::MAX
}

/// The offset from one point to another.
fn offset(from: Point, to: Point) -> (i64, i64) {
    (
        i64::from(to.x).wrapping_sub(i64::from(from.x)),
        i64::from(to.y).wrapping_sub(i64::from(from.y)),
    )
}

fn cross(a: (i64, i64), b: (i64, i64)) -> i64 {
    a.0.wrapping_mul(b.1).wrapping_sub(a.1.wrapping_mul(b.0))
}
