//! Cyclic polygons, compared with the best polygons from each starting point.

use crate::tests::samples::{Pages, page_of};
use bit_image::Bitmap;
use cyclic_optimal::cyclic_polygon;
use page_samples::{Shape, drawn};
use path_decompose::decompose;
use polygon_optimal::polygon;
use pt_base::is_closed_walk;
use pt_core::{NoMemory, Path, Point, Policy};
use std::alloc::Global;
use std::test::Fail;

/// A page with one path, the vertices of its cyclic polygon, their penalty, and the number of segments of the best
/// polygon through the path's first point.
const ROWS: &[(&[&str], &[u32], u128, usize)] = &[
    // Twelve pixels around the centre. Each segment has the penalty 323.
    (&[".##.", "####", "####", ".##."], &[3, 7, 11, 15], 1292, 5),
    // The lists 0 2 4 and 1 3 5 tie.
    (&["##"], &[0, 2, 4], 294, 3),
    (&["#"], &[0, 1, 2, 3], 0, 4),
    (&["###", "###"], &[0, 2, 5, 7], 0, 4),
];

#[test]
fn worked_paths(rt: HostRuntime) -> Result<(), Fail> {
    for &(rows, at, cost, through) in ROWS {
        let page = drawn(rt.alloc(), rows)?;
        for path in &decompose(rt.alloc(), &page, Policy::Minority)? {
            let found = polygons_of(rt.alloc(), path.points.as_slice(), at)?;
            assert_eq!(rt; found, (true, cost, through), "{rows:?}");
        }
    }
    Ok(())
}

/// Whether these are the vertices of the cyclic polygon, their penalty, and the number of segments of the best polygon
/// through the first point.
fn polygons_of(alloc: Global, points: &[Point], at: &[u32]) -> Result<(bool, u128, usize), Fail> {
    if !is_closed_walk(points) {
        return Ok((false, 0, 0));
    }
    let found = cyclic_polygon(alloc, points)?;
    let through = polygon(alloc, points)?;
    Ok((
        found.at.as_slice() == at,
        found.cost,
        through.at.as_slice().len(),
    ))
}

/// Pages, how many there are, and the least and the greatest number of paths of each. Discs have no corner, so their
/// windows are wide.
const PAGES: &[(Pages, u32, u32, u32)] = &[
    (
        Pages::Shaped(
            Shape::Stairs {
                rows: 3,
                columns: 7,
            },
            60,
        ),
        1,
        1,
        1,
    ),
    (
        Pages::Shaped(
            Shape::Band {
                rows: 5,
                columns: 13,
                high: 90,
            },
            80,
        ),
        1,
        1,
        1,
    ),
    (Pages::Shaped(Shape::Comb { width: 2 }, 26), 1, 1, 1),
    (Pages::Shaped(Shape::Disc, 20), 1, 1, 1),
    (Pages::Shaped(Shape::Disc, 45), 1, 1, 1),
    (Pages::Shaped(Shape::Disc, 100), 1, 1, 1),
    (Pages::Shaped(Shape::Nest { width: 3 }, 40), 1, 7, 7),
    (Pages::Noise(40, 32), 8, 21, u32::MAX),
];

#[test]
fn least_of_all_starts(rt: HostRuntime) -> Result<(), Fail> {
    for (row, (pages, size, least, most)) in PAGES.iter().enumerate() {
        for number in 0..*size {
            let page = page_of(rt.alloc(), *pages, number)?;
            let (paths, alike) = least_paths(rt.alloc(), &page)?;
            let within = *least <= paths && paths <= *most;
            assert_eq!(rt; (within, alike), (true, paths), "row {row}, page {number}");
        }
    }
    Ok(())
}

/// How many paths a page has, and for how many of them the cyclic polygon is the least over all starting points.
fn least_paths(alloc: Global, page: &Bitmap) -> Result<(u32, u32), Fail> {
    let (mut paths, mut least) = (0u32, 0u32);
    for path in &decompose(alloc, page, Policy::Minority)? {
        paths = paths.wrapping_add(1);
        least = least.wrapping_add(u32::from(is_least(alloc, path)?));
    }
    Ok((paths, least))
}

/// Whether the cyclic polygon of a path is the least among the best polygons from each starting point.
fn is_least(alloc: Global, path: &Path) -> Result<bool, Fail> {
    let points = path.points.as_slice();
    if !is_closed_walk(points) {
        return Ok(false);
    }
    let found = cyclic_polygon(alloc, points)?;
    let least = least_of_starts(alloc, points)?;
    Ok(found.at.as_slice() == least.at.as_slice() && found.cost == least.cost)
}

/// A polygon, as the indices of its vertices in the path.
#[derive(Drop)]
struct Found {
    at: Vec<u32>,
    cost: u128,
}

/// The first best one among the polygons from each starting point.
fn least_of_starts(alloc: Global, points: &[Point]) -> Result<Found, Fail> {
    let mut least = from_start(alloc, points, 0)?;
    for start in 1..points.len() {
        let next = from_start(alloc, points, start)?;
        if next.at.len() < least.at.len()
            || next.at.len() == least.at.len() && next.cost < least.cost
        {
            least = next;
        }
    }
    Ok(least)
}

/// The best polygon of the path that starts at this point.
fn from_start(alloc: Global, points: &[Point], start: usize) -> Result<Found, Fail> {
    let turned = turned(alloc, points, start)?;
    let mut at = Vec::new(alloc);
    if !is_closed_walk(&turned) {
        return Ok(Found { at, cost: 0 });
    }
    let found = polygon(alloc, &turned)?;
    for index in found.at.as_slice() {
        at.push(index.wrapping_add((start % (1 << 32)) as u32))?;
    }
    Ok(Found {
        at,
        cost: found.cost,
    })
}

/// The points from this one on, followed by the points before it.
fn turned(alloc: Global, points: &[Point], start: usize) -> Result<Vec<Point>, NoMemory> {
    let mut turned = Vec::new(alloc);
    for k in 0..points.len() {
        turned.push(points[k.wrapping_add(start) % points.len()])?;
    }
    Ok(turned)
}
