//! Best polygons, through a path's first point and cyclic ones, compared with a search over all lists of vertices.

use crate::tests::best::best;
use cyclic_optimal::cyclic_polygon;
use page_samples::numbered;
use path_decompose::decompose;
use polygon_optimal::polygon;
use pt_base::is_closed_walk;
use pt_core::{Point, Policy};
use std::alloc::Global;
use std::test::Fail;

const POLICIES: &[Policy] = &[Policy::Left, Policy::Right];

#[test]
fn best_of_all_lists(rt: HostRuntime) -> Result<(), Fail> {
    let mut found = 0u32;
    for number in 0..512 {
        let page = numbered(rt.alloc(), number)?;
        for &policy in POLICIES {
            for path in &decompose(rt.alloc(), &page, policy)? {
                let points = path.points.as_slice();
                let best = (
                    is_best(rt.alloc(), points)?,
                    is_best_round(rt.alloc(), points)?,
                );
                assert_eq!(rt; best, (true, true), "page {number}");
                found = found.wrapping_add(1);
            }
        }
    }
    assert_eq!(rt; found, 1570);
    Ok(())
}

/// Whether the polygon of a path is the best one among all lists of vertices with the first point.
fn is_best(alloc: Global, points: &[Point]) -> Result<bool, Fail> {
    if 24 < points.len() || !is_closed_walk(points) {
        return Ok(false);
    }
    let polygon = polygon(alloc, points)?;
    let (vertices, cost) = best(points, true);
    Ok(bits_of(polygon.at.as_slice()) == vertices && polygon.cost == u128::from(cost))
}

/// Whether the cyclic polygon of a path is the best one among all lists of vertices.
fn is_best_round(alloc: Global, points: &[Point]) -> Result<bool, Fail> {
    if 24 < points.len() || !is_closed_walk(points) {
        return Ok(false);
    }
    let polygon = cyclic_polygon(alloc, points)?;
    let (vertices, cost) = best(points, false);
    Ok(bits_of(polygon.at.as_slice()) == vertices && polygon.cost == u128::from(cost))
}

/// A bit for each index below 32.
fn bits_of(at: &[u32]) -> u32 {
    let mut bits = 0u32;
    for index in at {
        bits |= 1u32.wrapping_shl(*index);
    }
    bits
}
