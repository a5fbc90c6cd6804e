//! Reaches, corners and best polygons of the paths of pages, compared with those of plain programs.

use crate::tests::plain_best::plain_polygon;
use crate::tests::samples::{Pages, page_of};
use bit_image::Bitmap;
use page_samples::{Shape, next_corner, reaches};
use path_decompose::decompose;
use polygon_optimal::polygon;
use pt_base::is_closed_walk;
use pt_core::{Point, Policy};
use std::alloc::Global;
use std::test::Fail;
use straight_paths::Reach;

/// How many paths the pages have, for how many of them all reaches and corners agree with a program that walks along
/// every point, and for how many the polygon agrees with the plain program.
type Counts = (u32, u32, u32);

/// Adds the paths of a page to the counts.
fn count(alloc: Global, page: &Bitmap, policy: Policy, so_far: Counts) -> Result<Counts, Fail> {
    let (mut paths, mut reaches, mut polygons) = so_far;
    for path in &decompose(alloc, page, policy)? {
        let points = path.points.as_slice();
        paths = paths.wrapping_add(1);
        reaches = reaches.wrapping_add(u32::from(has_plain_reaches(alloc, points)?));
        polygons = polygons.wrapping_add(u32::from(has_plain_polygon(alloc, points)?));
    }
    Ok((paths, reaches, polygons))
}

fn has_plain_reaches(alloc: Global, points: &[Point]) -> Result<bool, Fail> {
    if !is_closed_walk(points) {
        return Ok(false);
    }
    let reach = Reach::of(alloc, points)?;
    let plain = reaches(alloc, points)?;
    let mut i = 0u32;
    for far in &plain {
        let place = i as usize;
        if points.len() <= place
            || reach.far(i) != *far
            || reach.next_corner(i) != next_corner(points, place)
        {
            return Ok(false);
        }
        i = i.wrapping_add(1);
    }
    Ok(true)
}

fn has_plain_polygon(alloc: Global, points: &[Point]) -> Result<bool, Fail> {
    if !is_closed_walk(points) {
        return Ok(false);
    }
    let best = polygon(alloc, points)?;
    let (at, cost) = plain_polygon(alloc, points)?;
    Ok(best.at.as_slice() == at.as_slice() && best.cost == u128::from(cost))
}

/// Pages, how many there are, the turn policies, and the least and the greatest number of paths.
const PAGES: &[(Pages, u32, &[Policy], u32, u32)] = &[
    (
        Pages::Small,
        512,
        &[Policy::Left, Policy::Right],
        1570,
        1570,
    ),
    (
        Pages::Shaped(
            Shape::Stairs {
                rows: 1,
                columns: 1,
            },
            60,
        ),
        1,
        &[Policy::Minority],
        1,
        1,
    ),
    (
        Pages::Shaped(
            Shape::Stairs {
                rows: 1,
                columns: 4,
            },
            160,
        ),
        1,
        &[Policy::Minority],
        1,
        1,
    ),
    (
        Pages::Shaped(
            Shape::Stairs {
                rows: 3,
                columns: 7,
            },
            90,
        ),
        1,
        &[Policy::Minority],
        1,
        1,
    ),
    (
        Pages::Shaped(
            Shape::Stairs {
                rows: 5,
                columns: 13,
            },
            160,
        ),
        1,
        &[Policy::Minority],
        1,
        1,
    ),
    (
        Pages::Shaped(
            Shape::Stairs {
                rows: 1,
                columns: 25,
            },
            150,
        ),
        1,
        &[Policy::Minority],
        1,
        1,
    ),
    (
        Pages::Shaped(
            Shape::Band {
                rows: 5,
                columns: 13,
                high: 130,
            },
            160,
        ),
        1,
        &[Policy::Minority],
        1,
        1,
    ),
    (
        Pages::Shaped(Shape::Comb { width: 1 }, 40),
        1,
        &[Policy::Minority],
        1,
        1,
    ),
    (
        Pages::Shaped(Shape::Comb { width: 2 }, 42),
        1,
        &[Policy::Minority],
        1,
        1,
    ),
    (
        Pages::Shaped(Shape::Comb { width: 13 }, 120),
        1,
        &[Policy::Minority],
        1,
        1,
    ),
    (Pages::Shaped(Shape::Disc, 75), 1, &[Policy::Minority], 1, 1),
    (
        Pages::Shaped(Shape::Disc, 101),
        1,
        &[Policy::Minority],
        1,
        1,
    ),
    (
        Pages::Shaped(Shape::Nest { width: 1 }, 50),
        1,
        &[Policy::Minority],
        25,
        25,
    ),
    (
        Pages::Shaped(Shape::Nest { width: 3 }, 60),
        1,
        &[Policy::Minority],
        10,
        10,
    ),
    (
        Pages::Shaped(Shape::Nest { width: 9 }, 200),
        1,
        &[Policy::Minority],
        12,
        12,
    ),
    (Pages::Checkered(40), 1, &[Policy::Minority], 2, u32::MAX),
    (
        Pages::Noise(70, 64),
        32,
        &[Policy::Majority],
        1001,
        u32::MAX,
    ),
];

#[test]
fn all_paths_are_as_the_plain_programs_say(rt: HostRuntime) -> Result<(), Fail> {
    for (row, (pages, size, policies, least, most)) in PAGES.iter().enumerate() {
        let mut found = (0, 0, 0);
        for number in 0..*size {
            let page = page_of(rt.alloc(), *pages, number)?;
            for policy in *policies {
                found = count(rt.alloc(), &page, *policy, found)?;
            }
        }
        let paths = found.0;
        let within = *least <= paths && paths <= *most;
        assert_eq!(rt; (within, found), (true, (paths, paths, paths)), "row {row}");
    }
    Ok(())
}
