//! The paths of small pages, and those of noise compared with a plain program.
ghost use Rattle.std.specs.Prelude.{All};
ghost use Rattle.pt_core.specs.ClosedWalk.{IsClosedWalk};
ghost use Rattle.path_decompose.specs.Bounds.{IsCornerOf};

use crate::tests::plain::paths_to_the_right;
use page_samples::{checkered, drawn, noise};
use path_decompose::{decompose, inside, keep};
use pt_base::points;
use pt_core::{Path, Policy, Sign};
use std::alloc::Global;
use std::test::Fail;

/// Whether this is the points text of a page's paths that are larger than this area.
fn is_shown(
    alloc: Global,
    rows: &[&str],
    policy: Policy,
    most: u32,
    text: &str,
) -> Result<bool, Fail> {
    let page = drawn(alloc, rows)?;
    let paths = keep(decompose(alloc, &page, policy)?, most);
    let shown = points(alloc, page.width(), page.height(), &paths)?;
    Ok(shown.as_slice() == text.as_bytes())
}

/// A page, the turn policy, the greatest area of a speckle, and the points text of the paths that are kept.
const PAGES: &[(&[&str], Policy, u32, &str)] = &[
    (&["."], Policy::Left, 0, "points 1 1 0\n"),
    (
        &["#"],
        Policy::Left,
        0,
        "points 1 1 1\n+ 1 0,1 0,0 1,0 1,1\n",
    ),
    (
        &["##"],
        Policy::Minority,
        0,
        "points 2 1 1\n+ 2 0,1 0,0 1,0 2,0 2,1 1,1\n",
    ),
    (
        &["#.", ".#"],
        Policy::Left,
        0,
        "points 2 2 2\n+ 1 0,2 0,1 1,1 1,2\n+ 1 1,1 1,0 2,0 2,1\n",
    ),
    (
        &["#.", ".#"],
        Policy::Majority,
        0,
        "points 2 2 2\n+ 1 0,2 0,1 1,1 1,2\n+ 1 1,1 1,0 2,0 2,1\n",
    ),
    (
        &["#.", ".#"],
        Policy::Right,
        0,
        "points 2 2 1\n+ 2 0,2 0,1 1,1 1,0 2,0 2,1 1,1 1,2\n",
    ),
    (
        &["#.", ".#"],
        Policy::Minority,
        0,
        "points 2 2 1\n+ 2 0,2 0,1 1,1 1,0 2,0 2,1 1,1 1,2\n",
    ),
    (
        &["###", "#.#", "###"],
        Policy::Minority,
        0,
        "points 3 3 2\n+ 9 0,3 0,2 0,1 0,0 1,0 2,0 3,0 3,1 3,2 3,3 2,3 1,3\n- 1 1,2 1,1 2,1 2,2\n",
    ),
    (
        &[".........", "#........"],
        Policy::Minority,
        0,
        "points 9 2 1\n+ 1 0,1 0,0 1,0 1,1\n",
    ),
    (
        &["#.#", ".#.", "#.#"],
        Policy::Left,
        0,
        "points 3 3 5\n+ 1 0,3 0,2 1,2 1,3\n+ 1 2,3 2,2 3,2 3,3\n+ 1 1,2 1,1 2,1 2,2\n\
         + 1 0,1 0,0 1,0 1,1\n+ 1 2,1 2,0 3,0 3,1\n",
    ),
    (
        &["#.#", ".#.", "#.#"],
        Policy::Right,
        0,
        "points 3 3 1\n+ 5 0,3 0,2 1,2 1,1 0,1 0,0 1,0 1,1 2,1 2,0 3,0 3,1 2,1 2,2 3,2 3,3 2,3 2,2 1,2 1,3\n",
    ),
    // Black has the majority around corner (2, 2) of the page, but no longer after the first path is removed.
    (
        &["#.##", ".#.#", "####"],
        Policy::Majority,
        0,
        "points 4 3 2\n+ 1 0,3 0,2 1,2 1,3\n\
         + 8 2,3 2,2 3,2 3,1 2,1 2,2 1,2 1,1 0,1 0,0 1,0 2,0 3,0 4,0 4,1 4,2 4,3 3,3\n",
    ),
    // Speckles have at most the limit's area.
    (
        &["##.#"],
        Policy::Minority,
        0,
        "points 4 1 2\n+ 2 0,1 0,0 1,0 2,0 2,1 1,1\n+ 1 3,1 3,0 4,0 4,1\n",
    ),
    (
        &["##.#"],
        Policy::Minority,
        1,
        "points 4 1 1\n+ 2 0,1 0,0 1,0 2,0 2,1 1,1\n",
    ),
    (&["##.#"], Policy::Minority, 2, "points 4 1 0\n"),
];

#[test]
fn paths_of_small_pages(rt: HostRuntime) -> Result<(), Fail> {
    for &(rows, policy, most, text) in PAGES {
        let same = is_shown(rt.alloc(), rows, policy, most, text)?;
        assert!(rt; same, "{policy:?}: {text}");
    }
    Ok(())
}

const POLICIES: &[Policy] = &[
    Policy::Left,
    Policy::Right,
    Policy::Black,
    Policy::White,
    Policy::Majority,
    Policy::Minority,
];

// In each of the 64 rows and 64 columns there are 63 edges between two pixels, and each side of the page has 32 black
// pixels.
#[test]
fn a_checkerboard_uses_each_edge(rt: HostRuntime) -> Result<(), Fail> {
    let page = checkered(rt.alloc(), 64)?;
    for &policy in POLICIES {
        let paths = decompose(rt.alloc(), &page, policy)?;
        assert_eq!(rt; edges_of(&paths), 8192, "{policy:?}");
    }
    Ok(())
}

/// The number of edges of all paths.
fn edges_of(paths: &[Path]) -> usize {
    let mut edges = 0usize;
    for path in paths {
        edges = edges.saturating_add(path.points.as_slice().len());
    }
    edges
}

/// The sides of pages and their seeds. The widths are around the ends of words.
const NOISE: &[(usize, usize, u64)] = &[(1, 5, 1), (63, 6, 2), (64, 6, 3), (65, 6, 4), (130, 9, 5)];

#[test]
fn paths_are_those_of_the_plain_page(rt: HostRuntime) -> Result<(), Fail> {
    for &(width, height, seed) in NOISE {
        let page = noise(rt.alloc(), width, height, seed)?;
        let mut paths = Vec::new(rt.alloc());
        for path in &decompose(rt.alloc(), &page, Policy::Right)? {
            let points = path.points.as_slice();
            if let Some(start) = points.first() {
                let (x, y) = (
                    start.x.unsigned_abs() as usize,
                    start.y.unsigned_abs() as usize,
                );
                paths.push((x, y, points.len(), path.area as usize))?;
            }
        }
        assert_eq!(rt;
            paths,
            paths_to_the_right(rt.alloc(), &page)?,
            "{width} by {height}"
        );
    }
    Ok(())
}

#[test]
fn the_hole_is_inside_both_paths(rt: HostRuntime) -> Result<(), Fail> {
    let page = drawn(rt.alloc(), &["###", "#.#", "###"])?;
    // From this call the proof knows that the page's sides have an upper limit.
    let _ = page.width();
    for path in &decompose(rt.alloc(), &page, Policy::Minority)? {
        assert_eq!(rt; insides(path), wanted_insides(path.sign));
    }
    Ok(())
}

/// Which of the five places are inside the outer path, and which are inside the hole's path.
fn wanted_insides(sign: Sign) -> [bool; 5] {
    match sign {
        Sign::Plus => [true, true, true, false, false],
        Sign::Minus => [false, true, false, false, false],
    }
}

/// Whether a black pixel, the hole, another black pixel and two places beside the page are inside the path.
fn insides(path: &Path) -> [bool; 5]
    requires closed { IsClosedWalk path.now.points }
    requires corners { All (IsCornerOf 32767 32767) path.now.points }
{
    [
        inside(path, 0, 0),
        inside(path, 1, 1),
        inside(path, 2, 1),
        inside(path, 3, 1),
        inside(path, 1, 3),
    ]
}
