//! Shapes with their holes on small pages.
ghost use Rattle.std.specs.Prelude.{◌≡◌, All, IfOk, pos, ◌≤ℤ◌, ◌<◌, ◌^◌, length};
ghost use Rattle.pt_core.specs.ClosedWalk.{IsClosedWalk, point_at};
ghost use Rattle.path_decompose.specs.Bounds.{IsCornerOf};

use page_samples::drawn;
use path_decompose::decompose;
use path_tree::group;
use pt_core::{Group, Path, Policy};
use std::alloc::Global;
use std::test::Fail;

const RING: &[&str] = &["###", "#.#", "###"];

const TARGET: &[&str] = &["#####", "#...#", "#.#.#", "#...#", "#####"];

const RING_IN_RING: &[&str] = &[
    "#######", "#.....#", "#.###.#", "#.#.#.#", "#.###.#", "#.....#", "#######",
];

const TWO_IN_HOLE: &[&str] = &["#######", "#.....#", "#.#.#.#", "#.....#", "#######"];

const CORNER_IN_HOLE: &[&str] = &["#####", "#...#", "#.#.#", "#..##", "#####"];

const TWO_HOLES: &[&str] = &["..####", "###.#.", "#.####", "####.."];

/// A page, and each of its shapes with its holes.
const PAGES: [(&[&str], &[(u32, &[u32])]); 6] = [
    (RING, &[(0, &[1])]),
    (TARGET, &[(0, &[1]), (2, &[])]),
    (RING_IN_RING, &[(0, &[1]), (2, &[3])]),
    (TWO_IN_HOLE, &[(0, &[1]), (2, &[]), (3, &[])]),
    (CORNER_IN_HOLE, &[(0, &[1]), (2, &[])]),
    (TWO_HOLES, &[(0, &[1, 2])]),
];

#[test]
fn shapes_of_small_pages(rt: HostRuntime) -> Result<(), Fail> {
    for (rows, shapes) in PAGES {
        let paths = paths_of(rt.alloc(), rows)?;
        let groups = group(rt.alloc(), &paths)?;
        assert!(rt; are_groups(&groups, shapes), "{groups:?}");
    }
    Ok(())
}

/// A row with a white pixel in this column.
fn row_with_hole(alloc: Global, width: usize, hole: usize) -> Result<String, Fail> {
    let mut row = String::new(alloc);
    for x in 0..width {
        row.push(if x == hole { '.' } else { '#' })?;
    }
    Ok(row)
}

/// Whether these rows show one shape with one hole.
fn is_ring(alloc: Global, rows: &[&str]) -> Result<bool, Fail> {
    let paths = paths_of(alloc, rows)?;
    let groups = group(alloc, &paths)?;
    Ok(are_groups(&groups, &[(0, &[1])]))
}

#[test]
fn holes_at_the_far_side(rt: HostRuntime) -> Result<(), Fail> {
    let full = row_with_hole(rt.alloc(), 32767, 32767)?;
    let open = row_with_hole(rt.alloc(), 32767, 32765)?;
    let mut upright = vec![in rt.alloc(); "###"; 32767]?;
    upright[1] = "#.#";
    let wide = is_ring(rt.alloc(), &[full.as_str(), open.as_str(), full.as_str()])?;
    let high = is_ring(rt.alloc(), &upright)?;
    assert_eq!(rt; (wide, high), (true, true));
    Ok(())
}

#[test]
fn a_hole_without_its_shape(rt: HostRuntime) -> Result<(), Fail> {
    let paths = paths_of(rt.alloc(), RING_IN_RING)?;
    let groups = group(rt.alloc(), without_first(&paths))?;
    assert!(rt; are_groups(&groups, &[(0, &[]), (1, &[2])]), "{groups:?}");
    Ok(())
}

/// All paths of a page.
fn paths_of(alloc: Global, rows: &[&str]) -> Result<Vec<Path>, Fail>
    ensures few { IfOk result (λ paths. length paths.items < 2 ^ 32) }
    ensures closed { IfOk result (λ paths. All (λ path. IsClosedWalk path.points) paths.items) }
    ensures corners { IfOk result
        (λ paths. All (λ path. All (IsCornerOf 32767 32767) path.points) paths.items) }
    ensures starts { IfOk result
        (λ paths. All (λ path. pos 1 ≤ℤ (point_at path.points 0).y) paths.items) }
{
    let page = drawn(alloc, rows)?;
    // From this call the proof knows that the page's sides have an upper limit.
    let _ = page.width();
    Ok(decompose(alloc, &page, Policy::Minority)?)
}

/// All paths except the first one.
fn without_first(paths: &[Path]) -> &[Path]
    requires few { length paths.now < 2 ^ 32 }
    requires closed { All (λ path. IsClosedWalk path.points) paths.now }
    requires corners { All (λ path. All (IsCornerOf 32767 32767) path.points) paths.now }
    requires starts { All (λ path. pos 1 ≤ℤ (point_at path.points 0).y) paths.now }
    ensures few { length result.now < 2 ^ 32 }
    ensures closed { All (λ path. IsClosedWalk path.points) result.now }
    ensures corners { All (λ path. All (IsCornerOf 32767 32767) path.points) result.now }
    ensures starts { All (λ path. pos 1 ≤ℤ (point_at path.points 0).y) result.now }
{
    match paths.split_first() {
        Some((_first, rest)) => rest,
        None => paths,
    }
}

/// Whether the groups have these outer paths, and these holes.
fn are_groups(groups: &[Group], shapes: &[(u32, &[u32])]) -> bool {
    let mut same = groups.len() == shapes.len();
    for (group, (outer, holes)) in groups.iter().zip(shapes) {
        same = same && group.outer == *outer && group.holes.as_slice() == *holes;
    }
    same
}
