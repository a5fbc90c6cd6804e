//! The paths of a page, one after another.
ghost use Rattle.std.specs.Prelude.{◌≡◌, ℕ, ◌+◌, ◌*◌, ◌<◌, ◌≤◌, ◌≤ℤ◌, pos, List, [], ◌∷◌, ◌++◌, All, length, OnOk, OnErr, IfOk};
ghost use Rattle.pt_core.specs.ClosedWalk.{point_at, IsClosedWalk};
ghost use Rattle.bit_image.specs.FirstBlack.{IsFirstBlack};
ghost use Rattle.bit_image.specs.Image.{Fits};
ghost use Rattle.bit_image.specs.Page.{SameSides, image_of};
ghost use Rattle.boundary_edges.specs.Bounds.{IsCornerOf};
ghost use Rattle.boundary_edges.specs.Inner.Bounds.{IsPathOn};
ghost use Rattle.path_decompose.specs.Inner.Decomposition.{above, is_large, path_of};
ghost use Rattle.path_decompose.specs.Decomposition.{kept, sign_at, inverted, IsNextPath, IsDecomposition};
ghost use Rattle.boundary_edges.specs.Inside.{inside};
ghost use Rattle.path_decompose.specs.Inner.Start.{IsWhiteThrough, IsStart};
ghost use Rattle.path_decompose.specs.AllPaths.{IsEvenOdd, IsEdgesOnce};
ghost use Rattle.pt_core.specs.declared.path.Path.{Path};

use crate::trail::Trail;
use crate::walk::walk_round;
use bit_image::Bitmap;
use boundary_edges::Edges;
use pt_core::{NoMemory, Path, Policy, Sequence, Sign};
use std::alloc::Global;

/// All paths of a page, in the order in which they are found. There are at most as many as pixels, so 32 bits count
/// them.
pub fn decompose(alloc: Global, page: &Bitmap, policy: Policy) -> Result<Vec<Path>, NoMemory>
    ensures decomposed { IfOk result (λ paths. IsDecomposition page.now policy paths.items) }

    // Each path is a closed walk over corners of the page, starts above row 0's lower sides, and has only
    // pixels of the page inside.
    ensures closed { IfOk result (λ paths. All (λ path. IsClosedWalk path.points) paths.items) }
    ensures corners { IfOk result
        (λ paths. All (λ path. All (IsCornerOf page.now.width page.now.height) path.points)
        paths.items) }
    ensures starts { IfOk result
        (λ paths. All (λ path. pos 1 ≤ℤ (point_at path.points 0).y) paths.items) }
    ensures insides { IfOk result
        (λ paths. All (λ path. Fits (inside path.points) page.now.width page.now.height)
        paths.items) }
    ensures few { IfOk result (λ paths. length paths.items ≤ page.now.width * page.now.height) }

    // Together they come to the page, and use each of its edges once.
    ensures even_odd { IfOk result (λ paths. IsEvenOdd (image_of page.now) paths.items) }
    ensures edges_once { IfOk result (λ paths. IsEdgesOnce (image_of page.now) paths.items) }
{
    let paths = found(alloc, page, policy, None)?;
    Ok(paths)
}

/// The paths of a page with more than `most` pixels inside, in the order in which they are found: those
/// with at most so many are speckles.
///
/// Each speckle is dropped before the next path is looked for, so that a page of speckles takes no more
/// room than its boundary edges.
pub fn decompose_above(
    alloc: Global,
    page: &Bitmap,
    policy: Policy,
    most: u32,
) -> Result<Vec<Path>, NoMemory>
    ensures kept { IfOk result (λ paths. (all : List Path) × IsDecomposition page.now policy all
        × IsEvenOdd (image_of page.now) all × IsEdgesOnce (image_of page.now) all
        × (paths.items ≡ kept most all)) }

    // Each path is a closed walk over corners of the page, starts above row 0's lower sides, and has only
    // pixels of the page inside.
    ensures closed { IfOk result (λ paths. All (λ path. IsClosedWalk path.points) paths.items) }
    ensures corners { IfOk result
        (λ paths. All (λ path. All (IsCornerOf page.now.width page.now.height) path.points)
        paths.items) }
    ensures starts { IfOk result
        (λ paths. All (λ path. pos 1 ≤ℤ (point_at path.points 0).y) paths.items) }
    ensures insides { IfOk result
        (λ paths. All (λ path. Fits (inside path.points) page.now.width page.now.height)
        paths.items) }
    ensures few { IfOk result (λ paths. length paths.items ≤ page.now.width * page.now.height) }
{
    let paths = found(alloc, page, policy, Some(most))?;
    Ok(paths)
}

/// The paths of a page above a limit, where there is one.
//
// A white page has none, and takes no room for edges.
fn found(
    alloc: Global,
    page: &Bitmap,
    policy: Policy,
    limit: Option<u32>,
) -> Result<Vec<Path>, NoMemory>
    ensures found { IfOk result (λ paths. (all : List Path) × IsDecomposition page.now policy all
        × (paths.items ≡ above limit all)) }
    ensures on_page { IfOk result
        (λ paths. All (IsPathOn page.now.width page.now.height) paths.items) }
    ensures few { IfOk result (λ paths. length paths.items ≤ page.now.width * page.now.height) }
{
    match page.first_black(page.height() - 1) {
        Some((x, y)) => found_from(alloc, page, x, y, policy, limit),
        None => Ok(Vec::new(alloc)),
    }
}

/// The same of a page whose first black pixel is pixel (x, y).
//
// What is left is held as boundary edges, which each path takes away, and not as a copy of the page that is inverted
// inside it. So a path costs its length, however many pixels lie between its lines.
fn found_from(
    alloc: Global,
    page: &Bitmap,
    x: u32,
    y: u32,
    policy: Policy,
    limit: Option<u32>,
) -> Result<Vec<Path>, NoMemory>
    requires first { IsFirstBlack (image_of page.now) x y }
    ensures found { IfOk result (λ paths. (all : List Path) × IsDecomposition page.now policy all
        × (paths.items ≡ above limit all)) }
    ensures on_page { IfOk result
        (λ paths. All (IsPathOn page.now.width page.now.height) paths.items) }
    ensures few { IfOk result (λ paths. length paths.items ≤ page.now.width * page.now.height) }
{
    // The width is asked, so that the proof sees that a page's pixels lie on it.
    let _ = page.width();
    let mut rest = Edges::of(alloc, page)?;
    let mut trail = Trail::new(alloc);
    let mut paths = Vec::new(alloc);
    let mut start = Some((x, y));
    'paths: while let Some((x, y)) = start {
        let (sign, area) = next_path(page, &mut rest, x, y, policy, &mut trail)?;
        push_above(alloc, &mut paths, sign, area, &mut trail, limit)?;
        start = start_after(&rest, x, y);
    }
    Ok(paths)
}

/// Adds the path that was noted down, where it is above the limit.
fn push_above(
    alloc: Global,
    paths: &mut Vec<Path>,
    sign: Sign,
    area: u64,
    trail: &mut Trail,
    limit: Option<u32>,
) -> Result<(), NoMemory>
    ensures added { OnOk result (paths.new.items
        ≡ paths.old.items ++ above limit (path_of sign area trail.old.points.items ∷ [])) }
    ensures more { OnOk result (length paths.new.items ≤ length paths.old.items + 1) }
    ensures kept { OnErr result (paths.new.items ≡ paths.old.items) }
{
    if is_above(area, limit) {
        let points = trail.take_points(alloc)?;
        paths.push(Path {
            sign,
            area,
            points: Sequence::from_vec(points),
        })?;
    }
    Ok(())
}

/// Whether a path with so many pixels inside is above the limit.
fn is_above(area: u64, limit: Option<u32>) -> bool
    ensures { result ≡ is_large limit area }
{
    match limit {
        None => true,
        Some(most) => area > u64::from(most),
    }
}

/// The sign of the path from the first black pixel, pixel (x, y), and the number of pixels inside. The path itself is
/// noted down, and its edges are taken away from `rest`, which so is inverted inside it.
fn next_path(
    page: &Bitmap,
    rest: &mut Edges,
    x: u32,
    y: u32,
    policy: Policy,
    trail: &mut Trail,
) -> Result<(Sign, u64), NoMemory>
    requires first { IsFirstBlack (image_of rest.old) x y }
    requires sides { SameSides page.now rest.old }
    ensures sides { SameSides rest.old rest.new }
    ensures path { IfOk result (λ told. IsNextPath page.now policy (image_of rest.old)
        (path_of told.0 told.1 trail.new.points.items)) }
    ensures inverted { OnOk result ((u v : ℕ) → u < rest.old.width
        → image_of rest.new u v ≡ inverted (image_of rest.old) trail.new.points.items u v) }
    ensures white { OnOk result (IsWhiteThrough (image_of rest.new) rest.new.width x y) }
{
    // The width is asked, so that the proof sees where a page's pixels lie.
    let _ = rest.width();
    let sign = sign_at(page, x, y);
    walk_round(rest, x, y, policy, sign, trail)?;
    rest.take_away(&trail.points);
    Ok((sign, trail.up - trail.down))
}

/// Whether a path that starts at pixel (x, y) bounds a black shape or a hole.
fn sign_at(page: &Bitmap, x: u32, y: u32) -> Sign
    ensures { result ≡ sign_at (image_of page.now) x y }
{
    if page.is_black(x, y) {
        Sign::Plus
    } else {
        Sign::Minus
    }
}

/// The first black pixel, where all is white up to pixel (x, y).
fn start_after(rest: &Edges, x: u32, y: u32) -> Option<(u32, u32)>
    requires white { IsWhiteThrough (image_of rest.now) rest.now.width x y }
    requires row { y < rest.now.height }
    requires column { x < rest.now.width }
    ensures start { IsStart (image_of rest.now) result }
    ensures fits { Fits (image_of rest.now) rest.now.width rest.now.height }
{
    // The sides are asked, so that the proof sees where a page's pixels lie.
    let _ = rest.width();
    match rest.first_black_in_row(x, y) {
        Some(column) => Some((column, y)),
        None if y > 0 => rest.first_black(y - 1),
        None => None,
    }
}
