//! The plain program: the paths of a page that is stored with one entry per pixel, under the turn policy `right`.

use bit_image::Bitmap;
use page_samples::PlainPage;
use std::alloc::Global;
use std::test::Fail;

/// The start, the number of points and the area of each path, if every ambiguous turn goes right.
pub fn paths_to_the_right(
    alloc: Global,
    page: &Bitmap,
) -> Result<Vec<(usize, usize, usize, usize)>, Fail> {
    let mut rest = PlainPage::of(alloc, page)?;
    let mut paths = Vec::new(alloc);
    // Each path has its own start.
    for _ in 0..rest.size() {
        let Some((x, y)) = rest.first_black() else {
            break;
        };
        let (length, area) = take_path(alloc, &mut rest, x, y)?;
        paths.push((x, y.saturating_add(1), length, area))?;
    }
    Ok(paths)
}

/// Walks once around from the first black pixel, and inverts each row from each vertical edge on.
fn take_path(
    alloc: Global,
    rest: &mut PlainPage,
    x: usize,
    y: usize,
) -> Result<(usize, usize), Fail> {
    let lines = walk(alloc, rest, x, y)?;
    let before = rest.copy()?;
    for line in &lines {
        if let Some((column, row)) = *line {
            let width = rest.width;
            rest.flip_span(row, column, width);
        }
    }
    let area = rest.differing(&before);
    Ok((lines.len(), area))
}

/// The edges of the walk from pixel (x, y), each with its position if it is vertical.
fn walk(
    alloc: Global,
    page: &PlainPage,
    x: usize,
    y: usize,
) -> Result<Vec<Option<(usize, usize)>>, Fail> {
    let start = (x, y.saturating_add(1), 2);
    let mut lines = Vec::new(alloc);
    let mut edge = start;
    for _ in 0..page.size().saturating_mul(4) {
        lines.push(upright(edge))?;
        edge = onward(page, edge);
        if edge == start {
            break;
        }
    }
    Ok(lines)
}

/// The position of an edge that leaves a corner with this heading, if it is vertical.
fn upright(edge: (usize, usize, u8)) -> Option<(usize, usize)> {
    let (column, row, heading) = edge;
    match heading {
        0 => Some((column, row)),
        2 => Some((column, row.saturating_sub(1))),
        _ => None,
    }
}

/// The next corner, and the heading there.
fn onward(page: &PlainPage, edge: (usize, usize, u8)) -> (usize, usize, u8) {
    let (column, row, heading) = edge;
    let (column, row) = match heading {
        0 => (column, row.saturating_add(1)),
        1 => (column.saturating_add(1), row),
        2 => (column, row.saturating_sub(1)),
        _ => (column.saturating_sub(1), row),
    };
    (
        column,
        row,
        turned(page.ahead(column, row, heading), heading),
    )
}

/// The new heading, which has black on its left and white on its right.
fn turned(ahead: (bool, bool), heading: u8) -> u8 {
    match ahead {
        (true, false) => heading,
        (_, true) => heading.wrapping_add(1) % 4,
        (false, false) => heading.wrapping_add(3) % 4,
    }
}
