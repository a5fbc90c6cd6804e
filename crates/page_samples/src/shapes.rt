//! Shapes with long sides, with many corners, and round ones.

use crate::pages::{NoPage, put, white};
use bit_image::Bitmap;
use std::alloc::Global;

/// The black shape on a square page.
#[derive(Clone, Copy, Debug, PartialEq, Eq)]
pub enum Shape {
    /// The pixels below a line that rises by `rows` in `columns`.
    Stairs {
        rows: usize,
        columns: usize,
    },
    /// The pixels on such a line or above it. The band ends `high` / `columns` rows above the line.
    Band {
        rows: usize,
        columns: usize,
        high: usize,
    },
    /// Upright teeth on a bar. The teeth, the gaps between them and the bar's height have this width.
    Comb {
        width: usize,
    },
    /// The pixels that are nearer to the middle than the page's sides.
    Disc,
    /// Nested square frames. The frames and the gaps between them have this width.
    Nest {
        width: usize,
    },
}

impl Shape {
    fn is_black(self, side: usize, x: usize, y: usize) -> bool {
        match self {
            Shape::Stairs { rows, columns } => {
                y.saturating_mul(columns) <= x.saturating_mul(rows)
            }
            Shape::Band {
                rows,
                columns,
                high,
            } => {
                let (up, line) = (y.saturating_mul(columns), x.saturating_mul(rows));
                line <= up && up - line < high
            }
            Shape::Comb { width } => y < width || x / width.max(1) % 2 == 0,
            Shape::Disc => {
                let across = twice_and_one(x).abs_diff(side);
                let up = twice_and_one(y).abs_diff(side);
                across
                    .saturating_mul(across)
                    .saturating_add(up.saturating_mul(up))
                    < side.saturating_mul(side)
            }
            Shape::Nest { width } => {
                let in_x = x.min(side.saturating_sub(x.saturating_add(1)));
                let in_y = y.min(side.saturating_sub(y.saturating_add(1)));
                in_x.min(in_y) / width.max(1) % 2 == 0
            }
        }
    }
}

/// Twice the coordinate of a pixel's middle.
fn twice_and_one(place: usize) -> usize {
    place.saturating_mul(2).saturating_add(1)
}

/// A square page with a shape on it.
pub fn shaped(alloc: Global, side: usize, shape: Shape) -> Result<Bitmap, NoPage> {
    let mut page = white(alloc, side, side)?;
    for place in 0..page.width() * page.height() {
        let x = (place % page.width()) as usize;
        let y = (place / page.width()) as usize;
        put(&mut page, x, y, shape.is_black(side, x, y));
    }
    Ok(page)
}
