//! Steps along the edges of pixels.

use crate::heading::Dir;

/// A unit step along the edge of a pixel, which leaves corner (x, y) of the grid in a direction.
///
/// Corner (x, y) is the lower left corner of pixel (x, y), so the corners of a page are (0, 0) to (width,
/// height).
#[derive(Clone, Copy, Debug, PartialEq, Eq)]
pub struct Edge {
    pub x: u32,
    pub y: u32,
    pub heading: Dir,
}
