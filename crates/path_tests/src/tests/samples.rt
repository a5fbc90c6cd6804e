//! Pages, by rows of a table.

use bit_image::Bitmap;
use page_samples::pages::NoPage;
use page_samples::{Shape, checkered, noise, numbered, shaped};
use std::alloc::Global;

/// A kind of pages.
#[derive(Clone, Copy)]
pub(super) enum Pages {
    /// All pages of 3 by 3 pixels.
    Small,
    /// A shape on a page of this side.
    Shaped(Shape, usize),
    /// A checkerboard of this side. Its paths are teeth of single pixels, in rings.
    Checkered(usize),
    /// Noise on pages of this width and height.
    Noise(usize, usize),
}

/// The page of this kind with this number. There is only one page of a shape or of a checkerboard.
pub(super) fn page_of(alloc: Global, pages: Pages, number: u32) -> Result<Bitmap, NoPage> {
    match pages {
        Pages::Small => numbered(alloc, number),
        Pages::Shaped(shape, side) => shaped(alloc, side, shape),
        Pages::Checkered(side) => checkered(alloc, side),
        Pages::Noise(width, height) => noise(alloc, width, height, number.into()),
    }
}
