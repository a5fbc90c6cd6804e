//! Rectangles of pixels.
ghost use Rattle.std.specs.Prelude.{◌≡◌, ℕ, ◌+◌, ◌≤◌};
ghost use Rattle.bit_image.specs.Page.{SameSides, image_of};
ghost use Rattle.demo_pages.specs.Generator.{state_after};
ghost use Rattle.demo_pages.specs.Picture.{inverted_area, is_in_rectangle, rectangle_at};

use crate::generator::Generator;
use crate::page::{HEIGHT, WIDTH};
use bit_image::Bitmap;

/// The pixels in `width` columns from `left` on, and in `height` rows from `bottom` up.
#[derive(Clone, Copy)]
pub(crate) struct Rectangle {
    pub left: u32,
    pub bottom: u32,
    pub width: u32,
    pub height: u32,
}

impl Rectangle {
    /// Makes a rectangle from the next four numbers of the generator. It fits on a page of the demo: its first column
    /// is below 240, its lowest row is below 176, and it has at most 16 columns and 16 rows.
    pub(crate) fn drawn(generator: &mut Generator) -> Rectangle
        ensures rectangle { result ≡ rectangle_at generator.old }
        ensures state { generator.new ≡ state_after 4 generator.old }
        ensures columns { result.left + result.width ≤ WIDTH }
        ensures rows { result.bottom + result.height ≤ HEIGHT }
    {
        let left = generator.draw() % 240;
        let bottom = generator.draw() % 176;
        let width = 1 + generator.draw() % 16;
        let height = 1 + generator.draw() % 16;
        Rectangle {
            left,
            bottom,
            width,
            height,
        }
    }

    /// Inverts the rectangle's pixels.
    pub(crate) fn invert(&self, page: &mut Bitmap)
        requires columns { self.now.left + self.now.width ≤ page.old.width }
        requires rows { self.now.bottom + self.now.height ≤ page.old.height }
        ensures sides { SameSides page.old page.new }
        ensures pixels { (u v : ℕ) → image_of page.new u v
            ≡ inverted_area (image_of page.old) (is_in_rectangle self.now) u v }
    {
        // From these calls the proof knows that the page's sides have an upper limit.
        let _ = (page.width(), page.height());
        for row in self.bottom..self.bottom + self.height {
            page.flip_span(row, self.left, self.left + self.width);
        }
    }
}
