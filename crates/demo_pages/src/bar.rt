//! Slanted bars of pixels.
ghost use Rattle.std.specs.Prelude.{◌≡◌, ℕ, ◌+◌, ◌≤◌};
ghost use Rattle.bit_image.specs.Page.{SameSides, image_of};
ghost use Rattle.demo_pages.specs.Generator.{state_after};
ghost use Rattle.demo_pages.specs.Picture.{bar_at, inverted_area, is_in_bar};

use crate::generator::Generator;
use crate::page::{HEIGHT, WIDTH};
use crate::rectangle::Rectangle;
use bit_image::Bitmap;

/// The number of columns of a bar.
pub(crate) const BAR_LENGTH: u32 = 64;

/// The number of pixels of a bar in each of its columns.
pub(crate) const BAR_HEIGHT: u32 = 6;

/// A bar that rises by a row every `run` columns. Its first column is `left`, and the lowest pixel there is in row
/// `bottom`.
#[derive(Clone, Copy)]
pub(crate) struct Bar {
    pub left: u32,
    pub bottom: u32,
    pub run: u32,
}

impl Bar {
    /// Makes a bar from the next three numbers of the generator. It fits on a page of the demo: its first column is
    /// below 128, its lowest row is below 96, and it rises by at most one row per column.
    pub(crate) fn drawn(generator: &mut Generator) -> Bar
        ensures bar { result ≡ bar_at generator.old }
        ensures state { generator.new ≡ state_after 3 generator.old }
        ensures rises { 1 ≤ result.run }
        ensures columns { result.left + BAR_LENGTH ≤ WIDTH }
        ensures rows { result.bottom + BAR_LENGTH + BAR_HEIGHT ≤ HEIGHT }
    {
        let left = generator.draw() % 128;
        let bottom = generator.draw() % 96;
        let run = 1 + generator.draw() % 5;
        Bar { left, bottom, run }
    }

    /// Inverts the bar's pixels.
    pub(crate) fn invert(&self, page: &mut Bitmap)
        requires rises { 1 ≤ self.now.run }
        requires columns { self.now.left + BAR_LENGTH ≤ page.old.width }
        requires rows { self.now.bottom + BAR_LENGTH + BAR_HEIGHT ≤ page.old.height }
        ensures sides { SameSides page.old page.new }
        ensures pixels { (u v : ℕ) → image_of page.new u v
            ≡ inverted_area (image_of page.old) (is_in_bar self.now) u v }
    {
        // From this call the proof knows that the page's sides have an upper limit.
        let _ = page.width();
        for column in 0..BAR_LENGTH {
            let part = Rectangle {
                left: self.left + column,
                bottom: self.bottom + column / self.run,
                width: 1,
                height: BAR_HEIGHT,
            };
            part.invert(page);
        }
    }
}
