//! Pages, with the bytes that they claim in their file.
ghost use Rattle.std.specs.Prelude.{◌≡◌};
ghost use Rattle.bit_image.specs.Page.{image_of, page_of};
ghost use Rattle.bitmap_input.specs.Inner.Behind.{claiming_none};

use crate::stop::Stop;
use bit_image::{Bitmap, pages_are_known_by_pixels};

/// A page that was read, and how many bytes to skip after it. A BMP picture may claim more bytes than its
/// pixels take.
#[derive(Drop)]
pub(crate) struct ReadPage {
    pub(crate) page: Bitmap,
    pub(crate) behind: u32,
}

/// A page after which no bytes are skipped.
pub(crate) fn claiming_none(page: Result<Bitmap, Stop>) -> Result<ReadPage, Stop>
    ensures { result ≡ claiming_none page }
{
    match page {
        Ok(page) => Ok(ReadPage { page, behind: 0 }),
        Err(stop) => Err(stop),
    }
}

/// Shows that a page is determined by its sides and pixels.
pub(crate) fn known(page: &Bitmap)
    ensures { page.now ≡ page_of page.now.width page.now.height (image_of page.now) }
{
    pages_are_known_by_pixels();
    let _width = page.width();
}
