//! Rasters: the rows of a page, as its format stores them.
ghost use Rattle.std.specs.Prelude.{◌≡◌, ℕ, ◌<◌, ◌≤◌, true, Bool, length, map};
ghost use Rattle.bit_image.specs.Page.{Page, SameSides, image_of};
ghost use Rattle.bitmap_input.specs.Inner.Reading.{Reads, ReadsFrom, Leaves};
ghost use Rattle.bitmap_input.specs.PageParts.{repeated};
ghost use Rattle.bitmap_input.specs.Front.{rows_raster};
ghost use Rattle.bitmap_input.specs.Raw.{IsShown};
ghost use Rattle.bitmap_input.specs.Inner.Raster.{with_row, with_rows};
ghost use Rattle.bitmap_input.specs.Inner.Stored.{row_stored, pixel_entry, is_black_pixel, line_bytes, is_plain, samples_raster, IsAtLevel};

use crate::buffer::Buffer;
use crate::extent::known;
use crate::plain::read_plain_row;
use crate::raw::read_raw_row;
use crate::samples::{read_plain_samples_row, read_raw_samples_row, row_bytes};
use crate::shading::Shading;
use crate::sides::Sides;
use crate::stop::Stop;
use bit_image::Bitmap;
use pt_core::{Inputs, LONGEST_SIDE};
use std::alloc::Global;

/// How the pixels of a page are stored, and which of them are black.
#[derive(Clone, Copy)]
pub(crate) enum Raster {
    /// One character per pixel.
    PlainBits { invert: bool },
    /// One bit per pixel.
    RawBits { invert: bool },
    /// Samples written as decimal numbers.
    PlainSamples { shading: Shading },
    /// Samples stored as bytes.
    RawSamples { shading: Shading },
}

impl Raster {
    /// The raster of a page of samples, plain or raw.
    pub(crate) fn of_samples(plain: bool, shading: Shading) -> Raster
        ensures { result ≡ samples_raster plain shading }
    {
        if plain {
            Raster::PlainSamples { shading }
        } else {
            Raster::RawSamples { shading }
        }
    }

    /// Whether pixels or samples are written as characters.
    pub(crate) fn is_plain(self) -> bool
        ensures { result ≡ is_plain self }
    {
        match self {
            Raster::PlainBits { .. } | Raster::PlainSamples { .. } => true,
            Raster::RawBits { .. } | Raster::RawSamples { .. } => false,
        }
    }

    /// The number of bytes of a row, if it is the same for all rows; otherwise 0.
    fn line_bytes(self, width: u32) -> usize
        requires { width ≤ LONGEST_SIDE }
        ensures { result ≡ line_bytes self width }
    {
        match self {
            Raster::PlainBits { .. } | Raster::PlainSamples { .. } => 0,
            Raster::RawBits { .. } => (width as usize + 7) / 8,
            Raster::RawSamples { shading } => row_bytes(shading.channels, width, shading.maxval),
        }
    }
}

/// Reads one row into row `y` of the page. `line` is a buffer for its bytes.
fn read_row<I: Inputs>(
    buffer: &mut Buffer,
    inputs: &mut I,
    page: &mut Bitmap,
    y: u32,
    raster: Raster,
    line: &mut [u8],
) -> Result<(), Stop>
    requires opened { I.is_opened inputs.old ≡ true }
    requires row { y < page.old.height }
    requires room { length line.old ≡ line_bytes raster page.old.width }
    ensures reads { ReadsFrom I.Inputs (λ _ row. image_of page.new ≡ with_row (image_of page.old) y
        (map (is_black_pixel raster) row)) (row_stored raster page.old.width) buffer.old inputs.old
        result buffer.new inputs.new }
    ensures sides { SameSides page.old page.new }
{
    match raster {
        Raster::PlainBits { invert } => read_plain_row(buffer, inputs, page, y, invert),
        Raster::RawBits { invert } => read_raw_row(buffer, inputs, page, y, invert, line),
        Raster::PlainSamples { shading } => {
            read_plain_samples_row(buffer, inputs, page, y, &shading)
        }
        Raster::RawSamples { shading } => {
            read_raw_samples_row(buffer, inputs, page, y, &shading, line)
        }
    }
}

/// Reads the rows into the page, from the top. `line` is a buffer for the bytes of one of them.
fn read_rows<I: Inputs>(
    buffer: &mut Buffer,
    inputs: &mut I,
    page: &mut Bitmap,
    raster: Raster,
    line: &mut [u8],
) -> Result<(), Stop>
    requires opened { I.is_opened inputs.old ≡ true }
    requires room { length line.old ≡ line_bytes raster page.old.width }
    ensures reads { ReadsFrom I.Inputs (λ _ rows. image_of page.new ≡ with_rows (image_of page.old)
        page.old.height (map (map (is_black_pixel raster)) rows)) (repeated (row_stored raster
        page.old.width) page.old.height) buffer.old inputs.old result buffer.new inputs.new }
    ensures sides { SameSides page.old page.new }
{
    let mut y = page.height();
    while y > 0 {
        y -= 1;
        read_row(buffer, inputs, page, y, raster, line)?;
    }
    Ok(())
}

/// Reads the rows that follow a header into a new page.
pub(crate) fn read_page<I: Inputs>(
    alloc: Global,
    buffer: &mut Buffer,
    inputs: &mut I,
    sides: Sides,
    raster: Raster,
) -> Result<Bitmap, Stop>
    requires { I.is_opened inputs.old ≡ true }
    ensures reads { (level : ℕ) (invert : Bool) → IsAtLevel level invert raster
        → Reads (IsShown level invert)
        (rows_raster (pixel_entry raster) (row_stored raster sides.width) sides.width sides.height)
        buffer.old (I.files inputs.old) result buffer.new (I.files inputs.new) }
    ensures leaves { Leaves I.Inputs result inputs.old inputs.new }
{
    let mut page = Bitmap::new(alloc, sides.width, sides.height)?;
    let mut line = vec![in alloc; 0u8; raster.line_bytes(sides.width)]?;
    read_rows(buffer, inputs, &mut page, raster, &mut line)?;
    known(&page);
    Ok(page)
}
