//! Raw rasters of bits: rows of whole bytes.
ghost use Rattle.std.specs.Prelude.{◌≡◌, ◌<◌, true, length, take, map};
ghost use Rattle.bit_image.specs.Image.{differ};
ghost use Rattle.bit_image.specs.Page.{Page, SameSides, image_of};
ghost use Rattle.bitmap_input.specs.Inner.Reading.{ReadsFrom, TakesNone};
ghost use Rattle.bitmap_input.specs.PageParts.{block};
ghost use Rattle.bitmap_input.specs.Front.{raw_row};
ghost use Rattle.bitmap_input.specs.Raw.{row_bytes, unpacked};
ghost use Rattle.bitmap_input.specs.Inner.Raster.{with_row};

use crate::buffer::{Buffer, Look};
use crate::fault::InFault;
use crate::stop::Stop;
use bit_image::Bitmap;
use pt_core::Inputs;

/// Fills `row` from the inputs.
pub(crate) fn read_block<I: Inputs>(
    buffer: &mut Buffer,
    inputs: &mut I,
    row: &mut [u8],
) -> Result<(), Stop>
    requires { I.is_opened inputs.old ≡ true }
    ensures reads { ReadsFrom I.Inputs (λ _ bytes. bytes ≡ row.new) (block (length row.old))
        buffer.old inputs.old result buffer.new inputs.new }
    ensures free { TakesNone result }
{
    let mut done = 0;
    while done < row.len() {
        match buffer.look(inputs) {
            Look::Byte(_) => done += buffer.give(&mut row[done..]),
            Look::End => return Err(Stop::Fault(InFault::Truncated)),
            Look::Fault => return Err(Stop::Fault(InFault::ReadFault)),
        }
    }
    Ok(())
}

/// Replaces row `y` of the page by packed bytes, inverted or not.
//
// The row is inverted after it was stored, so that no second version of `put_bytes` is needed.
pub(crate) fn place_row(page: &mut Bitmap, y: u32, bytes: &[u8], invert: bool)
    requires row { y < page.old.height }
    requires whole { length bytes.now ≡ row_bytes page.old.width }
    ensures sides { SameSides page.old page.new }
    ensures pixels { image_of page.new
        ≡ with_row (image_of page.old) y
        (map (differ invert) (take page.old.width (unpacked bytes.now))) }
{
    let width = page.width();
    page.put_bytes(y, bytes);
    if invert {
        page.flip_span(y, 0, width);
    }
}

/// Reads one row of bits into row `y` of the page, inverted or not. `line` is a buffer for its bytes.
pub(crate) fn read_raw_row<I: Inputs>(
    buffer: &mut Buffer,
    inputs: &mut I,
    page: &mut Bitmap,
    y: u32,
    invert: bool,
    line: &mut [u8],
) -> Result<(), Stop>
    requires opened { I.is_opened inputs.old ≡ true }
    requires row { y < page.old.height }
    requires whole { length line.old ≡ row_bytes page.old.width }
    ensures reads { ReadsFrom I.Inputs (λ _ pixels. image_of page.new ≡ with_row (image_of page.old)
        y (map (differ invert) pixels)) (raw_row page.old.width) buffer.old inputs.old result
        buffer.new inputs.new }
    ensures sides { SameSides page.old page.new }
{
    read_block(buffer, inputs, line)?;
    place_row(page, y, line, invert);
    Ok(())
}
