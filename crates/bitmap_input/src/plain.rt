//! Plain rasters of bits: one character per pixel.
ghost use Rattle.std.specs.Prelude.{◌≡◌, ℕ, ◌<◌, ◌≤◌, true, false, map};
ghost use Rattle.bit_image.specs.Image.{differ};
ghost use Rattle.bit_image.specs.Page.{Page, SameSides, image_of};
ghost use Rattle.bitmap_input.specs.Inner.Reading.{ReadsFrom, Same};
ghost use Rattle.bitmap_input.specs.PageParts.{pixel, repeated};
ghost use Rattle.bitmap_input.specs.Front.{plain_pixel};
ghost use Rattle.bitmap_input.specs.Inner.Raster.{with_row, with_pixels};

use crate::buffer::{Buffer, Look};
use crate::fault::InFault;
use crate::run::{Run, skip};
use crate::stop::Stop;
use bit_image::Bitmap;
use pt_core::Inputs;

/// Reads the character of a pixel: whether it is black.
fn read_pixel<I: Inputs>(buffer: &mut Buffer, inputs: &mut I) -> Result<bool, Stop>
    requires { I.is_opened inputs.old ≡ true }
    ensures reads { ReadsFrom I.Inputs Same pixel buffer.old inputs.old result buffer.new
        inputs.new }
{
    match buffer.look(inputs) {
        Look::Byte(byte) => {
            buffer.pass();
            match byte {
                b'0' => Ok(false),
                b'1' => Ok(true),
                _ => Err(Stop::Fault(InFault::BadRaster)),
            }
        }
        Look::End => Err(Stop::Fault(InFault::Truncated)),
        Look::Fault => Err(Stop::Fault(InFault::ReadFault)),
    }
}

/// Reads a pixel, after any whitespace and comments.
fn read_plain_pixel<I: Inputs>(buffer: &mut Buffer, inputs: &mut I) -> Result<bool, Stop>
    requires { I.is_opened inputs.old ≡ true }
    ensures reads { ReadsFrom I.Inputs Same plain_pixel buffer.old inputs.old result buffer.new
        inputs.new }
{
    match buffer.look(inputs) {
        // Most pixels have no gap between them.
        Look::Byte(b'0') => {
            buffer.pass();
            Ok(false)
        }
        Look::Byte(b'1') => {
            buffer.pass();
            Ok(true)
        }
        Look::Byte(_) => {
            skip(buffer, inputs, Run::Gap)?;
            read_pixel(buffer, inputs)
        }
        Look::End => Err(Stop::Fault(InFault::Truncated)),
        Look::Fault => Err(Stop::Fault(InFault::ReadFault)),
    }
}

/// Reads one row of pixels into row `y` of the page, inverted or not.
pub(crate) fn read_plain_row<I: Inputs>(
    buffer: &mut Buffer,
    inputs: &mut I,
    page: &mut Bitmap,
    y: u32,
    invert: bool,
) -> Result<(), Stop>
    requires opened { I.is_opened inputs.old ≡ true }
    requires row { y < page.old.height }
    ensures reads { ReadsFrom I.Inputs (λ _ pixels. image_of page.new ≡ with_row (image_of page.old)
        y (map (differ invert) pixels)) (repeated plain_pixel page.old.width) buffer.old inputs.old
        result buffer.new inputs.new }
    ensures sides { SameSides page.old page.new }
{
    for x in 0..page.width() {
        let black = read_plain_pixel(buffer, inputs)?;
        page.set(x, y, black != invert);
    }
    Ok(())
}
