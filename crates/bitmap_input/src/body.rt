//! What follows the magic number of a page.
ghost use Rattle.std.specs.Prelude.{◌≡◌, ℕ, true, Bool};
ghost use Rattle.bitmap_input.specs.Inner.Reading.{Reads, ReadsFrom, Leaves};
ghost use Rattle.bitmap_input.specs.Front.{body};
ghost use Rattle.bitmap_input.specs.Inner.Behind.{IsRead, counted_body};
ghost use Rattle.bitmap_input.specs.Inner.Header.{magic_of, samples_magic};
ghost use Rattle.bitmap_input.specs.Inner.Stored.{sides_and_rows, IsAtLevel};
ghost use Rattle.bitmap_input.specs.Raw.{IsShown};

use crate::bmp::read_bmp;
use crate::buffer::Buffer;
use crate::channels::Channels;
use crate::extent::{ReadPage, claiming_none};
use crate::header::{Format, end_header, read_maxval, read_sides};
use crate::raster::{Raster, read_page};
use crate::samples::brightest_black;
use crate::shading::Shading;
use crate::stop::Stop;
use crate::tone::Tone;
use bit_image::Bitmap;
use pt_core::Inputs;
use std::alloc::Global;

/// Reads a page of bits, stored in this way, after its magic number.
fn read_bits_body<I: Inputs>(
    alloc: Global,
    buffer: &mut Buffer,
    inputs: &mut I,
    raster: Raster,
) -> Result<Bitmap, Stop>
    requires { I.is_opened inputs.old ≡ true }
    ensures reads { (level : ℕ) (invert : Bool) → IsAtLevel level invert raster
        → Reads (IsShown level invert) (sides_and_rows raster) buffer.old (I.files inputs.old)
        result buffer.new (I.files inputs.new) }
    ensures leaves { Leaves I.Inputs result inputs.old inputs.new }
{
    let sides = read_sides(buffer, inputs)?;
    end_header(buffer, inputs, raster.is_plain())?;
    read_page(alloc, buffer, inputs, sides, raster)
}

/// Reads a page of samples, plain or raw, after its magic number.
fn read_samples_body<I: Inputs>(
    alloc: Global,
    buffer: &mut Buffer,
    inputs: &mut I,
    plain: bool,
    channels: Channels,
    tone: &Tone,
) -> Result<Bitmap, Stop>
    requires { I.is_opened inputs.old ≡ true }
    ensures reads { ReadsFrom I.Inputs (IsShown tone.now.level tone.now.invert)
        (body (samples_magic plain channels)) buffer.old inputs.old result buffer.new inputs.new }
{
    let sides = read_sides(buffer, inputs)?;
    let maxval = read_maxval(buffer, inputs)?;
    end_header(buffer, inputs, plain)?;
    let shading = Shading {
        channels,
        maxval,
        limit: brightest_black(&tone.level, channels, maxval),
        invert: tone.invert,
    };
    let raster = Raster::of_samples(plain, shading);
    read_page(alloc, buffer, inputs, sides, raster)
}

/// Reads the rest of a page of this format, after its magic number. The tone says which pixels are black.
pub(crate) fn read_body<I: Inputs>(
    alloc: Global,
    buffer: &mut Buffer,
    inputs: &mut I,
    format: Format,
    tone: &Tone,
) -> Result<ReadPage, Stop>
    requires { I.is_opened inputs.old ≡ true }
    ensures reads { ReadsFrom I.Inputs (IsRead tone.now.level tone.now.invert)
        (counted_body (magic_of format)) buffer.old inputs.old result buffer.new inputs.new }
{
    let invert = tone.invert;
    match format {
        Format::PlainBits => claiming_none(read_bits_body(
            alloc,
            buffer,
            inputs,
            Raster::PlainBits { invert },
        )),
        Format::RawBits => claiming_none(read_bits_body(
            alloc,
            buffer,
            inputs,
            Raster::RawBits { invert },
        )),
        Format::PlainSamples(channels) => claiming_none(read_samples_body(
            alloc, buffer, inputs, true, channels, tone,
        )),
        Format::RawSamples(channels) => claiming_none(read_samples_body(
            alloc, buffer, inputs, false, channels, tone,
        )),
        Format::Picture => read_bmp(alloc, buffer, inputs, tone),
    }
}
