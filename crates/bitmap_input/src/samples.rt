//! Rasters of samples. A pixel has one gray sample, or one each of red, green and blue. A sample is a decimal
//! number, one byte or two bytes.
ghost use Rattle.std.specs.Prelude.{◌≡◌, ℕ, ◌+◌, ◌*◌, ◌<◌, ◌≤◌, true, false, length, map, nat_le, get_or};
ghost use Rattle.bit_image.specs.Page.{Page, SameSides, image_of};
ghost use Rattle.bitmap_input.specs.Inner.Reading.{ReadsFrom};
ghost use Rattle.bitmap_input.specs.PageParts.{repeated};
ghost use Rattle.bitmap_input.specs.Raw.{is_dark};
ghost use Rattle.bitmap_input.specs.Samples.{PixelSamples, samples_in, as_entry, plain_samples, is_wide, sample_bytes, samples, grouped, raw_samples_row};
ghost use Rattle.bitmap_input.specs.Inner.Raster.{with_row};
ghost use Rattle.bitmap_input.specs.Inner.Shading.{brightness, brightness_at, IsCappedBrightness, black_of, black_in_bytes};
ghost use Rattle.bitmap_input.specs.Inner.RowWords.{FitsWord, ShowsPixels};
ghost use Rattle.bitmap_input.specs.declared.channels.Channels.TheVariants as channels;

use crate::buffer::Buffer;
use crate::channels::Channels;
use crate::dark::{color_word, gray_word};
use crate::header::GREATEST_MAXVAL;
use crate::number::{Section, read_number_behind_gap};
use crate::raw::read_block;
use crate::shading::Shading;
use crate::stop::Stop;
use crate::words::{inverted, word_of};
use bit_image::Bitmap;
use pt_core::{Inputs, LONGEST_SIDE};
use threshold_map::Level;

/// The greatest brightness of a black pixel. The brightness is the sum of the pixel's samples.
//
// It is computed once per page, and for the colours of a BMP picture once per 64 pixels.
pub(crate) fn brightest_black(level: &Level, channels: Channels, maxval: u32) -> u32
    requires some { 1 ≤ maxval }
    requires most { maxval ≤ GREATEST_MAXVAL }
    ensures black { (a : PixelSamples channels) → is_dark level.now (as_entry channels maxval a)
        ≡ nat_le (brightness channels a) result }
    ensures most { result ≤ samples_in channels * maxval }
{
    match channels {
        Channels::Gray => level.gray_limit(maxval),
        Channels::Color => level.color_limit(maxval),
    }
}

/// Reads the brightness of a pixel with three samples in decimal numbers.
fn read_plain_color<I: Inputs>(buffer: &mut Buffer, inputs: &mut I) -> Result<u32, Stop>
    requires { I.is_opened inputs.old ≡ true }
    ensures reads { ReadsFrom I.Inputs (IsCappedBrightness channels.Color) (plain_samples
        channels.Color) buffer.old inputs.old result buffer.new inputs.new }
{
    let red = read_number_behind_gap(buffer, inputs, Section::Raster)?;
    let green = read_number_behind_gap(buffer, inputs, Section::Raster)?;
    let blue = read_number_behind_gap(buffer, inputs, Section::Raster)?;
    Ok(red + green + blue)
}

/// Reads the brightness of a pixel with samples in decimal numbers. Samples that are too bright to be black may
/// be capped.
fn read_plain_samples<I: Inputs>(
    buffer: &mut Buffer,
    inputs: &mut I,
    channels: Channels,
) -> Result<u32, Stop>
    requires { I.is_opened inputs.old ≡ true }
    ensures reads { ReadsFrom I.Inputs (IsCappedBrightness channels) (plain_samples channels)
        buffer.old inputs.old result buffer.new inputs.new }
{
    match channels {
        Channels::Gray => read_number_behind_gap(buffer, inputs, Section::Raster),
        Channels::Color => read_plain_color(buffer, inputs),
    }
}

/// Reads one row of samples in decimal numbers into row `y` of the page.
pub(crate) fn read_plain_samples_row<I: Inputs>(
    buffer: &mut Buffer,
    inputs: &mut I,
    page: &mut Bitmap,
    y: u32,
    shading: &Shading,
) -> Result<(), Stop>
    requires opened { I.is_opened inputs.old ≡ true }
    requires row { y < page.old.height }
    ensures reads { ReadsFrom I.Inputs (λ _ row. image_of page.new ≡ with_row (image_of page.old) y
        (map (black_of shading.now) row)) (repeated (plain_samples shading.now.channels)
        page.old.width) buffer.old inputs.old result buffer.new inputs.new }
    ensures sides { SameSides page.old page.new }
{
    for x in 0..page.width() {
        let brightness = read_plain_samples(buffer, inputs, shading.channels)?;
        page.set(x, y, shading.black(brightness));
    }
    Ok(())
}

/// Whether each sample has two bytes.
pub(crate) fn is_wide(maxval: u32) -> bool
    ensures { result ≡ is_wide maxval }
{
    maxval > 255
}

/// The number of bytes in a row of samples.
pub(crate) fn row_bytes(channels: Channels, width: u32, maxval: u32) -> usize
    requires { width ≤ LONGEST_SIDE }
    ensures { result ≡ sample_bytes maxval (samples_in channels * width) }
{
    let samples = (channels.samples() * width) as usize;
    if is_wide(maxval) {
        2 * samples
    } else {
        samples
    }
}

/// Sample `i` of a row, if each sample has two bytes (`wide`) or one.
#[inline(always)]
pub(crate) fn sample_at(row: &[u8], wide: bool, i: usize) -> u32
    requires { i < length (samples wide row.now) }
    ensures value { result ≡ get_or (samples wide row.now) i 0 }
    ensures most { result ≤ GREATEST_MAXVAL }
{
    if wide {
        256 * row[2 * i] as u32 + row[2 * i + 1] as u32
    } else {
        row[i] as u32
    }
}

/// The brightness of the pixel in column `x` of a row.
#[inline(always)]
fn brightness_at(row: &[u8], channels: Channels, wide: bool, x: usize) -> u32
    requires { samples_in channels * (x + 1) ≤ length (samples wide row.now) }
    ensures { result ≡ brightness_at channels (samples wide row.now) x }
{
    match channels {
        Channels::Gray => sample_at(row, wide, x),
        Channels::Color => {
            let red = sample_at(row, wide, 3 * x);
            let green = sample_at(row, wide, 3 * x + 1);
            let blue = sample_at(row, wide, 3 * x + 2);
            red + green + blue
        }
    }
}

/// A word of the 64 pixels of a row that start in column `from`, if samples have one byte each.
fn full_word(row: &[u8], from: usize, shading: &Shading) -> u64
    requires narrow { is_wide shading.now.maxval ≡ false }
    requires within { samples_in shading.now.channels * (from + 64) ≤ length row.now }
    ensures { ShowsPixels (black_in_bytes shading.now row.now) from 64 result }
{
    match shading.channels {
        Channels::Gray => inverted(gray_word(row, from, shading.limit), shading.invert),
        Channels::Color => { inverted(color_word(row, 3 * from, 3, shading.limit), shading.invert) }
    }
}

/// A word of the `count` pixels of a row that start in column `from`, computed pixel by pixel.
fn word_by_pixels(row: &[u8], from: usize, count: usize, shading: &Shading) -> u64
    requires { FitsWord (samples_in shading.now.channels) from count
        (length (samples (is_wide shading.now.maxval) row.now)) }
    ensures { ShowsPixels (black_in_bytes shading.now row.now) from count result }
{
    let wide = is_wide(shading.maxval);
    let mut pixels = [false; 64];
    for i in 0..count {
        let brightness = brightness_at(row, shading.channels, wide, from + i);
        pixels[i] = shading.black(brightness);
    }
    word_of(&pixels)
}

/// A word of the `count` pixels of a row that start in column `from`.
fn word(row: &[u8], from: usize, count: usize, shading: &Shading) -> u64
    requires { FitsWord (samples_in shading.now.channels) from count
        (length (samples (is_wide shading.now.maxval) row.now)) }
    ensures { ShowsPixels (black_in_bytes shading.now row.now) from count result }
{
    if count < 64 || is_wide(shading.maxval) {
        word_by_pixels(row, from, count, shading)
    } else {
        full_word(row, from, shading)
    }
}

/// Writes a row of samples to row `y` of the page, word by word.
fn place_row(page: &mut Bitmap, y: u32, row: &[u8], shading: &Shading)
    requires row { y < page.old.height }
    requires whole { length row.now
        ≡ sample_bytes shading.now.maxval (samples_in shading.now.channels * page.old.width) }
    ensures sides { SameSides page.old page.new }
    ensures pixels { image_of page.new ≡ with_row (image_of page.old) y
        (map (black_of shading.now)
        (grouped shading.now.channels (samples (is_wide shading.now.maxval) row.now))) }
{
    let width = page.width();
    for at in 0..(width + 63) / 64 {
        let from = 64 * at;
        let count = (width - from).min(64);
        page.put_word(y, at, word(row, from as usize, count as usize, shading));
    }
}

/// Reads one row of samples in bytes into row `y` of the page. `line` is a buffer for its bytes.
pub(crate) fn read_raw_samples_row<I: Inputs>(
    buffer: &mut Buffer,
    inputs: &mut I,
    page: &mut Bitmap,
    y: u32,
    shading: &Shading,
    line: &mut [u8],
) -> Result<(), Stop>
    requires opened { I.is_opened inputs.old ≡ true }
    requires row { y < page.old.height }
    requires whole { length line.old
        ≡ sample_bytes shading.now.maxval (samples_in shading.now.channels * page.old.width) }
    ensures reads { ReadsFrom I.Inputs (λ _ row. image_of page.new ≡ with_row (image_of page.old) y
        (map (black_of shading.now) row)) (raw_samples_row shading.now.channels shading.now.maxval
        page.old.width) buffer.old inputs.old result buffer.new inputs.new }
    ensures sides { SameSides page.old page.new }
{
    read_block(buffer, inputs, line)?;
    place_row(page, y, line, shading);
    Ok(())
}
