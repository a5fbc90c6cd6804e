//! The pixels of a BMP picture.
ghost use Rattle.std.specs.Prelude.{◌≡◌, ℕ, ◌+◌, ◌*◌, ◌<◌, ◌≤◌, true, false, not, length, map, List, slice_index_or};
ghost use Rattle.std.specs.List.{range_with_len};
ghost use Rattle.bit_image.specs.Words.{is_one};
ghost use Rattle.bit_image.specs.Page.{Page, SameSides, image_of};
ghost use Rattle.bitmap_input.specs.Inner.Reading.{Reads, Leaves};
ghost use Rattle.bitmap_input.specs.PageParts.{block, repeated};
ghost use Rattle.bitmap_input.specs.Raw.{Entry, black};
ghost use Rattle.bitmap_input.specs.BmpRaster.{color_at, bit_at, half_at, palette_color, color_row};
ghost use Rattle.bitmap_input.specs.Inner.BmpHead.{IsPaletteTable, bits_in, shade_by, row_place, row_bytes_by};
ghost use Rattle.bitmap_input.specs.Inner.RowWords.{FitsWord, ShowsPixels};
ghost use Rattle.bitmap_input.specs.Inner.Raster.{HasRow, with_placed};

use crate::bmp::fields::Depth;
use crate::bmp::ink::Ink;
use crate::bmp::layout::Header;
use crate::buffer::Buffer;
use crate::dark::color_word;
use crate::raw::{place_row as place_bits, read_block};
use crate::stop::Stop;
use crate::tone::Tone;
use crate::words::{inverted, word_of};
use bit_image::Bitmap;
use pt_core::{Inputs, LONGEST_SIDE};

/// Bit `x` of a row. The most significant bit of each byte comes first.
fn bit(row: &[u8], x: usize) -> usize
    requires { x < 8 * length row.now }
    ensures value { result ≡ bit_at row.now x }
    ensures most { result < 2 }
{
    (row[x / 8] as usize >> (7 - x % 8)) % 2
}

/// The number in four bits of a row. The upper half of each byte comes first.
fn half(row: &[u8], x: usize) -> usize
    requires { x < 2 * length row.now }
    ensures value { result ≡ half_at row.now x }
    ensures most { result < 16 }
{
    let byte = row[x / 2] as usize;
    if x % 2 == 0 { byte / 16 } else { byte % 16 }
}

/// Whether the pixel in column `x` of a row is black.
#[inline(always)]
fn shade(ink: &Ink, row: &[u8], x: usize) -> bool
    requires { (x + 1) * bits_in ink.now.depth ≤ 8 * length row.now }
    ensures { result ≡ shade_by ink.now row.now x }
{
    match ink.depth {
        Depth::One => ink.table[bit(row, x)],
        Depth::Four => ink.table[half(row, x)],
        Depth::Eight => ink.table[row[x] as usize],
        Depth::TwentyFour => ink.tone.black(row, 3 * x),
        Depth::ThirtyTwo => ink.tone.black(row, 4 * x),
    }
}

/// A word of the `count` pixels of a row that start in column `from`, computed pixel by pixel.
fn word_by_pixels(ink: &Ink, row: &[u8], from: usize, count: usize) -> u64
    requires { FitsWord (bits_in ink.now.depth) from count (8 * length row.now) }
    ensures { ShowsPixels (shade_by ink.now row.now) from count result }
{
    let mut pixels = [false; 64];
    for i in 0..count {
        pixels[i] = shade(ink, row, from + i);
    }
    word_of(&pixels)
}

/// A word of 64 colours. The first one is at index `from`, and each is `step` bytes after the one before.
#[inline(always)]
fn colors_word(tone: &Tone, row: &[u8], from: usize, step: usize) -> u64
    requires within { from + step * 64 ≤ length row.now }
    requires least { 3 ≤ step }
    ensures { (k : ℕ) → k < 64 → is_one result k
        ≡ black tone.now.level tone.now.invert (color_at row.now (from + step * k)) }
{
    let dark = color_word(row, from, step, tone.level.color_limit(255));
    inverted(dark, tone.invert)
}

/// A word of the 64 pixels of a row that start in column `from`.
fn full_word(ink: &Ink, row: &[u8], from: usize) -> u64
    requires { FitsWord (bits_in ink.now.depth) from 64 (8 * length row.now) }
    ensures { ShowsPixels (shade_by ink.now row.now) from 64 result }
{
    match ink.depth {
        Depth::TwentyFour => colors_word(&ink.tone, row, 3 * from, 3),
        Depth::ThirtyTwo => colors_word(&ink.tone, row, 4 * from, 4),
        Depth::One | Depth::Four | Depth::Eight => word_by_pixels(ink, row, from, 64),
    }
}

/// A word of the `count` pixels of a row that start in column `from`.
fn word(ink: &Ink, row: &[u8], from: usize, count: usize) -> u64
    requires { FitsWord (bits_in ink.now.depth) from count (8 * length row.now) }
    ensures { ShowsPixels (shade_by ink.now row.now) from count result }
{
    if count < 64 {
        word_by_pixels(ink, row, from, count)
    } else {
        full_word(ink, row, from)
    }
}

/// Writes a row of bytes to row `y` of the page, word by word.
fn place_words(page: &mut Bitmap, y: u32, ink: &Ink, row: &[u8])
    requires row { y < page.old.height }
    requires whole { page.old.width * bits_in ink.now.depth ≤ 8 * length row.now }
    ensures { HasRow page.old y (map (shade_by ink.now row.now) (range_with_len 0 page.old.width))
        page.new }
{
    let width = page.width();
    for at in 0..(width + 63) / 64 {
        let from = 64 * at;
        let count = (width - from).min(64);
        page.put_word(y, at, word(ink, row, from as usize, count as usize));
    }
}

/// Whether exactly one of the palette's first two colours is black.
fn are_apart(table: &[bool; 256]) -> bool
    ensures { result ≡ true
        → slice_index_or table.now 1 false ≡ not (slice_index_or table.now 0 false) }
{
    table[0] != table[1]
}

/// Writes a row of bytes to row `y` of the page. If each bit selects a black or a white colour, the bits are
/// copied as they are packed.
fn place_row(page: &mut Bitmap, y: u32, ink: &Ink, row: &[u8])
    requires row { y < page.old.height }
    requires whole { page.old.width * bits_in ink.now.depth ≤ 8 * length row.now }
    ensures { HasRow page.old y (map (shade_by ink.now row.now) (range_with_len 0 page.old.width))
        page.new }
{
    if let Depth::One = ink.depth {
        if are_apart(ink.table) {
            let n = (page.width() as usize + 7) / 8;
            place_bits(page, y, &row[..n], ink.table[0]);
            return;
        }
    }
    place_words(page, y, ink, row);
}

/// The row of the page for row `i` of the picture, which is stored from the top or from the bottom.
fn row_place(top_down: bool, height: u32, i: u32) -> u32
    requires { i < height }
    ensures value { result ≡ row_place top_down height i }
    ensures within { result < height }
{
    if top_down { height - (i + 1) } else { i }
}

/// Reads the rows of a picture into the page. `row` is a buffer for one of them.
pub(crate) fn read_rows<I: Inputs>(
    buffer: &mut Buffer,
    inputs: &mut I,
    page: &mut Bitmap,
    header: &Header,
    ink: &Ink,
    row: &mut [u8],
) -> Result<(), Stop>
    requires opened { I.is_opened inputs.old ≡ true }
    requires room { length row.old ≡ row_bytes_by header.now }
    requires whole { page.old.width * bits_in ink.now.depth ≤ 8 * length row.old }
    ensures reads { (color_of : ℕ → Entry)
        → IsPaletteTable ink.now.tone.level ink.now.tone.invert color_of ink.now.table.now
        → Reads (λ _ rows. image_of page.new
        ≡ with_placed (row_place header.now.top_down page.old.height) (image_of page.old) 0
        (map (map (black ink.now.tone.level ink.now.tone.invert)) rows))
        (repeated (color_row (row_bytes_by header.now)
        (bits_in ink.now.depth) color_of page.old.width) page.old.height) buffer.old
        (I.files inputs.old) result buffer.new (I.files inputs.new) }
    ensures sides { SameSides page.old page.new }
    ensures leaves { Leaves I.Inputs result inputs.old inputs.new }
{
    let height = page.height();
    for i in 0..height {
        read_block(buffer, inputs, row)?;
        let y = row_place(header.top_down, height, i);
        place_row(page, y, ink, row);
    }
    Ok(())
}
