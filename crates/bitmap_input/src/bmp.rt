//! BMP pictures.
ghost use Rattle.std.specs.Prelude.{◌≡◌, ℕ, ◌+◌, ◌-◌, ◌*◌, ◌≤◌, true};
ghost use Rattle.bitmap_input.specs.Inner.Reading.{Reads, ReadsFrom, Leaves};
ghost use Rattle.bitmap_input.specs.Raw.{Entry, IsShown};
ghost use Rattle.bitmap_input.specs.Front.Magic.{Picture as picture};
ghost use Rattle.bitmap_input.specs.Inner.Behind.{IsRead, counted_body};
ghost use Rattle.bitmap_input.specs.Inner.BmpHead.{IsPaletteTable, bits_in, row_bytes_by, pixels_by, raster_by};

mod fields;
mod head;
mod header;
mod info;
mod ink;
mod layout;
mod palette;
mod pixels;

use crate::bmp::header::read_header;
use crate::bmp::ink::Ink;
use crate::bmp::layout::Header;
use crate::bmp::palette::read_palette;
use crate::bmp::pixels::read_rows;
use crate::buffer::Buffer;
use crate::extent::{ReadPage, known};
use crate::skip::skip_block;
use crate::stop::Stop;
use crate::tone::Tone;
use bit_image::Bitmap;
use pt_core::Inputs;
use std::alloc::Global;

/// The number of bytes in a row, which is a multiple of four.
fn row_bytes(header: &Header) -> u32
    ensures value { result ≡ row_bytes_by header.now }
    ensures whole { header.now.sides.width * bits_in header.now.depth ≤ 8 * result }
{
    4 * ((header.sides.width * header.depth.bits() + 31) / 32)
}

/// Reads the rows into a new page.
fn read_pixels<I: Inputs>(
    alloc: Global,
    buffer: &mut Buffer,
    inputs: &mut I,
    header: &Header,
    tone: &Tone,
    table: &[bool; 256],
) -> Result<Bitmap, Stop>
    requires opened { I.is_opened inputs.old ≡ true }
    ensures reads { (color : ℕ → Entry) → IsPaletteTable tone.now.level tone.now.invert color
        table.now
        → Reads (IsShown tone.now.level tone.now.invert) (pixels_by header.now color) buffer.old
        (I.files inputs.old) result buffer.new (I.files inputs.new) }
    ensures leaves { Leaves I.Inputs result inputs.old inputs.new }
{
    let mut page = Bitmap::new(alloc, header.sides.width, header.sides.height)?;
    let mut row = vec![in alloc; 0u8; row_bytes(header) as usize]?;
    let ink = Ink {
        depth: header.depth,
        tone: *tone,
        table,
    };
    read_rows(buffer, inputs, &mut page, header, &ink, &mut row)?;
    known(&page);
    Ok(page)
}

/// Reads what follows the header: the palette, unused bytes, and the rows.
fn read_raster<I: Inputs>(
    alloc: Global,
    buffer: &mut Buffer,
    inputs: &mut I,
    header: &Header,
    tone: &Tone,
) -> Result<Bitmap, Stop>
    requires opened { I.is_opened inputs.old ≡ true }
    ensures reads { ReadsFrom I.Inputs (IsShown tone.now.level tone.now.invert) (raster_by
        header.now) buffer.old inputs.old result buffer.new inputs.new }
{
    let mut table = [false; 256];
    read_palette(buffer, inputs, header, tone, &mut table)?;
    skip_block(buffer, inputs, header.before_pixels)?;
    read_pixels(alloc, buffer, inputs, header, tone, &table)
}

/// How many bytes the picture claims after its last row, given its file size.
fn behind(header: &Header) -> u32
    ensures { result ≡ header.now.file_size -
        (header.now.pixel_offset + header.now.sides.height * row_bytes_by header.now) }
{
    let rows_end = header.pixel_offset as u64
        + header.sides.height as u64 * row_bytes(header) as u64;
    if rows_end < header.file_size as u64 {
        (header.file_size as u64 - rows_end) as u32
    } else {
        0
    }
}

/// Reads a BMP picture after its magic number. The tone says which colours are black.
//
// Memory for the page is allocated after all checks of the header, so a hostile header costs none. Skipping
// bytes, up to 4 GiB, allocates none either.
pub(crate) fn read_bmp<I: Inputs>(
    alloc: Global,
    buffer: &mut Buffer,
    inputs: &mut I,
    tone: &Tone,
) -> Result<ReadPage, Stop>
    requires { I.is_opened inputs.old ≡ true }
    ensures reads { ReadsFrom I.Inputs (IsRead tone.now.level tone.now.invert) (counted_body picture)
        buffer.old inputs.old result buffer.new inputs.new }
{
    let header = read_header(buffer, inputs)?;
    let page = read_raster(alloc, buffer, inputs, &header, tone)?;
    Ok(ReadPage {
        page,
        behind: behind(&header),
    })
}
