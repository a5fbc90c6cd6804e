//! The palette of a BMP picture.
ghost use Rattle.std.specs.Prelude.{◌≡◌, ℕ, ◌*◌, ◌≤◌, ◌<◌, true, length};
ghost use Rattle.bitmap_input.specs.Inner.Reading.{ReadsFrom};
ghost use Rattle.bitmap_input.specs.PageParts.{block};
ghost use Rattle.bitmap_input.specs.Raw.{black};
ghost use Rattle.bitmap_input.specs.BmpRaster.{palette_color};
ghost use Rattle.bitmap_input.specs.Inner.BmpHead.{IsPaletteTable};

use crate::bmp::layout::Header;
use crate::buffer::Buffer;
use crate::raw::read_block;
use crate::stop::Stop;
use crate::tone::Tone;
use pt_core::Inputs;

/// Whether colour `i` of a palette is black. Colours beyond the palette are the colour black.
fn is_black(tone: &Tone, colors: u32, size: u32, palette: &[u8], i: u32) -> bool
    requires few { colors ≤ 256 }
    requires some { 3 ≤ size }
    requires small { size ≤ 4 }
    requires whole { length palette.now ≡ size * colors }
    ensures { result ≡ black tone.now.level tone.now.invert
        (palette_color colors size palette.now i) }
{
    if i < colors {
        tone.black(palette, (size * i) as usize)
    } else {
        tone.none()
    }
}

/// Fills the table that says which colours of a palette are black.
//
// The table has bools instead of bits, so that a pixel takes one load and no shift.
fn fill_table(tone: &Tone, colors: u32, size: u32, palette: &[u8], table: &mut [bool; 256])
    requires few { colors ≤ 256 }
    requires some { 3 ≤ size }
    requires small { size ≤ 4 }
    requires whole { length palette.now ≡ size * colors }
    ensures table { IsPaletteTable tone.now.level tone.now.invert
        (palette_color colors size palette.now) table.new }
{
    for i in 0..256u32 {
        table[i as usize] = is_black(tone, colors, size, palette, i);
    }
}

/// Reads the palette into a buffer, and fills its table.
fn read_colors<I: Inputs>(
    buffer: &mut Buffer,
    inputs: &mut I,
    header: &Header,
    tone: &Tone,
    palette: &mut [u8],
    table: &mut [bool; 256],
) -> Result<(), Stop>
    requires opened { I.is_opened inputs.old ≡ true }
    requires whole { length palette.old ≡ header.now.color_bytes * header.now.palette_length }
    ensures reads { ReadsFrom I.Inputs (λ _ palette. IsPaletteTable tone.now.level tone.now.invert
        (palette_color header.now.palette_length header.now.color_bytes palette) table.new) (block
        (header.now.color_bytes * header.now.palette_length)) buffer.old inputs.old result
        buffer.new inputs.new }
{
    read_block(buffer, inputs, palette)?;
    fill_table(
        tone,
        header.palette_length,
        header.color_bytes,
        palette,
        table,
    );
    Ok(())
}

/// The greatest number of bytes of a palette.
const ROOM: usize = 1024;

/// Reads the palette, and fills the table that says which of its colours are black.
pub(crate) fn read_palette<I: Inputs>(
    buffer: &mut Buffer,
    inputs: &mut I,
    header: &Header,
    tone: &Tone,
    table: &mut [bool; 256],
) -> Result<(), Stop>
    requires opened { I.is_opened inputs.old ≡ true }
    ensures reads { ReadsFrom I.Inputs (λ _ palette. IsPaletteTable tone.now.level tone.now.invert
        (palette_color header.now.palette_length header.now.color_bytes palette) table.new) (block
        (header.now.color_bytes * header.now.palette_length)) buffer.old inputs.old result
        buffer.new inputs.new }
{
    let mut palette = [0u8; ROOM];
    let n = (header.color_bytes * header.palette_length) as usize;
    read_colors(buffer, inputs, header, tone, &mut palette[..n], table)
}
