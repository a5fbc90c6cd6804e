//! The layout of a BMP picture.
ghost use Rattle.std.specs.Prelude.{◌≤◌};

use crate::bmp::fields::Depth;
use crate::sides::Sides;

/// What the header of a BMP picture says.
#[derive(Clone, Copy)]
pub(crate) struct Header {
    pub(crate) sides: Sides,
    /// Whether the first row is the top row. If not, it is the lowest one.
    pub(crate) top_down: bool,
    pub(crate) depth: Depth,
    /// The number of bytes of a colour in the palette, 3 or 4.
    pub(crate) color_bytes: u32,
    /// The number of colours in the palette, at most 256.
    pub(crate) palette_length: u32,
    /// The number of bytes between the palette and the first row.
    pub(crate) before_pixels: u32,
    /// The offset of the first row from the picture's first byte.
    pub(crate) pixel_offset: u32,
    /// The file size that the header states.
    pub(crate) file_size: u32,
    ghost three_or_four: { (3 ≤ color_bytes) × (color_bytes ≤ 4) },
    ghost few: { palette_length ≤ 256 },
    ghost behind_magic: { 2 ≤ pixel_offset },
}
