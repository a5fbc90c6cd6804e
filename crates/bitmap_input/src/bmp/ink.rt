//! Which pixels of a BMP picture's row are black.
ghost use Rattle.std.specs.Prelude.{◌≡◌, length};

use crate::bmp::fields::Depth;
use crate::tone::Tone;

/// Which pixels of a row of bytes are black.
#[derive(Clone, Copy)]
pub(crate) struct Ink<'a> {
    pub(crate) depth: Depth,
    /// Says which colours are black.
    pub(crate) tone: Tone,
    /// Says which colours of the palette are black.
    pub(crate) table: &'a [bool; 256],
    ghost whole: { length table.now ≡ 256 },
}
