//! Which pixels of a page are black.
ghost use Rattle.std.specs.Prelude.{◌≡◌, ◌+◌, ◌<◌, length};
ghost use Rattle.bitmap_input.specs.Raw.{black};
ghost use Rattle.bitmap_input.specs.Raw.Entry.{Color as color};
ghost use Rattle.bitmap_input.specs.BmpRaster.{color_at};

use threshold_map::Level;

/// The level of brightness up to which a pixel is black, and whether each pixel is inverted after that.
#[derive(Clone, Copy)]
pub(crate) struct Tone {
    pub(crate) level: Level,
    pub(crate) invert: bool,
}

impl Tone {
    /// Whether the colour black, with all samples 0, becomes a black pixel.
    pub(crate) fn none(&self) -> bool
        ensures { result ≡ black self.now.level self.now.invert (color 0 0 0) }
    {
        self.level.rgb(0, 0, 0) != self.invert
    }

    /// Whether the colour at index `at` is a black pixel. Its bytes are blue, green and red.
    pub(crate) fn black(&self, bytes: &[u8], at: usize) -> bool
        requires { at + 2 < length bytes.now }
        ensures { result ≡ black self.now.level self.now.invert (color_at bytes.now at) }
    {
        self.level.rgb(bytes[at + 2], bytes[at + 1], bytes[at]) != self.invert
    }
}
