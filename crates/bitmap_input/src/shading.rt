//! How the samples of a page become pixels.
ghost use Rattle.std.specs.Prelude.{◌≡◌, ◌*◌, ◌≤◌};
ghost use Rattle.bitmap_input.specs.Front.{greatest_maxval};
ghost use Rattle.bitmap_input.specs.Samples.{samples_in};

use crate::channels::Channels;

/// How the samples of a page become pixels.
#[derive(Clone, Copy)]
pub(crate) struct Shading {
    pub(crate) channels: Channels,
    /// The sample for white, from 1 to 65535.
    pub(crate) maxval: u32,
    /// The greatest sum of the samples of a black pixel. It is at most the sum of a white pixel.
    pub(crate) limit: u32,
    pub(crate) invert: bool,
    ghost most: { maxval ≤ greatest_maxval },
    ghost no_brighter: { limit ≤ samples_in channels * maxval },
}

impl Shading {
    ghost use Rattle.bitmap_input.specs.Inner.Shading.{is_black_at};

    /// Whether a pixel with this brightness is black.
    #[inline(always)]
    pub(crate) fn black(&self, brightness: u32) -> bool
        ensures { result ≡ is_black_at self.now brightness }
    {
        (brightness <= self.limit) != self.invert
    }
}
