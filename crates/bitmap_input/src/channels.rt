//! The channels of a pixel.
ghost use Rattle.std.specs.Prelude.{◌≡◌};
ghost use Rattle.bitmap_input.specs.Samples.{samples_in};

/// The samples of a pixel.
#[derive(Clone, Copy)]
pub(crate) enum Channels {
    /// One gray sample.
    Gray,
    /// Three samples: red, green and blue.
    Color,
}

impl Channels {
    /// The number of samples of a pixel.
    pub(crate) fn samples(self) -> u32
        ensures { result ≡ samples_in self }
    {
        match self {
            Channels::Gray => 1,
            Channels::Color => 3,
        }
    }
}
