//! Why a page can't be read.
ghost use Rattle.std.specs.Prelude.{◌≡◌};
ghost use Rattle.bitmap_input.specs.Inner.FaultText.{fault_text};

use thiserror::Error;

/// Why the next page of a file can't be read.
///
/// If a page has several faults, the first one in the file is reported. After a fault the reader is over.
#[derive(Clone, Copy, Debug, PartialEq, Eq, Error)]
#[error("{}", self.text())]
pub enum InFault {
    /// The file doesn't begin with the magic number of a known format.
    UnknownFormat,
    /// A byte in the header isn't a digit, a gap or the one whitespace byte that is required there; or the
    /// sample for white is 0 or above 65535.
    BadHeader,
    /// The page has no columns or no rows.
    ZeroSide,
    /// A side has more pixels than `LONGEST_SIDE`.
    TooLarge,
    /// The file ends before the page does.
    Truncated,
    /// A byte in a plain raster isn't a pixel, a gap or a digit, as required there.
    BadRaster,
    /// The page is a BMP picture of a kind that can't be read.
    BmpKind,
    /// The pixels of a BMP picture begin before the end of its header or palette.
    BadOffset,
    /// A gap or a run of digits has more than 1,048,576 bytes.
    TooLong,
    /// The device failed while the page was being read.
    ReadFault,
    /// Memory ran out.
    NoMemory,
}

impl InFault {
    /// Why the page can't be read, as text for a message.
    pub fn text(self) -> &'static str
        ensures { result.now ≡ fault_text self }
    {
        match self {
            InFault::UnknownFormat => "unknown format",
            InFault::BadHeader => "bad header",
            InFault::ZeroSide => "zero side",
            InFault::TooLarge => "side too large",
            InFault::Truncated => "truncated",
            InFault::BadRaster => "bad raster",
            InFault::BmpKind => "unsupported BMP kind",
            InFault::BadOffset => "bad BMP offset",
            InFault::TooLong => "gap too long",
            InFault::ReadFault => "read fault",
            InFault::NoMemory => "out of memory",
        }
    }
}
