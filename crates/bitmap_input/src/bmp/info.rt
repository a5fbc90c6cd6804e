//! The bytes of a BMP picture's header, with all its fields.
ghost use Rattle.bitmap_input.specs.Inner.BmpHead.{HasInfo};

use crate::bmp::head::Head;

/// The bytes of a header up to its masks, or with them.
#[derive(Clone, Copy)]
pub(crate) struct Info<'a> {
    pub(crate) head: &'a Head,
    ghost fields: { HasInfo head.now },
}
