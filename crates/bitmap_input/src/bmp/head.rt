//! The first bytes of a BMP picture, after its magic number.
ghost use Rattle.std.specs.Prelude.{◌≡◌, ℕ, ◌+◌, ◌-◌, ◌<◌, ◌≤◌, true, false, length, take, [], ◌++◌, OnOk};
ghost use Rattle.bitmap_input.specs.Inner.Reading.{ReadsFrom};
ghost use Rattle.bitmap_input.specs.PageParts.{block};
ghost use Rattle.bitmap_input.specs.BmpHeader.{two_at, four_at};

use crate::buffer::Buffer;
use crate::raw::read_block;
use crate::stop::Stop;
use pt_core::Inputs;
use std::marker::Model;

/// The greatest number of bytes of a header after its magic number.
const ROOM: usize = 136;

/// The bytes of a header that have been read. Offsets are counted from the first byte of the magic number.
#[derive(Drop)]
pub(crate) struct Head {
    bytes: [u8; ROOM],
    len: usize,
}

impl Model for Head {
    ghost use Rattle.std.specs.Prelude.{ℕ, List, ◌≤◌, take};

    ghost Value = { List ℕ };

    ghost view = { λ h. take h.len h.bytes };

    ghost invariant = { λ h. h.len ≤ 136 };
}

/// Fills the bytes between two indices.
fn read_into<I: Inputs>(
    buffer: &mut Buffer,
    inputs: &mut I,
    bytes: &mut [u8],
    from: usize,
    to: usize,
) -> Result<(), Stop>
    requires opened { I.is_opened inputs.old ≡ true }
    requires order { from ≤ to }
    requires within { to ≤ length bytes.old }
    ensures reads { ReadsFrom I.Inputs (λ _ more. take to bytes.new ≡ take from bytes.old ++ more)
        (block (to - from)) buffer.old inputs.old result buffer.new inputs.new }
    ensures same_room { length bytes.new ≡ length bytes.old }
{
    read_block(buffer, inputs, &mut bytes[from..to])
}

impl Head {
    /// An empty header.
    pub(crate) fn new() -> Head
        ensures { result ≡ [] }
    {
        Head {
            bytes: [0; ROOM],
            len: 0,
        }
    }

    /// Reads n more bytes.
    pub(crate) fn read<I: Inputs>(
        &mut self,
        buffer: &mut Buffer,
        inputs: &mut I,
        n: usize,
    ) -> Result<(), Stop>
        requires opened { I.is_opened inputs.old ≡ true }
        requires room { length self.old + n ≤ 136 }
        ensures reads { ReadsFrom I.Inputs (λ _ more. self.new ≡ self.old ++ more) (block n)
            buffer.old inputs.old result buffer.new inputs.new }
        ensures reach { OnOk result (length self.new ≡ length self.old + n) }
    {
        let end = self.len + n;
        read_into(buffer, inputs, &mut self.bytes, self.len, end)?;
        self.len = end;
        Ok(())
    }

    /// The number in the two bytes at this offset.
    pub(crate) fn two_at(&self, place: usize) -> u32
        requires behind_magic { 2 ≤ place }
        requires within { place ≤ length self.now }
        ensures value { result ≡ two_at self.now place }
        ensures most { result < 65536 }
    {
        self.bytes[place - 2] as u32 + 256 * self.bytes[place - 1] as u32
    }

    /// The number in the four bytes at this offset.
    #[tactic(auto, unfolding(crate::specs::BmpHeader::four_at))]
    pub(crate) fn four_at(&self, place: usize) -> u32
        requires behind_magic { 2 ≤ place }
        requires within { place + 2 ≤ length self.now }
        ensures { result ≡ four_at self.now place }
    {
        let _len = &self.len;
        self.two_at(place) + 65536 * self.two_at(place + 2)
    }
}
