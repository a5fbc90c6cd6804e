//! The header of a BMP picture, read and checked step by step.
ghost use Rattle.std.specs.Prelude.{◌≡◌, ℕ, ◌+◌, ◌≤◌, true, false, length, [], OnOk, IfOk};
ghost use Rattle.bitmap_input.specs.Inner.Reading.{ReadsFrom};
ghost use Rattle.bitmap_input.specs.BmpHeader.{header_size, bits, mask_bytes, has_known_masks, has_known_colors};
ghost use Rattle.bitmap_input.specs.Bmp.{start, info, masks, placed, header};
ghost use Rattle.bitmap_input.specs.Inner.BmpHead.{IsHeaderStart, IsInfo, IsWholeHeader, IsHeader, Passes, bits_in};

use crate::bmp::fields::{
    Depth, color_bytes, has_known_colors, height, is_known_size, is_top_down, mask_bytes,
    palette_end, palette_length, pixel_depth, width,
};
use crate::bmp::head::Head;
use crate::bmp::info::Info;
use crate::bmp::layout::Header;
use crate::buffer::Buffer;
use crate::fault::InFault;
use crate::header::check;
use crate::number::CAP;
use crate::stop::Stop;
use pt_core::Inputs;

/// Reads the header up to its size, and checks the size.
fn read_start<I: Inputs>(buffer: &mut Buffer, inputs: &mut I, head: &mut Head) -> Result<(), Stop>
    requires opened { I.is_opened inputs.old ≡ true }
    requires none { head.old ≡ [] }
    ensures reads { ReadsFrom I.Inputs (λ _ bytes. bytes ≡ head.new) start buffer.old inputs.old
        result buffer.new inputs.new }
    ensures begun { OnOk result (IsHeaderStart head.new) }
{
    head.read(buffer, inputs, 16)?;
    if is_known_size(head.four_at(14)) {
        Ok(())
    } else {
        Err(Stop::Fault(InFault::BmpKind))
    }
}

/// Reads the rest of the header, and checks the kind of the pixels.
fn read_info<I: Inputs>(buffer: &mut Buffer, inputs: &mut I, head: &mut Head) -> Result<Depth, Stop>
    requires opened { I.is_opened inputs.old ≡ true }
    requires begun { IsHeaderStart head.old }
    ensures reads { ReadsFrom I.Inputs (λ _ bytes. bytes ≡ head.new) (info head.old) buffer.old
        inputs.old result buffer.new inputs.new }
    ensures begun { OnOk result (IsInfo head.new) }
    ensures depth { IfOk result (λ d. bits head.new ≡ bits_in d) }
{
    let size = head.four_at(14) as usize;
    head.read(buffer, inputs, size - 4)?;
    let info = Info { head };
    match pixel_depth(&info) {
        Some(depth) => Ok(depth),
        None => Err(Stop::Fault(InFault::BmpKind)),
    }
}

/// Reads the masks that follow the header, if there are any, and checks the colours.
fn read_masks<I: Inputs>(
    buffer: &mut Buffer,
    inputs: &mut I,
    head: &mut Head,
    depth: Depth,
) -> Result<(), Stop>
    requires opened { I.is_opened inputs.old ≡ true }
    requires begun { IsInfo head.old }
    requires kind { bits head.old ≡ bits_in depth }
    ensures reads { ReadsFrom I.Inputs (λ _ bytes. bytes ≡ head.new) (masks head.old) buffer.old
        inputs.old result buffer.new inputs.new }
    ensures whole { OnOk result (IsWholeHeader head.new) }
    ensures kind { OnOk result (bits head.new ≡ bits_in depth) }
    ensures colors { OnOk result (has_known_colors head.new ≡ true) }
{
    let info = Info { head };
    let n = mask_bytes(&info) as usize;
    head.read(buffer, inputs, n)?;
    let whole = Info { head };
    if has_known_colors(&whole, depth) {
        Ok(())
    } else {
        Err(Stop::Fault(InFault::BmpKind))
    }
}

/// The description of a picture, if its sides are in range and its pixels begin after its palette.
fn describe(info: &Info, depth: Depth) -> Result<Header, Stop>
    requires kind { bits info.now.head.now ≡ bits_in depth }
    requires colors { has_known_colors info.now.head.now ≡ true }
    ensures passes { Passes IsHeader (placed info.now.head.now) result }
{
    let sides = check(width(info).min(CAP), height(info).min(CAP))?;
    let palette_end = palette_end(info, depth);
    let pixel_offset = info.head.four_at(10);
    if pixel_offset < palette_end {
        return Err(Stop::Fault(InFault::BadOffset));
    }
    Ok(Header {
        sides,
        top_down: is_top_down(info),
        depth,
        color_bytes: color_bytes(info),
        palette_length: palette_length(info, depth),
        before_pixels: pixel_offset - palette_end,
        pixel_offset,
        file_size: info.head.four_at(2),
    })
}

/// Reads the header and its masks.
pub(crate) fn read_header<I: Inputs>(buffer: &mut Buffer, inputs: &mut I) -> Result<Header, Stop>
    requires { I.is_opened inputs.old ≡ true }
    ensures reads { ReadsFrom I.Inputs IsHeader header buffer.old inputs.old result buffer.new
        inputs.new }
{
    let mut head = Head::new();
    read_start(buffer, inputs, &mut head)?;
    let depth = read_info(buffer, inputs, &mut head)?;
    read_masks(buffer, inputs, &mut head, depth)?;
    let info = Info { head: &head };
    describe(&info, depth)
}
