//! The header of a page: its magic number, its sides and its sample for white.
ghost use Rattle.std.specs.Prelude.{◌≡◌, ℕ, ◌≤◌, true, false, IfOk, if◌then◌else◌, option_map};
ghost use Rattle.bitmap_input.specs.Inner.Reading.{ReadsFrom, Any, Same, HasMemory, TakesNone, cause_of};
ghost use Rattle.bitmap_input.specs.PageParts.{space};
ghost use Rattle.bitmap_input.specs.GrayRows.{header_end};
ghost use Rattle.bitmap_input.specs.Front.{magic, magic_named, magic_behind, sides, maxval};
ghost use Rattle.bitmap_input.specs.Inner.Header.{magic_of, IsFormat, IsSides, Checks, ChecksMaxval};

use crate::buffer::{Buffer, Look};
use crate::channels::Channels;
use crate::fault::InFault;
use crate::number::{Section, read_number_behind_gap};
use crate::run::is_space;
use crate::sides::Sides;
use crate::stop::Stop;
use pt_core::{Inputs, LONGEST_SIDE};

/// The greatest sample for white.
pub(crate) const GREATEST_MAXVAL: u32 = 65535;

/// The format of a page, as its magic number says.
#[derive(Clone, Copy)]
pub(crate) enum Format {
    /// `P1`, plain PBM.
    PlainBits,
    /// `P4`, raw PBM.
    RawBits,
    /// `P2`, plain PGM, or `P3`, plain PPM.
    PlainSamples(Channels),
    /// `P5`, raw PGM, or `P6`, raw PPM.
    RawSamples(Channels),
    /// `BM`, a BMP picture.
    Picture,
}

/// The answer if there is no known magic number.
fn no_magic(later: bool) -> Stop
    ensures stop { result ≡ (if later then Stop.Trailing else Stop.Fault InFault.UnknownFormat) }
    ensures free { HasMemory (cause_of result) }
{
    if later {
        Stop::Trailing
    } else {
        Stop::Fault(InFault::UnknownFormat)
    }
}

/// The format that two bytes name, if they are a magic number.
fn format_named(first: u8, second: u8) -> Option<Format>
    ensures { magic_named first second ≡ option_map magic_of result }
{
    match (first, second) {
        (b'P', b'1') => Some(Format::PlainBits),
        (b'P', b'2') => Some(Format::PlainSamples(Channels::Gray)),
        (b'P', b'3') => Some(Format::PlainSamples(Channels::Color)),
        (b'P', b'4') => Some(Format::RawBits),
        (b'P', b'5') => Some(Format::RawSamples(Channels::Gray)),
        (b'P', b'6') => Some(Format::RawSamples(Channels::Color)),
        (b'B', b'M') => Some(Format::Picture),
        _ => None,
    }
}

/// Reads the second byte of a magic number.
//
// The second byte is read whatever the first one is, because a file that ends after one byte is cut short. So
// if this read fails, the result is a read fault and not an unknown format.
fn read_magic_behind<I: Inputs>(
    buffer: &mut Buffer,
    inputs: &mut I,
    later: bool,
    first: u8,
) -> Result<Format, Stop>
    requires { I.is_opened inputs.old ≡ true }
    ensures reads { ReadsFrom I.Inputs IsFormat (magic_behind later first) buffer.old inputs.old
        result buffer.new inputs.new }
    ensures free { TakesNone result }
{
    match buffer.look(inputs) {
        Look::Byte(second) => {
            buffer.pass();
            match format_named(first, second) {
                Some(format) => Ok(format),
                None => Err(no_magic(later)),
            }
        }
        Look::End => Err(no_magic(later)),
        Look::Fault => Err(Stop::Fault(InFault::ReadFault)),
    }
}

/// Reads the magic number of a page. `later` says whether this file has had a page already.
pub(crate) fn read_magic<I: Inputs>(
    buffer: &mut Buffer,
    inputs: &mut I,
    later: bool,
) -> Result<Format, Stop>
    requires { I.is_opened inputs.old ≡ true }
    ensures reads { ReadsFrom I.Inputs IsFormat (magic later) buffer.old inputs.old result
        buffer.new inputs.new }
    ensures free { TakesNone result }
{
    match buffer.look(inputs) {
        Look::Byte(first) => {
            buffer.pass();
            read_magic_behind(buffer, inputs, later, first)
        }
        Look::End => {
            if later {
                Err(Stop::End)
            } else {
                Err(Stop::Fault(InFault::UnknownFormat))
            }
        }
        Look::Fault => Err(Stop::Fault(InFault::ReadFault)),
    }
}

/// Skips one byte of whitespace.
fn skip_space<I: Inputs>(buffer: &mut Buffer, inputs: &mut I) -> Result<(), Stop>
    requires { I.is_opened inputs.old ≡ true }
    ensures reads { ReadsFrom I.Inputs Any space buffer.old inputs.old result buffer.new
        inputs.new }
    ensures free { TakesNone result }
{
    match buffer.look(inputs) {
        Look::Byte(byte) => {
            if is_space(byte) {
                buffer.pass();
                Ok(())
            } else {
                Err(Stop::Fault(InFault::BadHeader))
            }
        }
        Look::End => Err(Stop::Fault(InFault::Truncated)),
        Look::Fault => Err(Stop::Fault(InFault::ReadFault)),
    }
}

/// Skips the whitespace byte that ends the header of a raw page.
pub(crate) fn end_header<I: Inputs>(
    buffer: &mut Buffer,
    inputs: &mut I,
    plain: bool,
) -> Result<(), Stop>
    requires { I.is_opened inputs.old ≡ true }
    ensures reads { ReadsFrom I.Inputs Any (header_end plain) buffer.old inputs.old result
        buffer.new inputs.new }
    ensures free { TakesNone result }
{
    if plain {
        Ok(())
    } else {
        skip_space(buffer, inputs)
    }
}

/// The two numbers as the sides of a page, if they are in range.
pub(crate) fn check(width: u32, height: u32) -> Result<Sides, Stop>
    ensures checks { Checks width height result }
    ensures free { TakesNone result }
{
    if width == 0 || height == 0 {
        return Err(Stop::Fault(InFault::ZeroSide));
    }
    if width > LONGEST_SIDE || height > LONGEST_SIDE {
        return Err(Stop::Fault(InFault::TooLarge));
    }
    Ok(Sides { width, height })
}

/// Reads the width and the height, each after a gap.
pub(crate) fn read_sides<I: Inputs>(buffer: &mut Buffer, inputs: &mut I) -> Result<Sides, Stop>
    requires { I.is_opened inputs.old ≡ true }
    ensures reads { ReadsFrom I.Inputs IsSides sides buffer.old inputs.old result buffer.new
        inputs.new }
    ensures free { TakesNone result }
{
    let width = read_number_behind_gap(buffer, inputs, Section::Header)?;
    let height = read_number_behind_gap(buffer, inputs, Section::Header)?;
    check(width, height)
}

/// The number as the sample for white, if it is in range.
fn check_maxval(number: u32) -> Result<u32, Stop>
    ensures checks { ChecksMaxval number result }
    ensures free { TakesNone result }
    ensures range { IfOk result (λ maxval. (1 ≤ maxval) × (maxval ≤ GREATEST_MAXVAL)) }
{
    if number == 0 || number > GREATEST_MAXVAL {
        return Err(Stop::Fault(InFault::BadHeader));
    }
    Ok(number)
}

/// Reads the sample for white, after a gap.
pub(crate) fn read_maxval<I: Inputs>(buffer: &mut Buffer, inputs: &mut I) -> Result<u32, Stop>
    requires { I.is_opened inputs.old ≡ true }
    ensures reads { ReadsFrom I.Inputs Same maxval buffer.old inputs.old result buffer.new
        inputs.new }
    ensures free { TakesNone result }
    ensures range { IfOk result (λ maxval. (1 ≤ maxval) × (maxval ≤ GREATEST_MAXVAL)) }
{
    let maxval = read_number_behind_gap(buffer, inputs, Section::Header)?;
    check_maxval(maxval)
}
