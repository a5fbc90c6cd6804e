//! Decimal numbers in headers and in plain rasters.
ghost use Rattle.std.specs.Prelude.{◌≡◌, ℕ, ◌≤◌, true, false, suc, List, ◌∷◌};
ghost use Rattle.bitmap_input.specs.Inner.Reading.{ReadsFrom, Any, HasMemory, TakesNone};
ghost use Rattle.bitmap_input.specs.Reading.{cause_of_fault};
ghost use Rattle.bitmap_input.specs.Reading.Cause.{Says};
ghost use Rattle.bitmap_input.specs.Cut.FileEnd.{Refused};
ghost use Rattle.bitmap_input.specs.PageParts.{is_digit, some_gap, number_behind_gap};
ghost use Rattle.bitmap_input.specs.Inner.ByteRuns.{digits, IsCapped};
ghost use Rattle.bitmap_input.specs.Inner.Number.{kind_at};

use crate::buffer::{Buffer, Look};
use crate::fault::InFault;
use crate::run::{LONGEST, Run, behind, skip};
use crate::stop::Stop;
use pt_core::Inputs;

/// Numbers that are greater are capped here. A capped number is too large for a side and for the sample for
/// white, and as a sample it is never black.
//
// A run of digits may have a million digits. A gray sample above 65,535 is white at every level. A colour is
// white if one of its samples is above 196,605, three times that. So capping changes no result, and no
// definition mentions it.
pub(crate) const CAP: u32 = 200000;

/// A section of a page in which numbers occur.
#[derive(Clone, Copy)]
pub(crate) enum Section {
    Header,
    Raster,
}

impl Section {
    /// The fault if a byte here isn't a digit or part of a gap.
    fn fault(self) -> InFault
        ensures cause { cause_of_fault result ≡ Says (Refused (kind_at self)) }
        ensures free { HasMemory (cause_of_fault result) }
    {
        match self {
            Section::Header => InFault::BadHeader,
            Section::Raster => InFault::BadRaster,
        }
    }
}

fn is_digit(byte: u8) -> bool
    ensures { result ≡ is_digit byte }
{
    48 <= byte && byte <= 57
}

/// Reads the digits that come next. There may be none.
fn read_digits<I: Inputs>(buffer: &mut Buffer, inputs: &mut I) -> Result<u32, Stop>
    requires { I.is_opened inputs.old ≡ true }
    ensures reads { ReadsFrom I.Inputs IsCapped digits buffer.old inputs.old result buffer.new
        inputs.new }
    ensures free { TakesNone result }
{
    let mut value = 0;
    let mut n = 0;
    while n <= LONGEST {
        match buffer.look(inputs) {
            Look::Byte(byte) => {
                if !is_digit(byte) {
                    return Ok(value);
                }
                value = (10 * value + (byte as u32 - 48)).min(CAP);
            }
            Look::End => return Ok(value),
            Look::Fault => return Err(Stop::Fault(InFault::ReadFault)),
        }
        buffer.pass();
        n += 1;
    }
    Err(Stop::Fault(InFault::TooLong))
}

/// Skips whitespace and comments, of at least one byte.
fn skip_gap<I: Inputs>(buffer: &mut Buffer, inputs: &mut I, section: Section) -> Result<(), Stop>
    requires { I.is_opened inputs.old ≡ true }
    ensures reads { ReadsFrom I.Inputs Any (some_gap (kind_at section)) buffer.old inputs.old result
        buffer.new inputs.new }
    ensures free { TakesNone result }
{
    match buffer.look(inputs) {
        Look::Byte(byte) => match behind(Run::Gap, byte) {
            Some(_) => skip(buffer, inputs, Run::Gap),
            None => Err(Stop::Fault(section.fault())),
        },
        Look::End => Err(Stop::Fault(InFault::Truncated)),
        Look::Fault => Err(Stop::Fault(InFault::ReadFault)),
    }
}

/// Reads a gap and a number, capped at 200,000.
pub(crate) fn read_number_behind_gap<I: Inputs>(
    buffer: &mut Buffer,
    inputs: &mut I,
    section: Section,
) -> Result<u32, Stop>
    requires { I.is_opened inputs.old ≡ true }
    ensures reads { ReadsFrom I.Inputs IsCapped (number_behind_gap (kind_at section)) buffer.old
        inputs.old result buffer.new inputs.new }
    ensures free { TakesNone result }
{
    skip_gap(buffer, inputs, section)?;
    match buffer.look(inputs) {
        Look::Byte(byte) => {
            if is_digit(byte) {
                read_digits(buffer, inputs)
            } else {
                Err(Stop::Fault(section.fault()))
            }
        }
        Look::End => Err(Stop::Fault(InFault::Truncated)),
        Look::Fault => Err(Stop::Fault(InFault::ReadFault)),
    }
}
