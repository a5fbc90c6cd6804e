//! The header of a gray page, and the samples of one row.
ghost use Rattle.std.specs.Prelude.{◌≡◌, ℕ, ◌+◌, ◌*◌, ◌<◌, ◌≤◌, true, false, length, map, min, IfOk};
ghost use Rattle.bitmap_input.specs.Inner.Reading.{ReadsFrom, Same, TakesNone};
ghost use Rattle.bitmap_input.specs.PageParts.{repeated};
ghost use Rattle.bitmap_input.specs.Samples.{samples_in, samples, plain_sample, sample_bytes, raw_samples_row};
ghost use Rattle.bitmap_input.specs.declared.channels.Channels.TheVariants as channels;
ghost use Rattle.bitmap_input.specs.Inner.Header.{magic_of};
ghost use Rattle.bitmap_input.specs.Inner.GrayRows.{ChecksKind};
ghost use Rattle.bitmap_input.specs.GrayRows.{gray_alone, gray_kind, gray_magic, gray_header, lowered};

use crate::buffer::Buffer;
use crate::channels::Channels;
use crate::fault::InFault;
use crate::header::{Format, GREATEST_MAXVAL, end_header, read_magic, read_maxval, read_sides};
use crate::number::{Section, read_number_behind_gap};
use crate::raw::read_block;
use crate::run::{Run, skip};
use crate::samples::{is_wide, sample_at};
use crate::stop::Stop;
use pt_core::{Inputs, LONGEST_SIDE};

/// The header of a gray page.
#[derive(Clone, Copy)]
pub(crate) struct GrayHeader {
    pub(crate) plain: bool,
    pub(crate) width: u32,
    pub(crate) height: u32,
    /// The sample for white.
    pub(crate) maxval: u32,
}

/// Whether a page of samples is plain, if the samples are gray. Pages of colours aren't known here.
fn check_gray(channels: Channels, plain: bool) -> Result<bool, Stop>
    ensures checks { ChecksKind (gray_alone plain channels) result }
    ensures free { TakesNone result }
{
    match channels {
        Channels::Gray => Ok(plain),
        Channels::Color => Err(Stop::Fault(InFault::UnknownFormat)),
    }
}

/// Whether a gray page of this format is plain. Other formats aren't known here.
fn kind_of(format: Format) -> Result<bool, Stop>
    ensures checks { ChecksKind (gray_kind (magic_of format)) result }
    ensures free { TakesNone result }
{
    match format {
        Format::PlainSamples(channels) => check_gray(channels, true),
        Format::RawSamples(channels) => check_gray(channels, false),
        Format::PlainBits | Format::RawBits | Format::Picture => {
            Err(Stop::Fault(InFault::UnknownFormat))
        }
    }
}

/// Reads the magic number of a gray page: whether the page is plain.
fn read_gray_kind<I: Inputs>(buffer: &mut Buffer, inputs: &mut I) -> Result<bool, Stop>
    requires { I.is_opened inputs.old ≡ true }
    ensures reads { ReadsFrom I.Inputs Same gray_magic buffer.old inputs.old result buffer.new
        inputs.new }
    ensures free { TakesNone result }
{
    let format = read_magic(buffer, inputs, false)?;
    kind_of(format)
}

/// Reads the header of a gray page, which is the first page of its file.
pub(crate) fn read_gray_header<I: Inputs>(
    buffer: &mut Buffer,
    inputs: &mut I,
) -> Result<GrayHeader, Stop>
    requires { I.is_opened inputs.old ≡ true }
    ensures reads { ReadsFrom I.Inputs Same gray_header buffer.old inputs.old result buffer.new
        inputs.new }
    ensures free { TakesNone result }
    ensures width { IfOk result (λ h. (1 ≤ h.width) × (h.width ≤ LONGEST_SIDE)) }
    ensures height { IfOk result (λ h. (1 ≤ h.height) × (h.height ≤ LONGEST_SIDE)) }
    ensures maxval { IfOk result (λ h. (1 ≤ h.maxval) × (h.maxval ≤ GREATEST_MAXVAL)) }
{
    skip(buffer, inputs, Run::Space)?;
    let plain = read_gray_kind(buffer, inputs)?;
    let sides = read_sides(buffer, inputs)?;
    let maxval = read_maxval(buffer, inputs)?;
    end_header(buffer, inputs, plain)?;
    Ok(GrayHeader {
        plain,
        width: sides.width,
        height: sides.height,
        maxval,
    })
}

/// Converts a row of bytes to samples.
fn unpack(line: &[u8], wide: bool, row: &mut [u16])
    requires whole { length (samples wide line.now) ≡ length row.old }
    ensures { row.new ≡ samples wide line.now }
{
    for x in 0..row.len() {
        row[x] = sample_at(line, wide, x) as u16;
    }
}

/// Reads one row of a raw gray page. `line` is a buffer for its bytes.
pub(crate) fn read_raw_gray_row<I: Inputs>(
    buffer: &mut Buffer,
    inputs: &mut I,
    maxval: u32,
    line: &mut [u8],
    row: &mut [u16],
) -> Result<(), Stop>
    requires opened { I.is_opened inputs.old ≡ true }
    requires whole { length line.old ≡ sample_bytes maxval (samples_in channels.Gray * length
        row.old) }
    ensures reads { ReadsFrom I.Inputs (λ _ values. row.new ≡ values) (raw_samples_row channels.Gray
        maxval (length row.old)) buffer.old inputs.old result buffer.new inputs.new }
    ensures free { TakesNone result }
    ensures same_room { length row.new ≡ length row.old }
{
    read_block(buffer, inputs, line)?;
    unpack(line, is_wide(maxval), row);
    Ok(())
}

/// Reads one row of a plain gray page. A sample above 65535 is stored as 65535.
pub(crate) fn read_plain_gray_row<I: Inputs>(
    buffer: &mut Buffer,
    inputs: &mut I,
    row: &mut [u16],
) -> Result<(), Stop>
    requires opened { I.is_opened inputs.old ≡ true }
    ensures reads { ReadsFrom I.Inputs (λ _ values. row.new ≡ map lowered values) (repeated
        plain_sample (length row.old)) buffer.old inputs.old result buffer.new inputs.new }
    ensures free { TakesNone result }
    ensures same_room { length row.new ≡ length row.old }
{
    for x in 0..row.len() {
        let sample = read_number_behind_gap(buffer, inputs, Section::Raster)?;
        row[x] = sample.min(GREATEST_MAXVAL) as u16;
    }
    Ok(())
}
