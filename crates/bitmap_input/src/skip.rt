//! Skipping bytes.
ghost use Rattle.std.specs.Prelude.{◌≡◌, true};
ghost use Rattle.bitmap_input.specs.Inner.Reading.{ReadsFrom, Any, Same};
ghost use Rattle.bitmap_input.specs.PageParts.{block};
ghost use Rattle.bitmap_input.specs.Inner.Skip.{passed_over};

use crate::buffer::{Buffer, Look};
use crate::fault::InFault;
use crate::stop::Stop;
use pt_core::Inputs;

/// Skips n bytes, or all bytes if the file ends before that, and returns how many were missing.
///
/// No memory is allocated for them.
pub(crate) fn pass_over<I: Inputs>(buffer: &mut Buffer, inputs: &mut I, n: u32) -> Result<u32, Stop>
    requires { I.is_opened inputs.old ≡ true }
    ensures reads { ReadsFrom I.Inputs Same (passed_over n) buffer.old inputs.old result buffer.new
        inputs.new }
{
    let mut left = n;
    while left > 0 {
        match buffer.look(inputs) {
            Look::Byte(_) => left -= buffer.pass_some(left),
            Look::End => return Ok(left),
            Look::Fault => return Err(Stop::Fault(InFault::ReadFault)),
        }
    }
    Ok(0)
}

/// Skips n bytes. If the file ends before that, the page is truncated.
pub(crate) fn skip_block<I: Inputs>(buffer: &mut Buffer, inputs: &mut I, n: u32) -> Result<(), Stop>
    requires { I.is_opened inputs.old ≡ true }
    ensures reads { ReadsFrom I.Inputs Any (block n) buffer.old inputs.old result buffer.new
        inputs.new }
{
    let missing = pass_over(buffer, inputs, n)?;
    if missing == 0 {
        Ok(())
    } else {
        Err(Stop::Fault(InFault::Truncated))
    }
}
