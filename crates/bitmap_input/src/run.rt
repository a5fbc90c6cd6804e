//! Runs of whitespace and of comments.
ghost use Rattle.std.specs.Prelude.{◌≡◌, ℕ, true, false, suc, List, ◌∷◌, MatchOption, IsTrue, ◌↔◌};
ghost use Rattle.bitmap_input.specs.Inner.Reading.{ReadsFrom, Any, TakesNone};
ghost use Rattle.bitmap_input.specs.PageParts.{is_space};
ghost use Rattle.bitmap_input.specs.Inner.ByteRuns.{run_size, run_part, Continues};

use crate::buffer::{Buffer, Look};
use crate::fault::InFault;
use crate::stop::Stop;
use pt_core::Inputs;

/// The greatest number of bytes of a gap, and of a run of digits.
pub(crate) const LONGEST: u32 = 1048576;

/// A run of bytes, by what may come next in it.
#[derive(Clone, Copy)]
pub(crate) enum Run {
    /// Only whitespace.
    Space,
    /// Whitespace and comments. The next byte is outside a comment.
    Gap,
    /// Whitespace and comments. The next byte is inside a comment.
    Comment,
}

pub(crate) fn is_space(byte: u8) -> bool
    ensures { result ≡ is_space byte }
{
    (9 <= byte && byte <= 13) || byte == 32
}

/// The run after this byte, or none if the run ends before the byte.
pub(crate) fn behind(run: Run, byte: u8) -> Option<Run>
    ensures { Continues run byte result }
{
    match run {
        Run::Space => {
            if is_space(byte) {
                Some(Run::Space)
            } else {
                None
            }
        }
        Run::Gap => {
            if byte == b'#' {
                Some(Run::Comment)
            } else if is_space(byte) {
                Some(Run::Gap)
            } else {
                None
            }
        }
        Run::Comment => {
            if byte == b'\n' || byte == b'\r' {
                Some(Run::Gap)
            } else {
                Some(Run::Comment)
            }
        }
    }
}

/// Skips a run, which may be empty.
pub(crate) fn skip<I: Inputs>(buffer: &mut Buffer, inputs: &mut I, run: Run) -> Result<(), Stop>
    requires { I.is_opened inputs.old ≡ true }
    ensures reads { ReadsFrom I.Inputs Any (run_part run) buffer.old inputs.old result buffer.new
        inputs.new }
    ensures free { TakesNone result }
{
    let mut run = run;
    let mut n = 0;
    while n <= LONGEST {
        match buffer.look(inputs) {
            Look::Byte(byte) => match behind(run, byte) {
                Some(next) => run = next,
                None => return Ok(()),
            },
            Look::End => return Ok(()),
            Look::Fault => return Err(Stop::Fault(InFault::ReadFault)),
        }
        buffer.pass();
        n += 1;
    }
    Err(Stop::Fault(InFault::TooLong))
}
