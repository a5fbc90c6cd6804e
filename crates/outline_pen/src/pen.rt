//! What a format writes around the numbers of its strokes.
ghost use Rattle.std.specs.Prelude.{◌≡◌, ◌+◌, ◌≤◌, ◌++◌, ℕ, List, OnOk, length, drop};

use pt_core::{NoMemory, write_text};

/// A position in a drawing at which a format writes text that isn't a number.
#[derive(Clone, Copy, Debug)]
pub enum Mark {
    /// Before a shape.
    Shape,
    /// Before each outline of a shape except the first one.
    Next,
    /// Before the point at which an outline begins.
    Start,
    /// After the point at which an outline begins.
    Started,
    /// Before the step of a line.
    Line,
    /// After the step of a line.
    Lined,
    /// Before the steps of a curve.
    Curve,
    /// After the steps of a curve.
    Curved,
    /// After the last piece of an outline.
    Closed,
    /// After a shape.
    Shaped,
}

/// A format's way to draw.
pub trait Pen {
    ghost use Rattle.outline_pen.specs.declared.pen.Mark.{Mark};

    /// The text at each mark.
    ghost mark_text: { Mark → List ℕ };

    /// The text that the format writes at a mark, at most 32 bytes.
    fn text_at(mark: Mark) -> &'static [u8]
        ensures value { result.now ≡ mark_text mark }
        ensures short { length (mark_text mark) ≤ 32 };
}

/// Appends the text of a mark.
#[inline(always)]
pub(crate) fn put_mark<P: Pen>(out: &mut Vec<u8>, mark: Mark) -> Result<(), NoMemory>
    ensures { OnOk result (out.new.items ≡ out.old.items ++ P.mark_text mark) }
{
    out.extend_from_slice(P::text_at(mark))?;
    Ok(())
}

/// Writes the text of a mark into the buffer, so that it ends at index `end`. Returns the index at which it starts.
#[inline(always)]
pub(crate) fn write_mark<P: Pen>(mark: Mark, text: &mut [u8], end: usize) -> usize
    requires room { 32 ≤ end }
    requires within { end ≤ length text.old }
    ensures start { end ≤ result + 32 }
    ensures before { result ≤ end }
    ensures written { drop result text.new ≡ P.mark_text mark ++ drop end text.old }
{
    write_text(P::text_at(mark), text, end)
}
