//! The strokes of an outline.
ghost use Rattle.std.specs.Prelude.{◌≡◌, ◌+◌, ◌≤◌, ◌++◌, length, drop, OnOk};
ghost use Rattle.outline_pen.specs.Shapes.{curve_text, line_text, outline_text, piece_text, pieces_text, start_text};

use crate::pen::{Mark, Pen, put_mark, write_mark};
use pt_core::{NoMemory, Piece, Point, end_of, put_place, start_of, write_step, write_text};

/// Appends an outline as a closed subpath.
pub(crate) fn put_outline<P: Pen>(
    out: &mut Vec<u8>,
    unit: u32,
    pieces: &[Piece],
) -> Result<(), NoMemory>
    requires some { 1 ≤ unit }
    requires most { unit ≤ 1000 }
    ensures { OnOk result (out.new.items ≡ out.old.items
        ++ outline_text P.mark_text unit pieces.now) }
{
    let start = start_of(pieces);
    put_start::<P>(out, unit, start)?;
    put_pieces::<P>(out, unit, start, pieces)?;
    put_mark::<P>(out, Mark::Closed)?;
    Ok(())
}

/// Appends the beginning of an outline.
fn put_start<P: Pen>(out: &mut Vec<u8>, unit: u32, at: Point) -> Result<(), NoMemory>
    requires some { 1 ≤ unit }
    requires most { unit ≤ 1000 }
    ensures { OnOk result (out.new.items ≡ out.old.items ++ start_text P.mark_text unit at) }
{
    put_mark::<P>(out, Mark::Start)?;
    put_place(out, unit, at)?;
    put_mark::<P>(out, Mark::Started)?;
    Ok(())
}

/// Appends the pieces. The first one begins at `start`.
fn put_pieces<P: Pen>(
    out: &mut Vec<u8>,
    unit: u32,
    start: Point,
    pieces: &[Piece],
) -> Result<(), NoMemory>
    requires some { 1 ≤ unit }
    requires most { unit ≤ 1000 }
    ensures { OnOk result (out.new.items ≡ out.old.items
        ++ pieces_text P.mark_text unit start pieces.now) }
{
    let mut text = [0u8; 256];
    let mut from = start;
    for piece in pieces {
        put_piece::<P>(out, &mut text, unit, from, *piece)?;
        from = end_of(*piece);
    }
    Ok(())
}

/// Appends a piece that begins at `from`. `text` is a buffer for the text of one piece.
fn put_piece<P: Pen>(
    out: &mut Vec<u8>,
    text: &mut [u8; 256],
    unit: u32,
    from: Point,
    piece: Piece,
) -> Result<(), NoMemory>
    requires some { 1 ≤ unit }
    requires most { unit ≤ 1000 }
    ensures { OnOk result (out.new.items ≡ out.old.items ++ piece_text P.mark_text unit from piece) }
{
    let start = write_piece::<P>(unit, from, piece, text);
    out.extend_from_slice(&text[start..])?;
    Ok(())
}

/// Writes a piece that begins at `from` to the end of the buffer. Returns the index at which its text starts.
#[inline(always)]
fn write_piece<P: Pen>(unit: u32, from: Point, piece: Piece, text: &mut [u8; 256]) -> usize
    requires some { 1 ≤ unit }
    requires most { unit ≤ 1000 }
    ensures before { result ≤ 256 }
    ensures written { drop result text.new ≡ piece_text P.mark_text unit from piece }
{
    match piece {
        Piece::Corner { at, end } => {
            let start = write_line::<P>(unit, at, end, text, 256);
            write_line::<P>(unit, from, at, text, start)
        }
        Piece::Curve {
            first,
            second,
            end,
            ..
        } => write_curve::<P>(unit, from, first, second, end, text),
    }
}

/// Writes a line from one point to another into the buffer, so that it ends at index `end`. Returns the index at which
/// its text starts.
#[inline(always)]
fn write_line<P: Pen>(unit: u32, from: Point, to: Point, text: &mut [u8], end: usize) -> usize
    requires some { 1 ≤ unit }
    requires most { unit ≤ 1000 }
    requires room { 107 ≤ end }
    requires within { end ≤ length text.old }
    ensures start { end ≤ result + 107 }
    ensures before { result ≤ end }
    ensures written { drop result text.new ≡ line_text P.mark_text unit from to ++ drop end text.old }
{
    let start = write_mark::<P>(Mark::Lined, text, end);
    let start = write_step(unit, from, to, text, start);
    write_mark::<P>(Mark::Line, text, start)
}

/// Writes a curve that begins at `from` to the end of the buffer. Returns the index at which its text starts.
#[inline(always)]
fn write_curve<P: Pen>(
    unit: u32,
    from: Point,
    first: Point,
    second: Point,
    end: Point,
    text: &mut [u8; 256],
) -> usize
    requires some { 1 ≤ unit }
    requires most { unit ≤ 1000 }
    ensures before { result ≤ 256 }
    ensures written { drop result text.new
        ≡ curve_text P.mark_text unit from first second end }
{
    let start = write_mark::<P>(Mark::Curved, text, 256);
    let start = write_step(unit, from, end, text, start);
    let start = write_text(b" ", text, start);
    let start = write_step(unit, from, second, text, start);
    let start = write_text(b" ", text, start);
    let start = write_step(unit, from, first, text, start);
    write_mark::<P>(Mark::Curve, text, start)
}
