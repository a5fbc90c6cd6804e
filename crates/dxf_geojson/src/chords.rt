//! The points of an outline with its curves replaced by chords.
ghost use Rattle.std.specs.Prelude.{◌≡◌, ◌+◌, ◌++◌, IfOk, OnOk};
ghost use Rattle.dxf_geojson.specs.Chords.{chord_points, curve_points, piece_points, points_from};

use crate::mean::mean_point;
use pt_core::{NoMemory, Piece, Point, end_of, start_of};

/// Fills `points` with the points of an outline: its start, and then the ends of its lines and chords. The last point
/// is the start again.
pub(crate) fn gather_chords(points: &mut Vec<Point>, pieces: &[Piece]) -> Result<(), NoMemory>
    ensures { IfOk result (λ _. points.new.items ≡ chord_points pieces.now) }
{
    let start = start_of(pieces);
    points.clear();
    points.push(start)?;
    add_points(points, start, pieces)?;
    Ok(())
}

/// Appends the points of pieces. The first piece begins at `start`.
fn add_points(points: &mut Vec<Point>, start: Point, pieces: &[Piece]) -> Result<(), NoMemory>
    ensures { OnOk result (points.new.items ≡ points.old.items ++ points_from start pieces.now) }
{
    let mut from = start;
    for piece in pieces {
        add_piece(points, from, *piece)?;
        from = end_of(*piece);
    }
    Ok(())
}

/// Appends the points of a piece that begins at `from`.
fn add_piece(points: &mut Vec<Point>, from: Point, piece: Piece) -> Result<(), NoMemory>
    ensures { OnOk result (points.new.items ≡ points.old.items ++ piece_points from piece) }
{
    match piece {
        Piece::Corner { at, end } => points.extend_from_slice(&[at, end])?,
        Piece::Curve {
            first,
            second,
            end,
            ..
        } => points.extend_from_slice(&eighths(from, first, second, end))?,
    }
    Ok(())
}

/// The points of a curve at 1/8, 2/8 .. 8/8 of its parameter; the last one is its end.
fn eighths(start: Point, first: Point, second: Point, end: Point) -> [Point; 8]
    ensures { result ≡ curve_points start first second end }
{
    [
        mean_point(343, 147, 21, 1, start, first, second, end),
        mean_point(216, 216, 72, 8, start, first, second, end),
        mean_point(125, 225, 135, 27, start, first, second, end),
        mean_point(64, 192, 192, 64, start, first, second, end),
        mean_point(27, 135, 225, 125, start, first, second, end),
        mean_point(8, 72, 216, 216, start, first, second, end),
        mean_point(1, 21, 147, 343, start, first, second, end),
        mean_point(0, 0, 0, 512, start, first, second, end),
    ]
}
