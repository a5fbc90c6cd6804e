//! The outlines of paths that are known, moved for their copies.
ghost use Rattle.std.specs.Prelude.{◌≡◌, ◌<◌, ◌-ℤ◌, [], IfOk, IfSome, length, map};
ghost use Rattle.outline_copies.specs.Moved.{in_units, moved_by, piece_moved_by};
ghost use Rattle.page_trace.specs.Inner.KnownOutlines.{AreOfKnown};

use path_copies::{Key, KnownPaths};
use pt_core::{NoMemory, Path, Piece, Point, Sequence, Settings};
use std::alloc::Global;

/// What is to be kept of the outlines along some paths. None is kept where cyclic polygons are asked for.
pub(crate) fn known_for(
    alloc: Global,
    paths: &[Path],
    settings: &Settings,
) -> Result<KnownPaths<Sequence<Piece>>, NoMemory>
    ensures { IfOk result (λ known. known ≡ []) }
{
    if settings.cyclic {
        return Ok(KnownPaths::none(alloc));
    }
    KnownPaths::new(alloc, paths.len())
}

/// The pieces that go along a path with this key, if a path is known that it is a copy of.
pub(crate) fn taken(
    alloc: Global,
    known: &KnownPaths<Sequence<Piece>>,
    key: Key,
    points: &[Point],
) -> Result<Option<Sequence<Piece>>, NoMemory>
    requires some { 0 < length points.now }
    ensures { IfOk result (λ found. IfSome found (AreOfKnown known.now points.now)) }
{
    let Some(path) = known.find(key, points) else {
        return Ok(None);
    };
    let start = path.points.as_slice();
    let Some(by) = way_between(start[0], points[0]) else {
        return Ok(None);
    };
    moved_pieces(alloc, path.found.as_slice(), by)
}

/// How far an outline is moved, in units of 1/1024 pixel.
#[derive(Clone, Copy)]
struct Way {
    right: i32,
    up: i32,
}

/// How far it is from one point of a path to another, if that can be told.
fn way_between(from: Point, to: Point) -> Option<Way>
    ensures right { IfSome result (λ by. by.right ≡ in_units (to.x -ℤ from.x)) }
    ensures up { IfSome result (λ by. by.up ≡ in_units (to.y -ℤ from.y)) }
{
    let right = to.x.checked_sub(from.x)?.checked_mul(1024)?;
    let up = to.y.checked_sub(from.y)?.checked_mul(1024)?;
    Some(Way { right, up })
}

/// The pieces, moved so far, if their places can be told.
fn moved_pieces(
    alloc: Global,
    pieces: &[Piece],
    by: Way,
) -> Result<Option<Sequence<Piece>>, NoMemory>
    ensures { IfOk result (λ found. IfSome found (λ moved. moved ≡ map (piece_moved_by by.right by.up) pieces.now)) }
{
    let mut list = Vec::with_capacity(alloc, pieces.len())?;
    for piece in pieces {
        let Some(moved) = moved_piece(*piece, by) else {
            return Ok(None);
        };
        list.push(moved)?;
    }
    Ok(Some(Sequence::from_vec(list)))
}

/// The piece, moved so far, if its places can be told.
fn moved_piece(piece: Piece, by: Way) -> Option<Piece>
    ensures { IfSome result (λ moved. moved ≡ piece_moved_by by.right by.up piece) }
{
    match piece {
        Piece::Corner { at, end } => {
            let at = moved_place(at, by)?;
            let end = moved_place(end, by)?;
            Some(Piece::Corner { at, end })
        }
        Piece::Curve {
            first,
            second,
            end,
            al,
        } => {
            let first = moved_place(first, by)?;
            let second = moved_place(second, by)?;
            let end = moved_place(end, by)?;
            Some(Piece::Curve {
                first,
                second,
                end,
                al,
            })
        }
    }
}

/// The place, moved so far, if it can be told.
fn moved_place(place: Point, by: Way) -> Option<Point>
    ensures { IfSome result (λ moved. moved ≡ moved_by by.right by.up place) }
{
    let x = place.x.checked_add(by.right)?;
    let y = place.y.checked_add(by.up)?;
    Some(Point { x, y })
}
