//! The pieces of a whole outline.
ghost use Rattle.std.specs.Prelude.{◌≡◌, ◌≤◌, ◌<◌, ◌+◌, ◌%◌, length, IfOk};
ghost use Rattle.std.specs.List.{All};
ghost use Rattle.corner_smooth.specs.Corner.{IsNearWidePage, HasRoundness, StaysNear, pieces_of};

use crate::vertex::piece;
use pt_core::{NoMemory, Piece, Point, Sequence};

/// The smooth outline of a polygon: one piece for each vertex, in order.
///
/// `vertices` are in units of 1/1024 pixel. A vertex that is as sharp as `alphamax`, in millionths, or
/// sharper becomes a corner, and any other a curve: with 0 all are corners, and from 1333334 on none is.
/// The pieces take the place of what stands in `list`, so that one list may serve many outlines.
pub fn smooth(
    mut list: Vec<Piece>,
    vertices: &[Point],
    alphamax: u32,
) -> Result<Sequence<Piece>, NoMemory>
    requires some { 2 ≤ length vertices.now }
    requires near { All IsNearWidePage vertices.now }
    requires alphamax { alphamax ≤ 1000000000 }
    ensures pieces { IfOk result (λ pieces. pieces ≡ pieces_of alphamax vertices.now) }
    ensures one_each { IfOk result (λ pieces. length pieces ≡ length vertices.now) }
    ensures near { IfOk result (λ pieces. All StaysNear pieces) }
    ensures round { IfOk result (λ pieces. All HasRoundness pieces) }
{
    list.clear();
    list.reserve(vertices.len())?;
    let mut before = vertices[vertices.len() - 1];
    for j in 0..vertices.len() {
        let at = vertices[j];
        let after = vertices[next(j, vertices.len())];
        list.push(piece(alphamax, before, at, after))?;
        before = at;
    }
    Ok(Sequence::from_vec(list))
}

/// The number of the vertex after number `j`, of so many: after the last one comes the first.
fn next(j: usize, count: usize) -> usize
    requires { j < count }
    ensures value { result ≡ (j + 1) % count }
    ensures within { result < count }
{
    if j + 1 < count { j + 1 } else { 0 }
}
