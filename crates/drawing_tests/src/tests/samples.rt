//! Outlines and traces that were made by hand.
ghost use Rattle.std.specs.Prelude.{◌≡◌, All, IfOk, length};
ghost use Rattle.corner_smooth.specs.Corner.{IsNearWidePage};

use pt_core::{Backend, Group, Piece, Point, Policy, Sequence, Settings, Trace};
use std::alloc::Global;
use std::test::Fail;

/// The coordinates of a point.
pub(super) type Place = (i32, i32);

/// A piece: a curve's two control points, its end and its roundness. A corner has its vertex twice, its end, and 0.
pub(super) type Row = (Place, Place, Place, u32);

/// A square around a pixel at the lower left corner of the page.
pub(super) const PIXEL: &[Row] = &[
    ((0, 1024), (0, 1024), (0, 512), 0),
    ((0, 0), (0, 0), (512, 0), 0),
    ((1024, 0), (1024, 0), (1024, 512), 0),
    ((1024, 1024), (1024, 1024), (512, 1024), 0),
];

/// A square around nine pixels at the lower left corner of the page.
pub(super) const NINE: &[Row] = &[
    ((0, 3072), (0, 3072), (0, 1536), 0),
    ((0, 0), (0, 0), (1536, 0), 0),
    ((3072, 0), (3072, 0), (3072, 1536), 0),
    ((3072, 3072), (3072, 3072), (1536, 3072), 0),
];

/// A square around the middle one of these nine pixels.
pub(super) const MIDDLE: &[Row] = &[
    ((1024, 2048), (1024, 2048), (1024, 1536), 0),
    ((1024, 1024), (1024, 1024), (1536, 1024), 0),
    ((2048, 1024), (2048, 1024), (2048, 1536), 0),
    ((2048, 2048), (2048, 2048), (1536, 2048), 0),
];

/// An outline of one curve.
pub(super) const CURVE: &[Row] = &[((1, 300), (-300, 5), (-103, 2048), 40000)];

pub(super) fn at(x: i32, y: i32) -> Point
    ensures x { result.x ≡ x }
    ensures y { result.y ≡ y }
{
    Point { x, y }
}

/// Points with these coordinates. No point is farther away than the widest page reaches.
pub(super) fn points_at(alloc: Global, places: &[Place]) -> Result<Vec<Point>, Fail>
    ensures near { IfOk result (λ points. All IsNearWidePage points.items) }
    ensures one_each { IfOk result (λ points. length points.items ≡ length places.now) }
{
    let mut points = Vec::with_capacity(alloc, places.len())?;
    for (x, y) in places {
        points.push(near(*x, *y))?;
    }
    Ok(points)
}

fn near(x: i32, y: i32) -> Point
    ensures { IsNearWidePage result }
{
    Point {
        x: x.max(-512).min(33_553_920),
        y: y.max(-512).min(33_553_920),
    }
}

/// The pieces of these rows.
pub(super) fn pieces(alloc: Global, rows: &[Row]) -> Result<Vec<Piece>, Fail> {
    let mut pieces = Vec::new(alloc);
    for row in rows {
        pieces.push(piece(*row))?;
    }
    Ok(pieces)
}

fn piece(row: Row) -> Piece {
    let (first, second, end, al) = row;
    let end = at(end.0, end.1);
    let first = at(first.0, first.1);
    if al == 0 {
        return Piece::Corner { at: first, end };
    }
    let second = at(second.0, second.1);
    Piece::Curve {
        first,
        second,
        end,
        al,
    }
}

/// A trace with these outlines on a page with these sides, with its shapes and their holes.
pub(super) fn trace_of(
    alloc: Global,
    sides: (u32, u32),
    outlines: &[&[Row]],
    shapes: &[(u32, &[u32])],
) -> Result<Trace, Fail> {
    let outlines = outlines_of(alloc, outlines)?;
    let groups = groups_of(alloc, shapes)?;
    Ok(Trace {
        width: sides.0,
        height: sides.1,
        paths: Sequence::from_vec(Vec::new(alloc)),
        polygons: Sequence::from_vec(Vec::new(alloc)),
        vertices: Sequence::from_vec(Vec::new(alloc)),
        outlines: Sequence::from_vec(outlines),
        groups: Sequence::from_vec(groups),
    })
}

fn outlines_of(alloc: Global, outlines: &[&[Row]]) -> Result<Vec<Sequence<Piece>>, Fail> {
    let mut all = Vec::new(alloc);
    for outline in outlines {
        all.push(Sequence::from_vec(pieces(alloc, outline)?))?;
    }
    Ok(all)
}

fn groups_of(alloc: Global, shapes: &[(u32, &[u32])]) -> Result<Vec<Group>, Fail> {
    let mut groups = Vec::new(alloc);
    for (outer, holes) in shapes {
        groups.push(Group {
            outer: *outer,
            holes: Sequence::from_vec(Vec::from_slice(alloc, holes)?),
        })?;
    }
    Ok(groups)
}

/// Settings with ten units per pixel.
pub(super) fn settings(flat: bool) -> Settings
    ensures { result.unit ≡ 10 }
{
    Settings {
        backend: Backend::Svg,
        policy: Policy::Left,
        turd: 0,
        cyclic: false,
        alphamax: 1_000_000,
        long_curve: true,
        tolerance: 200_000,
        unit: 10,
        flat,
        level: 500_000,
        invert: false,
    }
}
