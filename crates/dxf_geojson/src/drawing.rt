//! A page in AutoCAD's drawing interchange format.
ghost use Rattle.std.specs.Prelude.{◌≡◌, ◌≤◌, ◌++◌, drop, flat_map, IfOk, OnOk};
ghost use Rattle.dxf_geojson.specs.DxfText.{all_but_last, dxf_text, polyline_text, vertex_text};

use crate::chords::gather_chords;
use crate::fixed::write_pixels;
use pt_core::{NoMemory, Piece, Point, Sequence, Trace, write_text};
use std::alloc::Global;

/// The document of a page's trace: a closed polyline for each path, in the order of the paths.
///
/// Coordinates are in pixels, rounded to thousandths.
pub fn dxf(alloc: Global, trace: &Trace) -> Result<Vec<u8>, NoMemory>
    ensures { IfOk result (λ text. text.items ≡ dxf_text trace.now) }
{
    let mut out = Vec::new(alloc);
    let mut points = Vec::new(alloc);
    out.extend_from_slice(b"0\nSECTION\n2\nENTITIES\n")?;
    put_polylines(&mut out, &mut points, trace.outlines.as_slice())?;
    out.extend_from_slice(b"0\nENDSEC\n0\nEOF\n")?;
    Ok(out)
}

/// Appends a polyline for each outline. `points` is a buffer for the points of one outline.
fn put_polylines(
    out: &mut Vec<u8>,
    points: &mut Vec<Point>,
    outlines: &[Sequence<Piece>],
) -> Result<(), NoMemory>
    ensures { OnOk result (out.new.items ≡ out.old.items ++ flat_map polyline_text outlines.now) }
{
    for outline in outlines {
        put_polyline(out, points, outline.as_slice())?;
    }
    Ok(())
}

/// Appends the polyline of an outline.
fn put_polyline(
    out: &mut Vec<u8>,
    points: &mut Vec<Point>,
    pieces: &[Piece],
) -> Result<(), NoMemory>
    ensures { OnOk result (out.new.items ≡ out.old.items ++ polyline_text pieces.now) }
{
    gather_chords(points, pieces)?;
    out.extend_from_slice(b"0\nPOLYLINE\n8\n0\n66\n1\n70\n1\n")?;
    put_vertices(out, points)?;
    out.extend_from_slice(b"0\nSEQEND\n")?;
    Ok(())
}

/// Appends a vertex for each point except the last one.
fn put_vertices(out: &mut Vec<u8>, points: &[Point]) -> Result<(), NoMemory>
    ensures { OnOk result (out.new.items ≡ out.old.items
        ++ flat_map vertex_text (all_but_last points.now)) }
{
    let mut text = [0u8; 80];
    if let Some((_last, vertices)) = points.split_last() {
        for vertex in vertices {
            put_vertex(out, &mut text, *vertex)?;
        }
    }
    Ok(())
}

/// Appends a vertex. `text` is a buffer for the text of one vertex.
#[inline(always)]
fn put_vertex(out: &mut Vec<u8>, text: &mut [u8; 80], at: Point) -> Result<(), NoMemory>
    ensures { OnOk result (out.new.items ≡ out.old.items ++ vertex_text at) }
{
    let start = write_vertex(at, text);
    out.extend_from_slice(&text[start..])?;
    Ok(())
}

/// Writes a vertex to the end of the buffer. Returns the index at which its text starts.
#[inline(always)]
fn write_vertex(at: Point, text: &mut [u8; 80]) -> usize
    ensures before { result ≤ 80 }
    ensures written { drop result text.new ≡ vertex_text at }
{
    let start = write_text(b"\n", text, 80);
    let start = write_pixels(at.y, text, start);
    let start = write_text(b"\n20\n", text, start);
    let start = write_pixels(at.x, text, start);
    write_text(b"0\nVERTEX\n8\n0\n10\n", text, start)
}
