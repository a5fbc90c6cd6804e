//! A page as a collection of GeoJSON features.
ghost use Rattle.std.specs.Prelude.{◌≡◌, ◌≤◌, ◌++◌, codes, drop, flat_map, IfOk, OnOk};
ghost use Rattle.std.specs.List.{join_by};
ghost use Rattle.pt_core.specs.Outlines.{outline_at};
ghost use Rattle.dxf_geojson.specs.GeoJsonText.{feature_text, features_text, geojson_text, hole_text, position_text, ring_text};

use crate::chords::gather_chords;
use crate::fixed::write_pixels;
use pt_core::{Group, NoMemory, Piece, Point, Sequence, Trace, pieces_at, write_text};
use std::alloc::Global;

/// The document of a page's trace: a polygon for each shape. The polygon's first ring is the shape's outline, and its
/// other rings are the holes in reverse direction. If there are no shapes, the document is the two lines of an empty
/// collection.
///
/// Coordinates are in pixels, rounded to thousandths. A group's path without an outline in the trace is written as an
/// outline of no pieces.
pub fn geojson(alloc: Global, trace: &Trace) -> Result<Vec<u8>, NoMemory>
    ensures { IfOk result (λ text. text.items ≡ geojson_text trace.now) }
{
    let mut lines = Lines {
        out: Vec::new(alloc),
        points: Vec::new(alloc),
    };
    lines
        .out
        .extend_from_slice(b"{\"type\":\"FeatureCollection\",\"features\":[\n")?;
    lines.put_features(trace.outlines.as_slice(), trace.groups.as_slice())?;
    lines.out.extend_from_slice(b"]}\n")?;
    Ok(lines.out)
}

/// The part of a document that is written already.
#[derive(Drop)]
struct Lines {
    out: Vec<u8>,
    /// A buffer for the points of a ring.
    points: Vec<Point>,
}

impl Lines {
    /// Appends a line for each shape.
    fn put_features(
        &mut self,
        outlines: &[Sequence<Piece>],
        groups: &[Group],
    ) -> Result<(), NoMemory>
        ensures { OnOk result (self.new.out.items ≡ self.old.out.items ++ features_text outlines.now groups.now) }
    {
        if let Some((first, more)) = groups.split_first() {
            self.put_feature(outlines, first)?;
            self.put_more(outlines, more)?;
            self.out.extend_from_slice(b"\n")?;
        }
        Ok(())
    }

    /// Appends shapes, each on a new line after a comma.
    fn put_more(&mut self, outlines: &[Sequence<Piece>], groups: &[Group]) -> Result<(), NoMemory>
        ensures { OnOk result (self.new.out.items
            ≡ self.old.out.items ++ flat_map (λ group. codes ",\n"
            ++ feature_text outlines.now group) groups.now) }
    {
        for group in groups {
            self.out.extend_from_slice(b",\n")?;
            self.put_feature(outlines, group)?;
        }
        Ok(())
    }

    /// Appends a shape with its holes.
    fn put_feature(&mut self, outlines: &[Sequence<Piece>], group: &Group) -> Result<(), NoMemory>
        ensures { OnOk result (self.new.out.items ≡ self.old.out.items ++ feature_text outlines.now group.now) }
    {
        gather_chords(&mut self.points, pieces_at(outlines, group.outer))?;
        self.out.extend_from_slice(
            b"{\"type\":\"Feature\",\"properties\":{},\"geometry\":{\"type\":\"Polygon\",\"coordinates\":[",
        )?;
        put_ring(&mut self.out, &self.points)?;
        self.put_holes(outlines, group.holes.as_slice())?;
        self.out.extend_from_slice(b"]}}")?;
        Ok(())
    }

    /// Appends the rings of the holes with these indices.
    fn put_holes(&mut self, outlines: &[Sequence<Piece>], holes: &[u32]) -> Result<(), NoMemory>
        ensures { OnOk result (self.new.out.items
            ≡ self.old.out.items ++ flat_map (λ hole. hole_text (outline_at outlines.now hole)) holes.now) }
    {
        for hole in holes {
            self.put_hole(pieces_at(outlines, *hole))?;
        }
        Ok(())
    }

    /// Appends the ring of a hole, in the reverse direction of its outline.
    fn put_hole(&mut self, pieces: &[Piece]) -> Result<(), NoMemory>
        ensures { OnOk result (self.new.out.items ≡ self.old.out.items ++ hole_text pieces.now) }
    {
        gather_chords(&mut self.points, pieces)?;
        self.points.reverse();
        self.out.extend_from_slice(b",")?;
        put_ring(&mut self.out, &self.points)?;
        Ok(())
    }
}

/// Appends a ring.
fn put_ring(out: &mut Vec<u8>, points: &[Point]) -> Result<(), NoMemory>
    ensures { OnOk result (out.new.items ≡ out.old.items ++ ring_text points.now) }
{
    out.extend_from_slice(b"[")?;
    put_positions(out, points)?;
    out.extend_from_slice(b"]")?;
    Ok(())
}

/// Appends positions, with a comma between two.
fn put_positions(out: &mut Vec<u8>, points: &[Point]) -> Result<(), NoMemory>
    ensures { OnOk result (out.new.items ≡ out.old.items
        ++ join_by position_text (codes ",") points.now) }
{
    let mut text = [0u8; 64];
    if let Some((first, more)) = points.split_first() {
        put_position(out, &mut text, *first)?;
        for point in more {
            put_next_position(out, &mut text, *point)?;
        }
    }
    Ok(())
}

/// Appends a position. `text` is a buffer for the text of one position and a comma.
fn put_position(out: &mut Vec<u8>, text: &mut [u8; 64], at: Point) -> Result<(), NoMemory>
    ensures { OnOk result (out.new.items ≡ out.old.items ++ position_text at) }
{
    let start = write_position(at, text);
    out.extend_from_slice(&text[start..])?;
    Ok(())
}

/// Appends a comma and a position.
fn put_next_position(out: &mut Vec<u8>, text: &mut [u8; 64], at: Point) -> Result<(), NoMemory>
    ensures { OnOk result (out.new.items ≡ out.old.items ++ (codes "," ++ position_text at)) }
{
    let start = write_position(at, text);
    let start = write_text(b",", text, start);
    out.extend_from_slice(&text[start..])?;
    Ok(())
}

/// Writes a position to the end of the buffer. Returns the index at which its text starts.
#[inline(always)]
fn write_position(at: Point, text: &mut [u8; 64]) -> usize
    ensures start { 1 ≤ result }
    ensures before { result ≤ 64 }
    ensures written { drop result text.new ≡ position_text at }
{
    let start = write_text(b"]", text, 64);
    let start = write_pixels(at.y, text, start);
    let start = write_text(b",", text, start);
    let start = write_pixels(at.x, text, start);
    write_text(b"[", text, start)
}
