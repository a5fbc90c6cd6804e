//! The document of a page, and a page in a document of several.
ghost use Rattle.std.specs.Prelude.{◌≡◌, ◌≤◌, ◌++◌, IfOk, OnOk, codes, decimal};
ghost use Rattle.eps_backend.specs.EpsText.{comments_text, drawing_text, eps_text, ps_page_text, scale_text};

use crate::pen::EpsPen;
use outline_pen::put_groups;
use pt_core::{NoMemory, Settings, Trace, put_number};
use std::alloc::Global;

/// The document of a page's trace. Each shape is filled by the even-odd rule, which leaves its holes out.
///
/// Coordinates are rounded to whole units, and a pixel has `settings.unit` units. The page is one point wide and high
/// for each pixel. A group's path without an outline in the trace is drawn as an outline of no pieces.
pub fn eps(alloc: Global, trace: &Trace, settings: &Settings) -> Result<Vec<u8>, NoMemory>
    requires some { 1 ≤ settings.now.unit }
    requires most { settings.now.unit ≤ 1000 }
    ensures { IfOk result (λ text. text.items ≡ eps_text settings.now.unit trace.now) }
{
    let mut out = Vec::new(alloc);
    put_comments(&mut out, trace.width, trace.height)?;
    put_drawing(&mut out, settings.unit, trace)?;
    out.extend_from_slice(b"%%EOF\n")?;
    Ok(out)
}

/// A page's trace as one page of a PostScript document. The caller writes what surrounds the pages.
///
/// The shapes and coordinates are the same as in the document that `eps` writes.
pub fn ps_body(alloc: Global, trace: &Trace, settings: &Settings) -> Result<Vec<u8>, NoMemory>
    requires some { 1 ≤ settings.now.unit }
    requires most { settings.now.unit ≤ 1000 }
    ensures { IfOk result (λ text. text.items ≡ ps_page_text settings.now.unit trace.now) }
{
    let mut out = Vec::new(alloc);
    put_drawing(&mut out, settings.unit, trace)?;
    out.extend_from_slice(b"showpage\n")?;
    Ok(out)
}

/// Appends the comments, with the sides of the page.
fn put_comments(out: &mut Vec<u8>, width: u32, height: u32) -> Result<(), NoMemory>
    ensures { OnOk result (out.new.items ≡ out.old.items ++ comments_text width height) }
{
    out.extend_from_slice(b"%!PS-Adobe-3.0 EPSF-3.0\n%%BoundingBox: 0 0 ")?;
    put_corner(out, width, height)?;
    out.extend_from_slice(b"\n%%EndComments\n")?;
    Ok(())
}

/// Appends the upper right corner of the bounding box.
fn put_corner(out: &mut Vec<u8>, width: u32, height: u32) -> Result<(), NoMemory>
    ensures { OnOk result (out.new.items
        ≡ out.old.items ++ (decimal width ++ codes " " ++ decimal height)) }
{
    put_number(out, width)?;
    out.extend_from_slice(b" ")?;
    put_number(out, height)?;
    Ok(())
}

/// Appends the line that sets the scale: a pixel has `unit` units.
fn put_scale(out: &mut Vec<u8>, unit: u32) -> Result<(), NoMemory>
    ensures { OnOk result (out.new.items ≡ out.old.items ++ scale_text unit) }
{
    out.extend_from_slice(b"gsave\n1 ")?;
    put_number(out, unit)?;
    out.extend_from_slice(b" div dup scale\n")?;
    Ok(())
}

/// Appends the commands that draw a page.
fn put_drawing(out: &mut Vec<u8>, unit: u32, trace: &Trace) -> Result<(), NoMemory>
    requires some { 1 ≤ unit }
    requires most { unit ≤ 1000 }
    ensures { OnOk result (out.new.items ≡ out.old.items ++ drawing_text unit trace.now) }
{
    put_scale(out, unit)?;
    let outlines = trace.outlines.as_slice();
    put_groups::<EpsPen>(out, unit, outlines, trace.groups.as_slice())?;
    out.extend_from_slice(b"grestore\n")?;
    Ok(())
}
