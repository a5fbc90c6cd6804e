//! The document of a page.
ghost use Rattle.std.specs.Prelude.{◌≡◌, ◌≤◌, ◌++◌, ◌*◌, IfOk, OnOk};
ghost use Rattle.svg_backend.specs.SvgText.{group_head, head_text, sides_text, size_text, svg_text, view_text};

use crate::pen::SvgPen;
use outline_pen::{put_groups, put_one};
use pt_core::{NoMemory, Settings, Trace, put_number};
use std::alloc::Global;

/// The document of a page's trace. It has one path for each shape with its holes, or one path for all outlines if the
/// settings say `flat`.
///
/// Coordinates are rounded to whole units, and a pixel has `settings.unit` units. A group's path without an outline in
/// the trace is drawn as an outline of no pieces.
pub fn svg(alloc: Global, trace: &Trace, settings: &Settings) -> Result<Vec<u8>, NoMemory>
    requires some { 1 ≤ settings.now.unit }
    requires most { settings.now.unit ≤ 1000 }
    ensures { IfOk result (λ text. text.items
        ≡ svg_text settings.now.unit settings.now.flat trace.now) }
{
    let unit = settings.unit;
    let outlines = trace.outlines.as_slice();
    let mut out = Vec::new(alloc);
    put_head(&mut out, unit, trace.width, trace.height)?;
    if settings.flat {
        put_one::<SvgPen>(&mut out, unit, outlines)?;
    } else {
        put_groups::<SvgPen>(&mut out, unit, outlines, trace.groups.as_slice())?;
    }
    out.extend_from_slice(b"</g>\n</svg>\n")?;
    Ok(out)
}

/// Appends the lines before the paths.
fn put_head(out: &mut Vec<u8>, unit: u32, width: u32, height: u32) -> Result<(), NoMemory>
    requires { unit ≤ 1000 }
    ensures { OnOk result (out.new.items ≡ out.old.items ++ head_text unit width height) }
{
    out.extend_from_slice(
        b"<?xml version=\"1.0\" standalone=\"no\"?>\n<svg version=\"1.0\" xmlns=\"http://www.w3.org/2000/svg\" ",
    )?;
    put_sides(out, unit, width, height)?;
    put_group_head(out, unit, height)?;
    Ok(())
}

/// Appends the page's width and height.
fn put_sides(out: &mut Vec<u8>, unit: u32, width: u32, height: u32) -> Result<(), NoMemory>
    requires { unit ≤ 1000 }
    ensures { OnOk result (out.new.items ≡ out.old.items ++ sides_text unit width height) }
{
    put_size(out, width, height)?;
    put_view(out, unit, width, height)?;
    Ok(())
}

/// Appends the size at which the page is drawn: a pixel is a point.
fn put_size(out: &mut Vec<u8>, width: u32, height: u32) -> Result<(), NoMemory>
    ensures { OnOk result (out.new.items ≡ out.old.items ++ size_text width height) }
{
    out.extend_from_slice(b"width=\"")?;
    put_number(out, width)?;
    out.extend_from_slice(b"pt\" height=\"")?;
    put_number(out, height)?;
    Ok(())
}

/// Appends the page's width and height in units.
fn put_view(out: &mut Vec<u8>, unit: u32, width: u32, height: u32) -> Result<(), NoMemory>
    requires { unit ≤ 1000 }
    ensures { OnOk result (out.new.items ≡ out.old.items ++ view_text unit width height) }
{
    out.extend_from_slice(b"pt\" viewBox=\"0 0 ")?;
    put_number(out, side_in_units(width, unit))?;
    out.extend_from_slice(b" ")?;
    put_number(out, side_in_units(height, unit))?;
    out.extend_from_slice(b"\">\n")?;
    Ok(())
}

/// Appends the line that turns the y axis upwards.
fn put_group_head(out: &mut Vec<u8>, unit: u32, height: u32) -> Result<(), NoMemory>
    requires { unit ≤ 1000 }
    ensures { OnOk result (out.new.items ≡ out.old.items ++ group_head unit height) }
{
    out.extend_from_slice(b"<g transform=\"translate(0,")?;
    put_number(out, side_in_units(height, unit))?;
    out.extend_from_slice(b") scale(1,-1)\" fill=\"#000000\" stroke=\"none\">\n")?;
    Ok(())
}

/// A side of the page in units.
fn side_in_units(side: u32, unit: u32) -> u64
    requires { unit ≤ 1000 }
    ensures { result ≡ side * unit }
{
    u64::from(side) * u64::from(unit)
}
