//! The text of a page's certificates.
ghost use Rattle.std.specs.Prelude.{◌≡◌, ℕ, ◌++◌, List, All, codes, decimal, flat_map, length, slice_index_or, IfOk, OnOk};
ghost use Rattle.pt_core.specs.ClosedWalk.{IsClosedWalk};
ghost use Rattle.pt_core.specs.OnPage.{AreOnPage};
ghost use Rattle.outline_check.specs.Certificate.{AreRightLabels};
ghost use Rattle.outline_check.specs.Printed.{IsPrinted};
ghost use Rattle.outline_check.specs.Inner.Printed.{IsPrintedPath, proofs_head};
ghost use Rattle.outline_check.specs.ProofsText.{label_text};

use crate::label::Label;
use crate::labels::labels;
use pt_base::{put_indices, put_points, put_sides, put_spaced};
use pt_core::{NoMemory, Point, Trace, put_number};
use std::alloc::Global;

/// The text of a page's certificates: a line `proofs WIDTH HEIGHT PATHS`, and then three lines for each path,
/// with its points, the indices of its polygon's vertices among them, and its right labels.
pub fn proofs(alloc: Global, trace: &Trace) -> Result<Vec<u8>, NoMemory>
    requires polygons { length trace.now.polygons ≡ length trace.now.paths }
    requires closed { All (λ path. IsClosedWalk path.points) trace.now.paths }
    requires on_page { All (λ path. AreOnPage path.points) trace.now.paths }
    ensures { IfOk result (λ text. IsPrinted trace.now text.items) }
{
    let paths = trace.paths.as_slice();
    let polygons = trace.polygons.as_slice();
    let mut out = Vec::new(alloc);
    put_head(&mut out, trace.width, trace.height, paths.len())?;
    for k in 0..paths.len() {
        put_path(
            alloc,
            &mut out,
            paths[k].points.as_slice(),
            polygons[k].at.as_slice(),
        )?;
    }
    Ok(out)
}

/// Appends the first line.
fn put_head(out: &mut Vec<u8>, width: u32, height: u32, count: usize) -> Result<(), NoMemory>
    ensures { OnOk result (out.new.items ≡ out.old.items ++ proofs_head width height count) }
{
    out.extend_from_slice(b"proofs ")?;
    put_sides(out, width, height, count)?;
    Ok(())
}

/// Appends the three lines of a path.
fn put_path(alloc: Global, out: &mut Vec<u8>, points: &[Point], at: &[u32]) -> Result<(), NoMemory>
    requires closed { IsClosedWalk points.now }
    requires on_page { AreOnPage points.now }
    ensures { OnOk result (IsPrintedPath points.now at.now out.old.items out.new.items) }
{
    let labels = labels(alloc, points)?;
    out.extend_from_slice(b"path")?;
    put_points(out, points)?;
    out.extend_from_slice(b"\nat")?;
    put_indices(out, at)?;
    out.extend_from_slice(b"\nlabels")?;
    put_labels(out, &labels)?;
    out.extend_from_slice(b"\n")?;
    Ok(())
}

/// Appends the labels, a space before each.
fn put_labels(out: &mut Vec<u8>, labels: &[Label]) -> Result<(), NoMemory>
    ensures { OnOk result (out.new.items ≡ out.old.items ++ flat_map label_text labels.now) }
{
    for label in labels {
        put_label(out, *label)?;
    }
    Ok(())
}

/// Appends a space and a label.
fn put_label(out: &mut Vec<u8>, label: Label) -> Result<(), NoMemory>
    ensures { OnOk result (out.new.items ≡ out.old.items ++ label_text label) }
{
    put_spaced(out, label.count)?;
    out.extend_from_slice(b":")?;
    put_number(out, label.cost)?;
    Ok(())
}
