//! The line of a page.
ghost use Rattle.std.specs.Prelude.{◌≡◌, ◌++◌, decimal, length, sum_by, IfOk, OnOk};
ghost use Rattle.page_trace.specs.Trace.{IsTrace};
ghost use Rattle.pt_core.specs.Needs.{CanWrite};
ghost use Rattle.potrace_main.specs.Demo.{IsDemoLine, demo_line};

use bit_image::Bitmap;
use page_trace::{document, trace};
use page_workers::PageJob;
use pt_core::{NoMemory, Piece, Polygon, Sequence, Settings, Trace, put_number};
use std::alloc::Global;
use std::marker::Model;

/// The line of a page, as a job of the workers.
//
// The page is traced once for the counts, and once more for its document: a demo is in no hurry.
#[derive(Drop)]
pub(crate) struct LineJob {
    pub(crate) settings: Settings,
}

impl Model for LineJob {
    ghost use Rattle.potrace_main.specs.Inner.Demo.{CanCount};
    ghost use Rattle.pt_core.specs.declared.settings.Settings.{Settings};

    ghost Value = { Settings };

    ghost view = { λ job. job.settings };

    ghost invariant = { λ job. CanCount job.settings };
}

impl PageJob for LineJob {
    ghost use Rattle.std.proofs.Common.{ap, sym, ◌∙◌};
    ghost use Rattle.page_trace.proofs.OneTrace.{one_document, one_trace};
    ghost use Rattle.potrace_main.specs.Demo.{IsDemoLine};

    ghost belongs = { λ job page line. IsDemoLine job page line };

    fn page(&self, alloc: Global, page: &Bitmap) -> Result<Vec<u8>, NoMemory> {
        let trace = trace(alloc, page, &self.settings)?;
        traced_line(alloc, page, &self.settings, &trace)
    }

    ghost one_text = { λ job page a b p q. p.counts
        ∙ ap (λ t. demo_line t (length p.document))
        (one_trace page job p.trace q.trace p.traced q.traced)
        ∙ ap (λ text. demo_line q.trace (length text))
        (one_document job.backend page job p.document q.document p.written q.written)
        ∙ sym q.counts };
}

/// The line of a page, of which this is the trace.
fn traced_line(
    alloc: Global,
    page: &Bitmap,
    settings: &Settings,
    trace: &Trace,
) -> Result<Vec<u8>, NoMemory>
    requires traced { IsTrace page.now settings.now trace.now }
    requires written { CanWrite settings.now }
    ensures { IfOk result (λ line. IsDemoLine settings.now page.now line.items) }
{
    let text = document(alloc, page, settings)?;
    line(alloc, trace, text.len())
}

/// The line of a trace whose document has so many bytes.
fn line(alloc: Global, trace: &Trace, bytes: usize) -> Result<Vec<u8>, NoMemory>
    ensures { IfOk result (λ line. line.items ≡ demo_line trace.now bytes) }
{
    let mut out = Vec::new(alloc);
    put_line(&mut out, trace, bytes)?;
    Ok(out)
}

/// Appends the line of a trace whose document has so many bytes.
fn put_line(out: &mut Vec<u8>, trace: &Trace, bytes: usize) -> Result<(), NoMemory>
    ensures { OnOk result (out.new.items ≡ out.old.items ++ demo_line trace.now bytes) }
{
    put_count(out, b"paths ", trace.paths.as_slice().len() as u128)?;
    put_count(out, b" segments ", segments(trace.polygons.as_slice()))?;
    put_count(out, b" curves ", pieces(trace.outlines.as_slice()))?;
    put_count(out, b" bytes ", bytes as u128)?;
    out.extend_from_slice(b"\n")?;
    Ok(())
}

/// Appends a text, and a number behind it.
fn put_count(out: &mut Vec<u8>, text: &[u8], count: u128) -> Result<(), NoMemory>
    ensures { OnOk result (out.new.items ≡ out.old.items ++ (text.now ++ decimal count)) }
{
    out.extend_from_slice(text)?;
    put_number(out, count)
}

/// How many segments the polygons have together.
//
// No sum of so many lengths passes a `u128`, however long the lists are.
fn segments(polygons: &[Polygon]) -> u128
    ensures { result ≡ sum_by (λ polygon. length polygon.at) polygons.now }
{
    let mut total = 0;
    for polygon in polygons {
        total += polygon.at.as_slice().len() as u128;
    }
    total
}

/// How many pieces the outlines have together.
fn pieces(outlines: &[Sequence<Piece>]) -> u128
    ensures { result ≡ sum_by (λ outline. length outline) outlines.now }
{
    let mut total = 0;
    for outline in outlines {
        total += outline.as_slice().len() as u128;
    }
    total
}
