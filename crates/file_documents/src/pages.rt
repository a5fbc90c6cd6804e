//! Reads the pages of the open file one after another and holds them in batches.
ghost use Rattle.std.specs.Prelude.{◌≡◌, ◌+◌, ◌*◌, ◌++◌, ◌∷◌, ◌<◌, [], List, ℕ, suc, IfErr, IfOk, OnOk};
ghost use Rattle.run_output.specs.Names.{document_name};
ghost use Rattle.run_output.specs.Made.{documents_before};
ghost use Rattle.run_output.specs.Parts.{page_part};
ghost use Rattle.run_output.specs.declared.status.Status.{Status};
ghost use Rattle.page_batches.specs.Inner.Desks.{Keeps, sinks_at};
ghost use Rattle.page_batches.specs.Held.{AreHeld};
ghost use Rattle.page_batches.specs.Inner.Held.{EndsHolding, pages_held};
ghost use Rattle.page_batches.specs.Items.{Item};
ghost use Rattle.page_batches.specs.Items.Item.{Write};
ghost use Rattle.page_batches.specs.Inner.ItemsDone.{IsHalt, IsIdle};
ghost use Rattle.file_documents.specs.Manner.{HasTexts};
ghost use Rattle.run_output.specs.Told.{source_of};
ghost use Rattle.file_documents.specs.Inner.Progress.{Answered, CanHold, CanRead, EndsPages, EndsReading, FaultsBy, IsAtStart, OpensNoFile, TakesBytes};
ghost use Rattle.file_documents.specs.Inner.Tasks.{manner_of};

use crate::task::Task;
use bit_image::Bitmap;
use bitmap_input::{InFault, Next, PageReader};
use page_batches::{Batch, Desk};
use page_workers::PageJob;
use pt_core::{Gate, Inputs, Outputs, Sink};
use run_output::{Made, Status, document_name, say_out_of_memory};
use std::thread::Threads;

/// The largest number of pages that a run accepts.
const MOST_PAGES: u32 = 65536;

/// Why no further page of a file was read.
#[derive(Drop)]
pub(crate) enum PagesEnd {
    /// The file ends at a place at which a page may end.
    End,
    /// Bytes follow that begin no page.
    Trailing,
    /// The page is one more than a run accepts.
    TooMany,
    /// The page can't be read.
    Fault(InFault),
}

/// How many pages of a file were read, and why no further page was.
#[derive(Drop)]
pub(crate) struct Converted {
    pub(crate) pages: u32,
    pub(crate) end: PagesEnd,
}

/// Reads the pages of the open file into the batch, each with the name of its document, numbered after the documents
/// made before. A full batch is carried out. An `Err` is the status with which the run ends here, which has been
/// reported.
pub(crate) fn convert_pages<
    R: Threads + Sync,
    J: PageJob + Sync,
    G: Gate + Sync,
    I: Inputs,
    O: Outputs,
    E: Sink,
>(
    task: &Task<R, J, G>,
    base: &str,
    made: &Made,
    batch: &mut Batch,
    reader: &mut PageReader,
    inputs: &mut I,
    desk: &mut Desk<O, E>,
) -> Result<Converted, Status>
    requires texts { HasTexts (manner_of J.PageJob task.now) }
    requires going { CanHold O.Sink E.Sink task.now.plan.binding (2 * task.now.plan.workers) 0 desk.old batch.old }
    requires start { IsAtStart reader.old (source_of I.Inputs inputs.old) }
    ensures converted { EndsPages result (2 * task.now.plan.workers) (manner_of J.PageJob task.now) base.now made.now
        (I.files inputs.old) (I.files inputs.new) batch.old batch.new
        (sinks_at O.Sink E.Sink desk.old) (sinks_at O.Sink E.Sink desk.new) }
    ensures going { IfOk result (λ converted. CanHold O.Sink E.Sink task.now.plan.binding (2 * task.now.plan.workers)
        converted.pages desk.new batch.new) }
    ensures stays { OpensNoFile (source_of I.Inputs inputs.old) (source_of I.Inputs inputs.new) }
    ensures input { IfOk result (λ converted. FaultsBy converted.end (I.faults inputs.old) (I.faults inputs.new)) }
    ensures keeps { Keeps O.Sink E.Sink desk.old desk.new }
{
    let first = made.count(base);
    let room = MOST_PAGES - made.pages();
    let mut pages = 0;
    while pages < room {
        let page = match read_next(task, reader, inputs) {
            Ok(page) => page,
            Err(end) => return Ok(Converted { pages, end }),
        };
        match hold_page(task, base, first, pages, page, batch, desk) {
            Ok(()) => pages += 1,
            Err(status) => return Err(status),
        }
    }
    let end = end_after_most(task, reader, inputs);
    Ok(Converted { pages, end })
}

/// Holds a page, after `before` pages of its file and `first` documents of its base name. A full batch is carried out. An `Err` is the status with which the run ends here, which has
/// been reported.
fn hold_page<R: Threads + Sync, J: PageJob + Sync, G: Gate + Sync, O: Outputs, E: Sink>(
    task: &Task<R, J, G>,
    base: &str,
    first: u32,
    before: u32,
    page: Bitmap,
    batch: &mut Batch,
    desk: &mut Desk<O, E>,
) -> Result<(), Status>
    requires room { first + before < 4294967295 }
    requires going { CanHold O.Sink E.Sink task.now.plan.binding (2 * task.now.plan.workers) before
        desk.old batch.old }
    ensures held { (items : List Item)
        → AreHeld task.now.plan.binding (J.belongs task.now.plan.job.now) batch.old items
        → (text : List ℕ) → J.belongs task.now.plan.job.now page text
        → EndsHolding result task.now.plan.binding (2 * task.now.plan.workers) (J.belongs task.now.plan.job.now)
        (items ++ Write (page_part task.now.plan.binding
        (document_name base.now (first + documents_before task.now.plan.binding before + 1)) before text) ∷ []) batch.new
        (sinks_at O.Sink E.Sink desk.old) (sinks_at O.Sink E.Sink desk.new) }
    ensures halts { IfErr result (λ status. IsHalt status
        × (status ≡ Status.Unwritten → pages_held batch.old + 1 ≡ 2 * task.now.plan.workers)) }
    ensures idle { IfErr result (λ status. IsIdle status
        (sinks_at O.Sink E.Sink desk.old) (sinks_at O.Sink E.Sink desk.new)) }
    ensures going { OnOk result (CanHold O.Sink E.Sink task.now.plan.binding (2 * task.now.plan.workers) (suc before)
        desk.new batch.new) }
    ensures keeps { Keeps O.Sink E.Sink desk.old desk.new }
{
    let number = first + task.plan.binding.documents_before(before) + 1;
    let Ok(name) = document_name(task.plan.alloc, base, number) else {
        say_out_of_memory(desk.errs);
        return Err(Status::OutOfMemory);
    };
    batch.hold_page(&task.plan, desk, name, before, page)
}

/// Reads the next page.
fn read_next<R: Threads + Sync, J: PageJob + Sync, G: Gate + Sync, I: Inputs>(
    task: &Task<R, J, G>,
    reader: &mut PageReader,
    inputs: &mut I,
) -> Result<Bitmap, PagesEnd>
    requires can { CanRead reader.old (source_of I.Inputs inputs.old) }
    ensures answer { Answered result (manner_of J.PageJob task.now) reader.old (source_of I.Inputs inputs.old)
        reader.new (source_of I.Inputs inputs.new) }
    ensures takes { TakesBytes reader.old (source_of I.Inputs inputs.old) reader.new (source_of I.Inputs inputs.new) }
{
    let next = match reader.next(task.plan.alloc, inputs, &task.level, task.invert) {
        Ok(next) => next,
        Err(fault) => return Err(PagesEnd::Fault(fault)),
    };
    match next {
        Next::Page(page) => Ok(page),
        Next::End => Err(PagesEnd::End),
        Next::Trailing => Err(PagesEnd::Trailing),
        Next::Over => unreachable!(),
    }
}

/// Finds out what follows the last page that a run accepts.
fn end_after_most<R: Threads + Sync, J: PageJob + Sync, G: Gate + Sync, I: Inputs>(
    task: &Task<R, J, G>,
    reader: &mut PageReader,
    inputs: &mut I,
) -> PagesEnd
    requires can { CanRead reader.old (source_of I.Inputs inputs.old) }
    ensures ends { EndsReading result reader.old (source_of I.Inputs inputs.old)
        reader.new (source_of I.Inputs inputs.new) }
    ensures takes { TakesBytes reader.old (source_of I.Inputs inputs.old) reader.new (source_of I.Inputs inputs.new) }
{
    match read_next(task, reader, inputs) {
        Ok(_page) => PagesEnd::TooMany,
        Err(end) => end,
    }
}
