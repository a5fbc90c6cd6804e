//! One file of a run: it is opened, its pages are read and held in batches, and how it ended is reported.
ghost use Rattle.std.specs.Prelude.{◌≡◌, ◌*◌, ◌⊎◌, ◌++◌, List, IfErr, OnOk, option_map};
ghost use Rattle.run_output.specs.Names.{next_name};
ghost use Rattle.run_output.specs.declared.status.Status.{Status};
ghost use Rattle.page_batches.specs.Inner.Desks.{Keeps, sinks_at};
ghost use Rattle.page_batches.specs.Held.{AreHeld};
ghost use Rattle.page_batches.specs.Inner.Held.{end_held, end_notes};
ghost use Rattle.page_batches.specs.Items.{Item, end_items};
ghost use Rattle.page_batches.specs.Inner.ItemsDone.{IsHalt, IsIdle, ended_with};
ghost use Rattle.file_documents.specs.Manner.{HasTexts};
ghost use Rattle.run_output.specs.Told.{source_of};
ghost use Rattle.file_documents.specs.Inner.Progress.{AsksFor, CanHold, EndsFile, EndsHeld, EndsWithPages, GoesOnAfter, status_of};
ghost use Rattle.file_documents.specs.Outcome.{InputCount};
ghost use Rattle.file_documents.specs.declared.pages.PagesEnd.{PagesEnd};
ghost use Rattle.file_documents.specs.Inner.Tasks.{manner_of};
ghost use Rattle.file_documents.specs.Inner.Unopened.{EndsUnopened};

use crate::pages::{Converted, PagesEnd, convert_pages};
use crate::task::Task;
use bitmap_input::{InFault, PageReader};
use page_batches::{Batch, Desk};
use page_workers::PageJob;
use pt_core::{Gate, Inputs, NoMemory, Outputs, Sink};
use run_output::{
    Binding, Made, Status, base_name, document_name, say_not_opened, say_of_page, say_out_of_memory,
};
use std::alloc::Global;
use std::thread::Threads;

/// Opens a file and reads its pages into the batch. The batch is carried out when it is full. An `Err` is the status
/// with which the run ends in this file; the whole pages before that are converted and written first.
pub(crate) fn convert_file<
    R: Threads + Sync,
    J: PageJob + Sync,
    G: Gate + Sync,
    I: Inputs,
    O: Outputs,
    E: Sink,
>(
    task: &Task<R, J, G>,
    name: &str,
    made: &mut Made,
    batch: &mut Batch,
    reader: &mut PageReader,
    inputs: &mut I,
    desk: &mut Desk<O, E>,
) -> Result<(), Status>
    requires texts { HasTexts (manner_of J.PageJob task.now) }
    requires going { CanHold O.Sink E.Sink task.now.plan.binding (2 * task.now.plan.workers) 0 desk.old batch.old }
    ensures converted { EndsFile result (2 * task.now.plan.workers) (manner_of J.PageJob task.now) name.now
        made.old made.new batch.old batch.new
        (source_of I.Inputs inputs.old) (source_of I.Inputs inputs.new)
        (sinks_at O.Sink E.Sink desk.old) (sinks_at O.Sink E.Sink desk.new) }
    ensures going { OnOk result (CanHold O.Sink E.Sink task.now.plan.binding (2 * task.now.plan.workers) 0
        desk.new batch.new) }
    ensures asked { AsksFor name.now (source_of I.Inputs inputs.old) (source_of I.Inputs inputs.new) }
    ensures input { InputCount (ended_with result) (I.faults inputs.old) (I.faults inputs.new) }
    ensures keeps { Keeps O.Sink E.Sink desk.old desk.new }
{
    match inputs.open(name) {
        Ok(()) => {}
        Err(_) => return Err(end_unopened(task, name, batch, desk)),
    }
    let Ok(base) = base_name(task.plan.alloc, task.output, task.suffix, name) else {
        say_out_of_memory(desk.errs);
        return Err(Status::OutOfMemory);
    };
    reader.start();
    let converted = match convert_pages(task, &base, made, batch, reader, inputs, desk) {
        Ok(converted) => converted,
        Err(status) => return Err(status),
    };
    let pages = converted.pages;
    match finish(task, name, &base, made, converted, batch, desk) {
        Ok(()) => {}
        Err(status) => return Err(status),
    }
    match made.add(base, task.plan.binding.documents_in(pages), pages) {
        Ok(()) => Ok(()),
        Err(_) => {
            say_out_of_memory(desk.errs);
            Err(Status::OutOfMemory)
        }
    }
}

/// Carries out everything that is held, and then reports that a file couldn't be opened. Returns the status with which
/// the run ends: that of the missing file, or of what couldn't be carried out.
fn end_unopened<R: Threads + Sync, J: PageJob + Sync, G: Gate + Sync, O: Outputs, E: Sink>(
    task: &Task<R, J, G>,
    name: &str,
    batch: &mut Batch,
    desk: &mut Desk<O, E>,
) -> Status
    requires going { CanHold O.Sink E.Sink task.now.plan.binding (2 * task.now.plan.workers) 0 desk.old batch.old }
    ensures ends { (first : List Item)
        → AreHeld task.now.plan.binding (J.belongs task.now.plan.job.now) batch.old first
        → EndsUnopened name.now result first
        (sinks_at O.Sink E.Sink desk.old) (sinks_at O.Sink E.Sink desk.new) }
    ensures status { (result ≡ Status.Unread) ⊎ IsHalt result }
    ensures idle { IsIdle result (sinks_at O.Sink E.Sink desk.old) (sinks_at O.Sink E.Sink desk.new) }
    ensures keeps { Keeps O.Sink E.Sink desk.old desk.new }
{
    match batch.carry_out(&task.plan, desk) {
        Ok(()) => {
            say_not_opened(desk.errs, name);
            Status::Unread
        }
        Err(status) => status,
    }
}

/// Holds what has to be done after the last page of a file. `base` is the base name of its documents. If the run ends
/// here for a reason other than memory, everything that is held is carried out first.
fn finish<R: Threads + Sync, J: PageJob + Sync, G: Gate + Sync, O: Outputs, E: Sink>(
    task: &Task<R, J, G>,
    name: &str,
    base: &str,
    made: &Made,
    converted: Converted,
    batch: &mut Batch,
    desk: &mut Desk<O, E>,
) -> Result<(), Status>
    requires going { CanHold O.Sink E.Sink task.now.plan.binding (2 * task.now.plan.workers) converted.pages
        desk.old batch.old }
    ensures ended { (first : List Item)
        → AreHeld task.now.plan.binding (J.belongs task.now.plan.job.now) batch.old first
        → EndsWithPages result (2 * task.now.plan.workers) (manner_of J.PageJob task.now) name.now
        base.now made.now converted.end converted.pages first batch.new
        (sinks_at O.Sink E.Sink desk.old) (sinks_at O.Sink E.Sink desk.new) }
    ensures because { GoesOnAfter result converted.end }
    ensures idle { IfErr result (λ status. IsIdle status
        (sinks_at O.Sink E.Sink desk.old) (sinks_at O.Sink E.Sink desk.new)) }
    ensures going { OnOk result (CanHold O.Sink E.Sink task.now.plan.binding (2 * task.now.plan.workers) 0
        desk.new batch.new) }
    ensures keeps { Keeps O.Sink E.Sink desk.old desk.new }
{
    let pages = converted.pages;
    let (status, text) = match converted.end {
        PagesEnd::End => return hold_end(task, base, made, pages, None, batch, desk),
        PagesEnd::Trailing => return hold_end(task, base, made, pages, Some(name), batch, desk),
        PagesEnd::TooMany => (Status::Refused, "too many pages"),
        PagesEnd::Fault(InFault::NoMemory) => {
            say_out_of_memory(desk.errs);
            return Err(Status::OutOfMemory);
        }
        PagesEnd::Fault(fault) => (status_of(fault), fault.text()),
    };
    match batch.carry_out(&task.plan, desk) {
        Ok(()) => {
            say_of_page(desk.errs, name, u64::from(pages) + 1, text);
            Err(status)
        }
        Err(status) => Err(status),
    }
}

/// Holds the end of a file that has this many pages. `trailing` is the file's name if bytes follow its pages that
/// begin no page. An `Err` says that memory ran out, which has been reported.
fn hold_end<R: Threads + Sync, J: PageJob + Sync, G: Gate + Sync, O: Outputs, E: Sink>(
    task: &Task<R, J, G>,
    base: &str,
    made: &Made,
    pages: u32,
    trailing: Option<&str>,
    batch: &mut Batch,
    desk: &mut Desk<O, E>,
) -> Result<(), Status>
    requires going { CanHold O.Sink E.Sink task.now.plan.binding (2 * task.now.plan.workers) pages
        desk.old batch.old }
    ensures held { EndsHeld result (manner_of J.PageJob task.now) (2 * task.now.plan.workers)
        (end_items task.now.plan.binding (next_name base.now made.now.made) pages
        (end_notes (option_map (λ s. s.now) trailing.entry) pages)) batch.old batch.new
        (sinks_at O.Sink E.Sink desk.old) (sinks_at O.Sink E.Sink desk.new) }
    ensures going { OnOk result (CanHold O.Sink E.Sink task.now.plan.binding (2 * task.now.plan.workers) 0
        desk.new batch.new) }
    ensures keeps { Keeps O.Sink E.Sink desk.old desk.new }
{
    match push_end(
        task.plan.alloc,
        task.plan.binding,
        base,
        made,
        pages,
        trailing,
        batch,
    ) {
        Ok(()) => Ok(()),
        Err(_) => {
            say_out_of_memory(desk.errs);
            Err(Status::OutOfMemory)
        }
    }
}

/// Holds the end of a file that has this many pages, with the name of its document if the pages are bound together.
fn push_end(
    alloc: Global,
    binding: Binding,
    base: &str,
    made: &Made,
    pages: u32,
    trailing: Option<&str>,
    batch: &mut Batch,
) -> Result<(), NoMemory>
    ensures held { OnOk result (batch.new ≡ batch.old ++ end_held binding (next_name base.now made.now.made) pages
        (end_notes (option_map (λ s. s.now) trailing.entry) pages)) }
{
    match binding {
        Binding::Apart => batch.hold_end(alloc, Binding::Apart, base, pages, trailing),
        Binding::Together => {
            let Ok(name) = document_name(alloc, base, made.count(base) + 1) else {
                return Err(NoMemory);
            };
            batch.hold_end(alloc, Binding::Together, &name, pages, trailing)
        }
    }
}

/// The status of a run that ends with a page that can't be read.
fn status_of(fault: InFault) -> Status
    ensures { result ≡ status_of (PagesEnd.Fault fault) }
{
    match fault {
        InFault::ReadFault => Status::Unread,
        InFault::NoMemory => Status::OutOfMemory,
        _ => Status::Refused,
    }
}
