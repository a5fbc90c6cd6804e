//! The files of a run, one after another.
ghost use Rattle.std.specs.Prelude.{◌≡◌, ◌*◌, false, true};
ghost use Rattle.run_output.specs.declared.status.Status.{Status};
ghost use Rattle.page_batches.specs.Inner.Desks.{Keeps, sinks_at};
ghost use Rattle.file_documents.specs.Manner.{HasTexts};
ghost use Rattle.file_documents.specs.LastBatch.{LosesBatch};
ghost use Rattle.file_documents.specs.OnePass.{IsOnePass};
ghost use Rattle.file_documents.specs.Order.{order_of};
ghost use Rattle.file_documents.specs.Outcome.{IsOutcome, OpensFirst, InputCount};
ghost use Rattle.run_output.specs.Told.{source_of};
ghost use Rattle.file_documents.specs.Inner.Tasks.{manner_of};

use crate::file::convert_file;
use crate::task::Task;
use bitmap_input::PageReader;
use page_batches::{Batch, Desk};
use page_workers::PageJob;
use pt_core::{Gate, Inputs, Outputs, Sink};
use run_output::{Made, Name, Status, say_out_of_memory};
use std::thread::Threads;

/// Reads the files in order and opens each once. A batch has twice as many pages as there are workers. For each page
/// it writes a document with the text that the task's job makes.
pub fn convert_files<
    R: Threads + Sync,
    J: PageJob + Sync,
    G: Gate + Sync,
    I: Inputs,
    O: Outputs,
    E: Sink,
>(task: &Task<R, J, G>, names: &[Name], inputs: &mut I, desk: &mut Desk<O, E>) -> Status
    requires texts { HasTexts (manner_of J.PageJob task.now) }
    requires closed { O.is_ready desk.old.outs.now ≡ false }
    requires ready { E.is_ready desk.old.errs.now ≡ true }
    ensures outcome { IsOutcome result (manner_of J.PageJob task.now) names.now
        (source_of I.Inputs inputs.old) (source_of I.Inputs inputs.new)
        (sinks_at O.Sink E.Sink desk.old) (sinks_at O.Sink E.Sink desk.new) }
    ensures opened { OpensFirst names.now
        (source_of I.Inputs inputs.old) (source_of I.Inputs inputs.new) }
    ensures one_pass { result ≡ Status.Unwritten → IsOnePass (2 * task.now.plan.workers)
        (manner_of J.PageJob task.now) names.now
        (source_of I.Inputs inputs.old) (source_of I.Inputs inputs.new)
        (sinks_at O.Sink E.Sink desk.old) (sinks_at O.Sink E.Sink desk.new) }
    ensures one_batch { result ≡ Status.OutOfMemory → LosesBatch (2 * task.now.plan.workers)
        (order_of (manner_of J.PageJob task.now) names.now (source_of I.Inputs inputs.old))
        (source_of I.Inputs inputs.old) (source_of I.Inputs inputs.new)
        (sinks_at O.Sink E.Sink desk.old) (sinks_at O.Sink E.Sink desk.new) }
    ensures input { InputCount result (I.faults inputs.old) (I.faults inputs.new) }
    ensures keeps { Keeps O.Sink E.Sink desk.old desk.new }
{
    let Ok(mut reader) = PageReader::new(task.plan.alloc) else {
        say_out_of_memory(desk.errs);
        return Status::OutOfMemory;
    };
    let mut made = Made::new(task.plan.alloc);
    let mut batch = Batch::new(task.plan.alloc);
    for name in names {
        let converted = convert_file(
            task,
            name.as_str(),
            &mut made,
            &mut batch,
            &mut reader,
            inputs,
            desk,
        );
        match converted {
            Ok(()) => {}
            Err(status) => return status,
        }
    }
    match batch.carry_out(&task.plan, desk) {
        Ok(()) => Status::Done,
        Err(status) => status,
    }
}
