//! Filtering the page on standard input.
ghost use Rattle.std.specs.Prelude.{◌≡◌, ◌≤◌, false, true, IfErr, IfOk};
ghost use Rattle.bitmap_input.specs.Reading.{cause_of_fault};
ghost use Rattle.bitmap_input.specs.GrayReader.{GivesHead, gray_at_start};
ghost use Rattle.run_output.specs.Told.{Source, sinks_of, source_of};
ghost use Rattle.mkbitmap_words.specs.Inner.FilterAsked.{CanFilter};
ghost use Rattle.mkbitmap_run.specs.Inner.Head.{StandsBehindHead, StopsHead};
ghost use Rattle.mkbitmap_run.specs.FilterRun.{IsPageRun};
ghost use Rattle.mkbitmap_run.specs.Rows.{fits_result};
ghost use Rattle.mkbitmap_run.specs.Inner.FilterWork.{HasReadHead, MayRead, ReadsEnd, StaysOpened};
ghost use Rattle.mkbitmap.specs.declared.limits.TheConstants.{GREATEST_TIMES};
ghost use Rattle.pt_core.specs.declared.limits.TheConstants.{LONGEST_SIDE};

use crate::fault::Break;
use crate::say::{NAME, say_fault, say_not_written, say_out_of_memory};
use crate::work::Work;
use bitmap_input::{GrayHead, GrayReader, InFault};
use mkbitmap_words::Setup;
use pt_core::{Inputs, LONGEST_SIDE, Outputs, Sink};
use run_output::{Status, say_of_file, say_of_file_page};
use std::alloc::Global;

/// Filters the page on standard input, or reports why that isn't possible.
pub(crate) fn filter_input<I: Inputs, O: Outputs, E: Sink>(
    alloc: Global,
    setup: Setup,
    inputs: &mut I,
    outs: &mut O,
    errs: &mut E,
) -> Status
    requires setup { CanFilter setup }
    requires closed { O.is_ready outs.old ≡ false }
    requires ready { E.is_ready errs.old ≡ true }
    ensures { IsPageRun setup result
        (source_of I.Inputs inputs.old) (source_of I.Inputs inputs.new)
        (sinks_of O.Sink E.Sink outs.old errs.old) (sinks_of O.Sink E.Sink outs.new errs.new) }
{
    match inputs.open("-") {
        Ok(()) => {}
        Err(_) => {
            say_of_file(errs, NAME, "-", "cannot be opened");
            return Status::Unread;
        }
    }
    let Ok(mut reader) = GrayReader::new(alloc) else {
        return say_out_of_memory(errs);
    };
    match read_head(&mut reader, inputs) {
        Ok(head) => filter_page(alloc, setup, head, reader, inputs, outs, errs),
        Err(fault) => say_fault(errs, fault),
    }
}

/// Reads the header of the page.
///
/// It has the part of the contract of `GrayReader::head` that a run needs, in fewer clauses.
fn read_head<I: Inputs>(reader: &mut GrayReader, inputs: &mut I) -> Result<GrayHead, InFault>
    requires opened { I.is_opened inputs.old ≡ true }
    requires first { reader.old ≡ gray_at_start }
    ensures gives { IfOk result (λ head. GivesHead gray_at_start (I.files inputs.old) head
        reader.new (I.files inputs.new)) }
    ensures read { IfOk result (λ head. HasReadHead head reader.new) }
    ensures stops { IfErr result (λ fault. StopsHead (cause_of_fault fault) reader.new
        (I.files inputs.old) (I.files inputs.new)) }
    ensures reads { ReadsEnd result (I.faults inputs.old) (I.faults inputs.new) }
    ensures stays { StaysOpened reader.new
        (source_of I.Inputs inputs.old) (source_of I.Inputs inputs.new) }
{
    let head = reader.head(inputs)?;
    Ok(head)
}

/// Filters the page after its header was read, or reports why that isn't possible.
fn filter_page<I: Inputs, O: Outputs, E: Sink>(
    alloc: Global,
    setup: Setup,
    head: GrayHead,
    reader: GrayReader,
    inputs: &mut I,
    outs: &mut O,
    errs: &mut E,
) -> Status
    requires setup { CanFilter setup }
    requires read { HasReadHead head reader }
    requires reading { MayRead reader (source_of I.Inputs inputs.old) }
    requires closed { O.is_ready outs.old ≡ false }
    requires ready { E.is_ready errs.old ≡ true }
    ensures { (source : Source)
        → StandsBehindHead source reader (source_of I.Inputs inputs.old)
        → IsPageRun setup result source (source_of I.Inputs inputs.new)
        (sinks_of O.Sink E.Sink outs.old errs.old) (sinks_of O.Sink E.Sink outs.new errs.new) }
{
    if !fits(setup, head) {
        say_of_file_page(errs, NAME, "-", 1, "result too large");
        return Status::Refused;
    }
    let Ok(mut work) = Work::new(alloc, setup, head, reader) else {
        return say_out_of_memory(errs);
    };
    match work.put_page(inputs, outs) {
        Ok(()) => Status::Done,
        Err(Break::Input(fault)) => say_fault(errs, fault),
        Err(Break::Output) => say_not_written(errs),
    }
}

/// Whether both sides of the result are within the limit.
fn fits(setup: Setup, head: GrayHead) -> bool
    requires times { setup.times ≤ GREATEST_TIMES }
    requires width { head.width ≤ LONGEST_SIDE }
    requires height { head.height ≤ LONGEST_SIDE }
    ensures { result ≡ fits_result setup head.width head.height }
{
    setup.times * head.width <= LONGEST_SIDE && setup.times * head.height <= LONGEST_SIDE
}
