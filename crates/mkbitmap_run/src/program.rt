//! The top call: a whole run of the program.
ghost use Rattle.std.specs.Prelude.{◌≡◌, false, true, map, string_bytes};
ghost use Rattle.run_output.specs.Told.{sinks_of, source_of};
ghost use Rattle.run_output.specs.Status.{code_of};
ghost use Rattle.run_output.specs.declared.status.Status.{Status};
ghost use Rattle.mkbitmap_run.specs.FilterRun.{IsFilterRun, filter_name, filter_usage};
ghost use Rattle.small_program.specs.ProgramRun.{PutsText};
ghost use Rattle.run_output.specs.declared.status.Status.TheVariants as status;

use crate::page::filter_input;
use crate::say::{BAD_WORDS, NAME, say_not_written, say_out_of_memory};
use mkbitmap_words::{AskFault, FilterAsk, filter_ask_of};
use pt_core::{Inputs, Outputs, Sink};
use run_output::{Status, say_line, write_document};
use std::alloc::Global;

/// The text about how the program is used.
const USAGE: &[u8] = b"usage: mkbitmap [--box R] [--times N] [--level D]\n";

/// Reads a gray page from standard input, row by row, writes the sharper and larger bitmap to standard output as raw
/// PBM, and returns the exit status.
///
/// A row of the result is written as soon as the rows of the page that it depends on were read. After a fault of the
/// outputs nothing more is written to them. If a row of the page can't be read, the document stays open.
pub fn mk_run<I: Inputs, O: Outputs, E: Sink>(
    alloc: Global,
    words: &[String],
    inputs: &mut I,
    outs: &mut O,
    errs: &mut E,
) -> u8
    requires closed { O.is_ready outs.old ≡ false }
    requires ready { E.is_ready errs.old ≡ true }
    ensures { (end : Status) × (result ≡ code_of end)
        × IsFilterRun (map string_bytes words.now) end
        (source_of I.Inputs inputs.old) (source_of I.Inputs inputs.new)
        (sinks_of O.Sink E.Sink outs.old errs.old) (sinks_of O.Sink E.Sink outs.new errs.new) }
{
    match filter_ask_of(alloc, words) {
        Ok(FilterAsk::Help) => put_usage(outs, errs).code(),
        Ok(FilterAsk::Page(setup)) => filter_input(alloc, setup, inputs, outs, errs).code(),
        Err(AskFault::Bad) => {
            say_line(errs, NAME, BAD_WORDS);
            Status::BadWords.code()
        }
        Err(AskFault::NoMemory) => say_out_of_memory(errs).code(),
    }
}

/// Writes the text about how the program is used.
fn put_usage<O: Outputs, E: Sink>(outs: &mut O, errs: &mut E) -> Status
    requires closed { O.is_ready outs.old ≡ false }
    requires ready { E.is_ready errs.old ≡ true }
    ensures { PutsText filter_name status.Done filter_usage result
        (sinks_of O.Sink E.Sink outs.old errs.old) (sinks_of O.Sink E.Sink outs.new errs.new) }
{
    match write_document(outs, "-", USAGE) {
        Ok(()) => Status::Done,
        Err(_) => say_not_written(errs),
    }
}
