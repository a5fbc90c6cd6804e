//! A whole run of a program.
ghost use Rattle.std.specs.Prelude.{◌≡◌, ℕ, false, length, true};
ghost use Rattle.run_output.specs.Told.{sinks_of, source_of};
ghost use Rattle.run_output.specs.Inner.Told.{IsMessageTo};
ghost use Rattle.small_program.specs.ProgramRun.{IsProgramRun, PutsText};
ghost use Rattle.small_program.specs.Inner.ProgramRun.{PutsReply};
ghost use Rattle.small_program.specs.Inner.Reply.{reply_ending, reply_text, stop_ending, stop_line};

use crate::input::{InputStop, read_all};
use crate::task::{Replies, Reply};
use pt_core::{Inputs, Outputs, Sink};
use run_output::{Status, say_line, say_of_file, write_document};
use std::alloc::Global;

/// What the program reports if it is given command-line arguments.
pub const BAD_WORDS: &str = "bad arguments";

/// Reads standard input, has the task reply to it, and writes the reply's document to standard output or reports why
/// there is none. Returns the status that the run ends with. Messages begin with the program's name.
///
/// After a fault of the outputs nothing more is written to them.
pub fn run<I: Inputs, O: Outputs, E: Sink, T: Replies>(
    alloc: Global,
    program: &str,
    task: &T,
    words: &[String],
    inputs: &mut I,
    outs: &mut O,
    errs: &mut E,
) -> Status
    requires closed { O.is_ready outs.old ≡ false }
    requires ready { E.is_ready errs.old ≡ true }
    ensures { IsProgramRun (T.makes task.now) program.now (length words.now) result
        (source_of I.Inputs inputs.old) (source_of I.Inputs inputs.new)
        (sinks_of O.Sink E.Sink outs.old errs.old) (sinks_of O.Sink E.Sink outs.new errs.new) }
{
    if !words.is_empty() {
        say_line(errs, program, BAD_WORDS);
        return Status::BadWords;
    }
    let bytes = match read_all(alloc, inputs) {
        Ok(bytes) => bytes,
        Err(stop) => return say_stop(program, stop, errs),
    };
    match task.reply(alloc, bytes) {
        Ok(reply) => put_reply(program, reply, outs, errs),
        Err(_) => {
            say_line(errs, program, "out of memory");
            Status::OutOfMemory
        }
    }
}

/// Reports why standard input couldn't be read to its end, and returns the status of that.
fn say_stop<E: Sink>(program: &str, stop: InputStop, errs: &mut E) -> Status
    requires { E.is_ready errs.old ≡ true }
    ensures ending { result ≡ stop_ending stop }
    ensures says { IsMessageTo (stop_line program.now stop) E.Sink errs.old errs.new }
{
    match stop {
        InputStop::Unread => {
            say_of_file(errs, program, "-", "read fault");
            Status::Unread
        }
        InputStop::TooLong => {
            say_of_file(errs, program, "-", "text too long");
            Status::Refused
        }
        InputStop::OutOfMemory => {
            say_line(errs, program, "out of memory");
            Status::OutOfMemory
        }
    }
}

/// Writes the document of a reply, or reports why there is none.
fn put_reply<O: Outputs, E: Sink>(program: &str, reply: Reply, outs: &mut O, errs: &mut E) -> Status
    requires closed { O.is_ready outs.old ≡ false }
    requires ready { E.is_ready errs.old ≡ true }
    ensures { PutsReply program.now (reply_ending reply) (reply_text reply) result
        (sinks_of O.Sink E.Sink outs.old errs.old) (sinks_of O.Sink E.Sink outs.new errs.new) }
{
    match reply {
        Reply::Right(text) => put_text(program, &text, Status::Done, outs, errs),
        Reply::Wrong(text) => put_text(program, &text, Status::Wrong, outs, errs),
        Reply::Refused(why) => {
            say_of_file(errs, program, "-", why);
            Status::Refused
        }
    }
}

/// Writes a text as the document and returns the status `well`, or reports that it couldn't be written.
fn put_text<O: Outputs, E: Sink>(
    program: &str,
    text: &[u8],
    well: Status,
    outs: &mut O,
    errs: &mut E,
) -> Status
    requires closed { O.is_ready outs.old ≡ false }
    requires ready { E.is_ready errs.old ≡ true }
    ensures { PutsText program.now well text.now result
        (sinks_of O.Sink E.Sink outs.old errs.old) (sinks_of O.Sink E.Sink outs.new errs.new) }
{
    match write_document(outs, "-", text) {
        Ok(()) => well,
        Err(_) => {
            say_of_file(errs, program, "-", "write fault");
            Status::Unwritten
        }
    }
}
