//! The lines that `potrace` writes to standard error.
ghost use Rattle.std.specs.Prelude.{◌≡◌, true};
ghost use Rattle.run_output.specs.Messages.{bad_words, not_opened, not_written, out_of_memory, page_line, trailing_line};
ghost use Rattle.run_output.specs.Inner.Told.{IsMessageTo};

use crate::line::{say, say_line, say_of_file, say_of_file_page};
use itoa::Buffer;
use pt_core::Sink;

/// The tracer's name, with which its messages begin.
pub const TRACER: &str = "potrace";

/// The message about command-line arguments that the tracer doesn't accept.
pub const BAD_WORDS: &str = "bad arguments, see potrace -h";

/// Reports arguments that the program doesn't accept.
pub fn say_bad_words<E: Sink>(errs: &mut E)
    requires { E.is_ready errs.old ≡ true }
    ensures says { IsMessageTo bad_words E.Sink errs.old errs.new }
    ensures stays_ready { E.is_ready errs.new ≡ true }
{
    say_line(errs, TRACER, BAD_WORDS)
}

/// Reports that memory ran out.
pub fn say_out_of_memory<E: Sink>(errs: &mut E)
    requires { E.is_ready errs.old ≡ true }
    ensures says { IsMessageTo out_of_memory E.Sink errs.old errs.new }
    ensures stays_ready { E.is_ready errs.new ≡ true }
{
    say_line(errs, TRACER, "out of memory")
}

/// Reports that a file couldn't be opened.
pub fn say_not_opened<E: Sink>(errs: &mut E, name: &str)
    requires { E.is_ready errs.old ≡ true }
    ensures says { IsMessageTo (not_opened name.now) E.Sink errs.old errs.new }
    ensures stays_ready { E.is_ready errs.new ≡ true }
{
    say_of_file(errs, TRACER, name, "cannot be opened")
}

/// Reports that a document couldn't be written.
pub fn say_not_written<E: Sink>(errs: &mut E, name: &str)
    requires { E.is_ready errs.old ≡ true }
    ensures says { IsMessageTo (not_written name.now) E.Sink errs.old errs.new }
    ensures stays_ready { E.is_ready errs.new ≡ true }
{
    say_of_file(errs, TRACER, name, "write fault")
}

/// Reports something about a page of a file. Pages are counted from 1.
pub fn say_of_page<E: Sink>(errs: &mut E, name: &str, page: u64, text: &str)
    requires { E.is_ready errs.old ≡ true }
    ensures says { IsMessageTo (page_line name.now page text.now) E.Sink errs.old errs.new }
    ensures stays_ready { E.is_ready errs.new ≡ true }
{
    say_of_file_page(errs, TRACER, name, page, text)
}

/// Reports that the bytes after the last page of a file, page number `pages`, don't begin another page.
pub fn say_trailing<E: Sink>(errs: &mut E, name: &str, pages: u64)
    requires { E.is_ready errs.old ≡ true }
    ensures says { IsMessageTo (trailing_line name.now pages) E.Sink errs.old errs.new }
    ensures stays_ready { E.is_ready errs.new ≡ true }
{
    let mut digits = Buffer::new();
    let pages = digits.format(pages).as_bytes();
    say(
        errs,
        &[
            b"potrace: ",
            name.as_bytes(),
            b": trailing bytes after page ",
            pages,
            b"\n",
        ],
    )
}
