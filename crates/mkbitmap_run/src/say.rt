//! What the program reports if it writes no whole document.
ghost use Rattle.std.specs.Prelude.{◌≡◌, codes, true};
ghost use Rattle.bitmap_input.specs.Inner.FaultText.{fault_text};
ghost use Rattle.bitmap_input.specs.Reading.{cause_of_fault};
ghost use Rattle.run_output.specs.Messages.{file_line, file_page_line, program_line};
ghost use Rattle.run_output.specs.Names.{dash};
ghost use Rattle.run_output.specs.Inner.Told.{IsMessageTo};
ghost use Rattle.mkbitmap_run.specs.Inner.FilterRun.{cause_ending};
ghost use Rattle.mkbitmap_run.specs.FilterRun.{filter_name};
ghost use Rattle.run_output.specs.declared.status.Status.TheVariants as status;

use bitmap_input::InFault;
use pt_core::Sink;
use run_output::{Status, say_line, say_of_file, say_of_file_page};

/// The program's name, with which its messages begin.
pub const NAME: &str = "mkbitmap";

/// The message about command-line arguments that the program doesn't accept.
pub const BAD_WORDS: &str = "bad arguments, see mkbitmap -h";

/// Reports why a part of the page couldn't be read, and returns the status of that.
pub(crate) fn say_fault<E: Sink>(errs: &mut E, fault: InFault) -> Status
    requires { E.is_ready errs.old ≡ true }
    ensures ending { result ≡ cause_ending (cause_of_fault fault) }
    ensures says { IsMessageTo (file_page_line filter_name dash 1 (fault_text fault))
        E.Sink errs.old errs.new }
{
    say_of_file_page(errs, NAME, "-", 1, fault.text());
    match fault {
        InFault::ReadFault => Status::Unread,
        InFault::NoMemory => Status::OutOfMemory,
        _ => Status::Refused,
    }
}

/// Reports that memory ran out.
pub(crate) fn say_out_of_memory<E: Sink>(errs: &mut E) -> Status
    requires { E.is_ready errs.old ≡ true }
    ensures ending { result ≡ status.OutOfMemory }
    ensures says { IsMessageTo (program_line filter_name (codes "out of memory"))
        E.Sink errs.old errs.new }
{
    say_line(errs, NAME, "out of memory");
    Status::OutOfMemory
}

/// Reports that the document couldn't be written.
pub(crate) fn say_not_written<E: Sink>(errs: &mut E) -> Status
    requires { E.is_ready errs.old ≡ true }
    ensures ending { result ≡ status.Unwritten }
    ensures says { IsMessageTo (file_line filter_name dash (codes "write fault"))
        E.Sink errs.old errs.new }
{
    say_of_file(errs, NAME, "-", "write fault");
    Status::Unwritten
}
