//! The command-line arguments that a program was started with.
ghost use Rattle.std.specs.Prelude.{◌≡◌, ◌⊎◌, true, codes, IfErr, OnOk};
ghost use Rattle.run_output.specs.Messages.{program_line};
ghost use Rattle.run_output.specs.Told.{told_of};
ghost use Rattle.run_output.specs.Inner.Told.{IsMessageTo};
ghost use Rattle.run_output.specs.declared.status.Status.TheVariants.{BadWords, OutOfMemory};

use crate::line::say_line;
use crate::status::Status;
use pt_core::{NoMemory, Sink};
use std::alloc::Global;
use std::env::{self, Args, Env};
use std::io::ErrorKind;

/// The command-line arguments, without the program's own name.
///
/// An argument that isn't UTF-8 is refused with the text `refusal`, since no program here accepts one. On an `Err` the
/// message has been written already, and the status is the one that the run ends with.
pub fn words_of<R: Env + Alloc<A = Global>, E: Sink>(
    rt: &R,
    program: &str,
    refusal: &str,
    errs: &mut E,
) -> Result<Vec<String>, Status>
    requires { E.is_ready errs.old ≡ true }
    ensures silent { OnOk result (told_of E.Sink errs.new ≡ told_of E.Sink errs.old) }
    ensures says { IfErr result (λ status.
        ((status ≡ BadWords) × IsMessageTo (program_line program.now refusal.now) E.Sink errs.old errs.new)
        ⊎ ((status ≡ OutOfMemory)
        × IsMessageTo (program_line program.now (codes "out of memory")) E.Sink errs.old errs.new)) }
    ensures stays_ready { E.is_ready errs.new ≡ true }
{
    let args = match env::args(rt) {
        Ok(args) => args,
        Err(error) if error.kind() == ErrorKind::OutOfMemory => {
            say_line(errs, program, "out of memory");
            return Err(Status::OutOfMemory);
        }
        Err(_) => {
            say_line(errs, program, refusal);
            return Err(Status::BadWords);
        }
    };
    match behind_name(rt.alloc(), args) {
        Ok(words) => Ok(words),
        Err(_) => {
            say_line(errs, program, "out of memory");
            Err(Status::OutOfMemory)
        }
    }
}

/// All arguments except the first one, which is the program's name.
fn behind_name(alloc: Global, args: Args) -> Result<Vec<String>, NoMemory> {
    let mut words = Vec::new(alloc);
    for word in args.skip(1) {
        words.push(word)?;
    }
    Ok(words)
}
