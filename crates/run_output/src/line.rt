//! Writing lines to standard error.
//!
//! If a write fails, the rest of the line is dropped and no further call is made for it.
ghost use Rattle.std.specs.Prelude.{◌≡◌, ◌∷◌, [], true, codes, map};
ghost use Rattle.std.specs.List.{concat};
ghost use Rattle.run_output.specs.Messages.{file_line, file_page_line, program_line};
ghost use Rattle.run_output.specs.Inner.Told.{IsMessageTo};

use crate::pieces::write_pieces;
use itoa::Buffer;
use pt_core::Sink;

/// Writes the line `PROGRAM: TEXT` to standard error.
pub fn say_line<E: Sink>(errs: &mut E, program: &str, text: &str)
    requires { E.is_ready errs.old ≡ true }
    ensures says { IsMessageTo (program_line program.now text.now) E.Sink errs.old errs.new }
    ensures stays_ready { E.is_ready errs.new ≡ true }
{
    say(errs, &[program.as_bytes(), b": ", text.as_bytes(), b"\n"])
}

/// Writes the line `PROGRAM: NAME: TEXT`, a message about a file.
pub fn say_of_file<E: Sink>(errs: &mut E, program: &str, name: &str, text: &str)
    requires { E.is_ready errs.old ≡ true }
    ensures says { IsMessageTo (file_line program.now name.now text.now) E.Sink errs.old errs.new }
    ensures stays_ready { E.is_ready errs.new ≡ true }
{
    say(
        errs,
        &[
            program.as_bytes(),
            b": ",
            name.as_bytes(),
            b": ",
            text.as_bytes(),
            b"\n",
        ],
    )
}

/// Writes the line `PROGRAM: NAME: page PAGE: TEXT`, a message about a page of a file. Pages are counted from 1.
pub fn say_of_file_page<E: Sink>(errs: &mut E, program: &str, name: &str, page: u64, text: &str)
    requires { E.is_ready errs.old ≡ true }
    ensures says { IsMessageTo (file_page_line program.now name.now page text.now) E.Sink errs.old errs.new }
    ensures stays_ready { E.is_ready errs.new ≡ true }
{
    let mut digits = Buffer::new();
    say_of_numbered(errs, program, name, digits.format(page), text)
}

/// Like `say_of_file_page`, with the page's number already in decimal digits.
fn say_of_numbered<E: Sink>(errs: &mut E, program: &str, name: &str, page: &str, text: &str)
    requires { E.is_ready errs.old ≡ true }
    ensures says { IsMessageTo (concat (program.now ∷ codes ": " ∷ name.now ∷ codes ": page "
        ∷ page.now ∷ codes ": " ∷ text.now ∷ codes "\n" ∷ [])) E.Sink errs.old errs.new }
    ensures stays_ready { E.is_ready errs.new ≡ true }
{
    say(
        errs,
        &[
            program.as_bytes(),
            b": ",
            name.as_bytes(),
            b": page ",
            page.as_bytes(),
            b": ",
            text.as_bytes(),
            b"\n",
        ],
    )
}

/// Writes the pieces of a line in order. If a write fails, the rest is dropped.
pub(crate) fn say<E: Sink>(errs: &mut E, pieces: &[&[u8]])
    requires { E.is_ready errs.old ≡ true }
    ensures says { IsMessageTo (concat (map (λ piece. piece.now) pieces.now)) E.Sink errs.old errs.new }
    ensures stays_ready { E.is_ready errs.new ≡ true }
{
    match write_pieces(errs, pieces) {
        Ok(()) => {}
        Err(_) => {}
    }
}
