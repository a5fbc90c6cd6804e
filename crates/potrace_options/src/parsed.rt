//! Parsing the command line.
ghost use Rattle.std.specs.Prelude.{◌≡◌, IfOk, map, string_bytes};
ghost use Rattle.potrace_options.specs.Parsed.{parsed};

use crate::command::program;
use crate::given::{Given, given_of};
use clap::error::ErrorKind;
use std::alloc::{AllocError, Global};

/// The result of parsing a command line.
#[derive(Debug, Drop)]
pub enum Parsed<'w> {
    /// The arguments ask for help.
    Help,
    /// The arguments don't fit the command.
    Refused,
    /// The arguments give these values.
    Gives(Given<'w>),
}

/// Parses the arguments, which come without the program's name. An error means that memory ran out.
pub fn parse<'w>(alloc: Global, words: &'w [String]) -> Result<Parsed<'w>, AllocError>
    ensures { IfOk result (λ answer. answer ≡ parsed (map string_bytes words.entry.now)) }
{
    let command = program(alloc)?;
    match command.try_get_matches_from(words) {
        Ok(matches) => {
            let given = given_of(alloc, &matches)?;
            Ok(Parsed::Gives(given))
        }
        Err(error) => match error.kind() {
            ErrorKind::OutOfMemory => Err(AllocError),
            ErrorKind::DisplayHelp => Ok(Parsed::Help),
            _ => Ok(Parsed::Refused),
        },
    }
}
