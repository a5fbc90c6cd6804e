//! Reading the command line.
ghost use Rattle.std.specs.Prelude.{◌≡◌, IfOk, IsErrOf, map, string_bytes};
ghost use Rattle.mkbitmap_words.specs.Inner.FilterAsked.{CanFilter};
ghost use Rattle.mkbitmap_words.specs.FilterAsked.{IsFilterAsked};

use crate::command::filter_command;
use crate::setup::{Setup, setup_of};
use clap::error::ErrorKind;
use std::alloc::Global;

/// What the command line asks for.
#[derive(Clone, Copy, Debug, PartialEq, Eq)]
pub enum FilterAsk {
    /// A description of how the program is used.
    Help,
    /// A page, filtered with this setup.
    Page(Setup),
}

/// Why the command line asks for nothing.
#[derive(Clone, Copy, Debug, PartialEq, Eq)]
pub enum AskFault {
    /// The program doesn't accept the arguments.
    Bad,
    /// Memory ran out.
    NoMemory,
}

/// What the arguments ask for. They come without the program's name.
pub fn filter_ask_of(alloc: Global, words: &[String]) -> Result<FilterAsk, AskFault>
    ensures ok { IfOk result (IsFilterAsked (map string_bytes words.now)) }
    ensures bad { IsErrOf result AskFault.Bad
        → (ask : FilterAsk) → IsFilterAsked (map string_bytes words.now) ask → ⊥ }
    ensures can_filter { IfOk result (λ ask. (setup : Setup) → ask ≡ FilterAsk.Page setup
        → CanFilter setup) }
{
    let Ok(command) = filter_command(alloc) else {
        return Err(AskFault::NoMemory);
    };
    match command.try_get_matches_from(words) {
        Ok(matches) => match setup_of(&matches) {
            Some(setup) => Ok(FilterAsk::Page(setup)),
            None => Err(AskFault::Bad),
        },
        Err(error) => match error.kind() {
            ErrorKind::OutOfMemory => Err(AskFault::NoMemory),
            ErrorKind::DisplayHelp => Ok(FilterAsk::Help),
            _ => Err(AskFault::Bad),
        },
    }
}
