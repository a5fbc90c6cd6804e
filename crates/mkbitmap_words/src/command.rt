//! The command that describes the options to `clap`.
ghost use Rattle.std.specs.Prelude.{◌≡◌, IfOk, false};
ghost use Rattle.clap.specs.Simple.{app_of};
ghost use Rattle.clap.specs.Walk.{rule_of};
ghost use Rattle.potrace_options.specs.Command.{long_option};
ghost use Rattle.mkbitmap_words.specs.FilterAsked.{filter_command};

use clap::{Arg, ArgAction, Command};
use std::alloc::{AllocError, Global};

/// The program's command. Its arguments don't include the program's name.
pub(crate) fn filter_command<'a>(alloc: Global) -> Result<Command<'a>, AllocError>
    ensures { IfOk result (λ c. app_of c ≡ filter_command) }
{
    let command = Command::new(alloc, "mkbitmap").no_binary_name(true);
    let command = command.arg(long_option(alloc, "box"))?;
    let command = command.arg(long_option(alloc, "times"))?;
    command.arg(long_option(alloc, "level"))
}

/// An option with a value and without a short name.
fn long_option<'a>(alloc: Global, name: &'a str) -> Arg<'a>
    ensures rule { rule_of result ≡ long_option name.now }
    ensures local { result.global ≡ false }
{
    Arg::new(alloc, name).long(name).action(ArgAction::Set)
}
