//! The command that describes the options to `clap`.
ghost use Rattle.std.specs.Prelude.{◌≡◌, IfOk, codes, false, map};
ghost use Rattle.clap.specs.Simple.{app_of};
ghost use Rattle.clap.specs.Walk.{rule_of};
ghost use Rattle.potrace_options.specs.Command.{command, operands, with_rules};
ghost use Rattle.potrace_options.specs.Inner.Command.{rule_of_row};

use clap::{Arg, ArgAction, Command};
use std::alloc::{AllocError, Global};

/// An option: its short name, if it has one, its long name, and what its use does.
struct OptionRow<'a>(Option<char>, &'a str, ArgAction);

/// The program's options.
const OPTIONS: &[OptionRow<'static>] = &[
    // What is written, and to which file.
    OptionRow(Some('b'), "backend", ArgAction::Set),
    OptionRow(Some('s'), "svg", ArgAction::SetTrue),
    OptionRow(Some('e'), "eps", ArgAction::SetTrue),
    OptionRow(Some('o'), "output", ArgAction::Set),
    // How outlines are made.
    OptionRow(Some('z'), "turnpolicy", ArgAction::Set),
    OptionRow(Some('t'), "turdsize", ArgAction::Set),
    OptionRow(Some('a'), "alphamax", ArgAction::Set),
    OptionRow(Some('n'), "longcurve", ArgAction::SetTrue),
    OptionRow(Some('O'), "opttolerance", ArgAction::Set),
    OptionRow(None, "cyclic", ArgAction::SetTrue),
    // How pages are read and shown.
    OptionRow(Some('u'), "unit", ArgAction::Set),
    OptionRow(Some('k'), "blacklevel", ArgAction::Set),
    OptionRow(Some('i'), "invert", ArgAction::SetTrue),
    OptionRow(Some('c'), "cleartext", ArgAction::SetTrue),
    OptionRow(None, "flat", ArgAction::SetTrue),
    // What the program does, and with how many workers.
    OptionRow(None, "workers", ArgAction::Set),
    OptionRow(None, "demo", ArgAction::Set),
    OptionRow(Some('v'), "version", ArgAction::SetTrue),
];

/// The program's command. Its arguments don't include the program's name.
pub(crate) fn program<'a>(alloc: Global) -> Result<Command<'a>, AllocError>
    ensures { IfOk result (λ c. app_of c ≡ command) }
{
    let command = Command::new(alloc, "potrace").no_binary_name(true);
    let command = with_options(alloc, command, OPTIONS)?;
    command.arg(files(alloc))
}

/// Adds these options to a command.
fn with_options<'a>(
    alloc: Global,
    command: Command<'a>,
    rows: &[OptionRow<'a>],
) -> Result<Command<'a>, AllocError>
    ensures { IfOk result (λ c. app_of c ≡ with_rules (app_of command.entry) (map rule_of_row rows.now)) }
{
    let mut command = command;
    for row in rows {
        command = command.arg(option(alloc, row))?;
    }
    Ok(command)
}

/// An option, `-s` or `--name`.
fn option<'a>(alloc: Global, row: &OptionRow<'a>) -> Arg<'a>
    ensures rule { rule_of result ≡ rule_of_row row.now }
    ensures local { result.global ≡ false }
{
    let OptionRow(short, name, action) = row;
    let arg = Arg::new(alloc, name).long(name).action(*action);
    match short {
        Some(short) => arg.short(*short),
        None => arg,
    }
}

/// Any number of arguments that are neither an option nor an option's value.
fn files<'a>(alloc: Global) -> Arg<'a>
    ensures rule { rule_of result ≡ operands (codes "file") }
    ensures local { result.global ≡ false }
{
    Arg::new(alloc, "file").action(ArgAction::Append)
}
