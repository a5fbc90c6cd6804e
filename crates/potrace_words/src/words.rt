//! Reading the command line.
ghost use Rattle.std.specs.Str.{bytes_eq};
ghost use Rattle.std.specs.Prelude.{◌≡◌, ◌≢◌, ◌↔◌, ℕ, [], All, IfNone, IfOk, IfSome, IsErrOf, IsTrue, None, Some, count_by, false, map, option_map, string_bytes};
ghost use Rattle.run_output.specs.Names.{dash};
ghost use Rattle.potrace_words.specs.Asked.{AreProper, Asks, AsksOf, CanBeDone, GivesSettings, IsAsked, IsWholeOf, IsWholeOr, inputs_of};
ghost use Rattle.potrace_words.specs.declared.ask.Ask.{Ask};

use crate::ask::{Ask, WordFault};
use crate::numbers::{whole_of, whole_or};
use crate::settings_given::settings_given;
use potrace_options::{Given, Parsed, parse};
use pt_core::Settings;
use run_output::{Name, Names};
use std::alloc::{AllocError, Global};

/// The default number of workers.
const DEFAULT_WORKERS: u32 = 4;

/// The greatest number of workers.
const GREATEST_WORKERS: u32 = 64;

/// The greatest number of made-up pages.
const GREATEST_DEMO: u32 = 64;

/// What the arguments ask for. They come without the program's name.
pub fn settings_of(alloc: Global, words: &[String]) -> Result<Ask, WordFault>
    ensures ok { IfOk result (IsAsked (map string_bytes words.now)) }
    ensures bad { IsErrOf result WordFault.Bad
        → (ask : Ask) → IsAsked (map string_bytes words.now) ask → ⊥ }
    ensures can_be_done { IfOk result CanBeDone }
{
    match parse(alloc, words) {
        Ok(parsed) => ask_of(alloc, parsed),
        Err(_) => Err(WordFault::NoMemory),
    }
}

/// What a parsed command line asks for.
fn ask_of(alloc: Global, parsed: Parsed) -> Result<Ask, WordFault>
    ensures ok { IfOk result (Asks parsed.entry) }
    ensures bad { IsErrOf result WordFault.Bad → (ask : Ask) → Asks parsed.entry ask → ⊥ }
{
    match parsed {
        Parsed::Help => Ok(Ask::Help),
        Parsed::Refused => Err(WordFault::Bad),
        Parsed::Gives(given) => given_ask(alloc, given),
    }
}

/// What the options and files ask for.
fn given_ask(alloc: Global, given: Given) -> Result<Ask, WordFault>
    ensures ok { IfOk result (AsksOf given.entry.version given.entry) }
    ensures bad { IsErrOf result WordFault.Bad
        → (ask : Ask) → AsksOf given.entry.version given.entry ask → ⊥ }
{
    if given.version {
        return Ok(Ask::Version);
    }
    let Some(settings) = settings_given(&given) else {
        return Err(WordFault::Bad);
    };
    let Some(workers) = workers_given(given.workers) else {
        return Err(WordFault::Bad);
    };
    if given.demo.is_some() {
        demo_ask(given, workers, settings)
    } else {
        files_ask(alloc, given, workers, settings)
    }
}

/// The number of workers. `None` if it is out of its range.
fn workers_given(text: Option<&str>) -> Option<u32>
    ensures taken { IfSome result (IsWholeOr (option_map (λ s. s.now) text.entry) 4 1 64) }
    ensures refused { IfNone result ((workers : ℕ)
        → IsWholeOr (option_map (λ s. s.now) text.entry) 4 1 64 workers → ⊥) }
{
    whole_or(text, DEFAULT_WORKERS, 1, GREATEST_WORKERS)
}

/// The number of made-up pages. `None` if it isn't given or is out of its range.
fn demo_given(text: Option<&str>) -> Option<u32>
    ensures taken { IfSome result (IsWholeOf (option_map (λ s. s.now) text.entry) 1 64) }
    ensures refused { IfNone result ((pages : ℕ)
        → IsWholeOf (option_map (λ s. s.now) text.entry) 1 64 pages → ⊥) }
{
    whole_of(text, 1, GREATEST_DEMO)
}

/// Asks for made-up pages to be traced. It is an error if their number is out of its range, or if a file or an output
/// is named.
fn demo_ask(given: Given, workers: u32, settings: Settings) -> Result<Ask, WordFault>
    requires demo { given.demo ≢ None }
    requires workers { IsWholeOr given.workers 4 1 64 workers }
    requires settings { GivesSettings given settings }
    ensures ok { IfOk result (AsksOf false given.entry) }
    ensures bad { IsErrOf result WordFault.Bad → (ask : Ask) → AsksOf false given.entry ask → ⊥ }
{
    if !given.files.as_slice().is_empty() || given.output.is_some() {
        return Err(WordFault::Bad);
    }
    match demo_given(given.demo) {
        Some(pages) => Ok(Ask::Demo {
            pages,
            workers,
            settings,
        }),
        None => Err(WordFault::Bad),
    }
}

/// Asks for the files to be traced. It is an error if a name is empty, or if standard input is named more than once.
fn files_ask(
    alloc: Global,
    given: Given,
    workers: u32,
    settings: Settings,
) -> Result<Ask, WordFault>
    requires no_demo { given.demo ≡ None }
    requires workers { IsWholeOr given.workers 4 1 64 workers }
    requires settings { GivesSettings given settings }
    ensures ok { IfOk result (AsksOf false given.entry) }
    ensures bad { IsErrOf result WordFault.Bad → (ask : Ask) → AsksOf false given.entry ask → ⊥ }
{
    if !are_proper(given.files.as_slice()) || is_empty_name(given.output) {
        return Err(WordFault::Bad);
    }
    let Ok(output) = owned(alloc, given.output) else {
        return Err(WordFault::NoMemory);
    };
    let Ok(names) = inputs_of(alloc, given.files) else {
        return Err(WordFault::NoMemory);
    };
    Ok(Ask::Files {
        names,
        output,
        workers,
        settings,
    })
}

/// Whether there is a name and it is empty.
fn is_empty_name(name: Option<&str>) -> bool
    ensures { IsTrue result ↔ (option_map (λ s. s.now) name.entry ≡ Some []) }
{
    match name {
        Some(name) => name.is_empty(),
        None => false,
    }
}

/// An owned copy of a name, if there is one.
fn owned(alloc: Global, name: Option<&str>) -> Result<Option<Name>, AllocError>
    ensures { IfOk result (λ copy. copy ≡ option_map (λ s. s.now) name.entry) }
{
    match name {
        Some(name) => Ok(Some(Name::from_str(alloc, name)?)),
        None => Ok(None),
    }
}

/// The files to read: the named ones, or standard input if none is named.
fn inputs_of(alloc: Global, mut files: Names) -> Result<Names, AllocError>
    ensures { IfOk result (λ names. names ≡ inputs_of files) }
{
    if files.as_slice().is_empty() {
        files.push(Name::from_str(alloc, "-")?)?;
    }
    Ok(files)
}

/// Whether no name is empty, and standard input is named at most once.
fn are_proper(files: &[Name]) -> bool
    ensures { IsTrue result ↔ AreProper files.now }
{
    are_named(files) && dashes_in(files) <= 1
}

/// Whether no name is empty.
fn are_named(files: &[Name]) -> bool
    ensures { IsTrue result ↔ All (λ name. name ≢ []) files.now }
{
    files.iter().all(|file| !file.as_str().is_empty())
}

/// How many of the names mean standard input.
fn dashes_in(files: &[Name]) -> usize
    ensures { result ≡ count_by (λ name. bytes_eq name dash) files.now }
{
    let mut dashes: usize = 0;
    for file in files {
        if file.as_str() == "-" {
            dashes += 1;
        }
    }
    dashes
}
