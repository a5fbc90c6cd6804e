//! What the command line gives, option by option.
ghost use Rattle.std.specs.Prelude.{◌≡◌, [], IfOk, codes, map, option_map, unwrap_or};
ghost use Rattle.clap.specs.Matches.{found_of};
ghost use Rattle.clap.specs.Walk.{all_of, first_of, rows_of};
ghost use Rattle.potrace_options.specs.Given.{given_of, is_set};

use clap::ArgMatches;
use run_output::{Name, Names};
use std::alloc::{AllocError, Global};
use std::marker::Model;

/// What the command line gives: the value of each option that is present, whether each flag is present, and the file
/// names in order. Values are texts as they were typed.
#[derive(Debug, Drop)]
pub struct Given<'w> {
    pub backend: Option<&'w str>,
    pub svg: bool,
    pub eps: bool,
    pub output: Option<&'w str>,
    pub turnpolicy: Option<&'w str>,
    pub turdsize: Option<&'w str>,
    pub cyclic: bool,
    pub alphamax: Option<&'w str>,
    pub longcurve: bool,
    pub opttolerance: Option<&'w str>,
    pub unit: Option<&'w str>,
    pub blacklevel: Option<&'w str>,
    pub invert: bool,
    pub flat: bool,
    pub workers: Option<&'w str>,
    pub demo: Option<&'w str>,
    pub version: bool,
    pub files: Names,
}

impl<'w> Model for Given<'w> {
    ghost use Rattle.std.specs.Prelude.{option_map};
    ghost use Rattle.potrace_options.specs.Given.{Given};

    ghost Value = { Given };

    ghost view = { λ g. record {
      backend = option_map (λ s. s.now) g.backend;
      svg = g.svg;
      eps = g.eps;
      output = option_map (λ s. s.now) g.output;
      turnpolicy = option_map (λ s. s.now) g.turnpolicy;
      turdsize = option_map (λ s. s.now) g.turdsize;
      cyclic = g.cyclic;
      alphamax = option_map (λ s. s.now) g.alphamax;
      longcurve = g.longcurve;
      opttolerance = option_map (λ s. s.now) g.opttolerance;
      unit = option_map (λ s. s.now) g.unit;
      blacklevel = option_map (λ s. s.now) g.blacklevel;
      invert = g.invert;
      flat = g.flat;
      workers = option_map (λ s. s.now) g.workers;
      demo = option_map (λ s. s.now) g.demo;
      version = g.version;
      files = g.files;
    } };
}

/// Reads what `clap` found. `--cleartext` is accepted and ignored.
pub(crate) fn given_of<'w>(alloc: Global, matches: &ArgMatches<'w>) -> Result<Given<'w>, AllocError>
    ensures { IfOk result (λ given. given ≡ given_of (rows_of (found_of matches.now))) }
{
    let files = files_of(alloc, matches)?;
    Ok(Given {
        backend: value_of(matches, "backend"),
        svg: is_set(matches, "svg"),
        eps: is_set(matches, "eps"),
        output: value_of(matches, "output"),
        turnpolicy: value_of(matches, "turnpolicy"),
        turdsize: value_of(matches, "turdsize"),
        cyclic: is_set(matches, "cyclic"),
        alphamax: value_of(matches, "alphamax"),
        longcurve: is_set(matches, "longcurve"),
        opttolerance: value_of(matches, "opttolerance"),
        unit: value_of(matches, "unit"),
        blacklevel: value_of(matches, "blacklevel"),
        invert: is_set(matches, "invert"),
        flat: is_set(matches, "flat"),
        workers: value_of(matches, "workers"),
        demo: value_of(matches, "demo"),
        version: is_set(matches, "version"),
        files,
    })
}

/// The value of the option of this name, if the option is present.
fn value_of<'w>(matches: &ArgMatches<'w>, name: &str) -> Option<&'w str>
    ensures { option_map (λ s. s.now) result ≡ first_of name.now (rows_of (found_of matches.now)) }
{
    matches.get_str(name)
}

/// Whether the flag of this name is present.
fn is_set(matches: &ArgMatches, name: &str) -> bool
    ensures { result ≡ is_set name.now (rows_of (found_of matches.now)) }
{
    match value_of(matches, name) {
        Some(value) => value == "true",
        None => false,
    }
}

/// The file names in order.
fn files_of(alloc: Global, matches: &ArgMatches) -> Result<Names, AllocError>
    ensures { IfOk result
        (λ files. files ≡ unwrap_or (all_of (codes "file") (rows_of (found_of matches.now))) []) }
{
    match matches.get_raw("file") {
        Some(files) => names_of(alloc, files),
        None => Ok(Names::new(alloc)),
    }
}

/// A list of the given names.
fn names_of(alloc: Global, texts: &[&str]) -> Result<Names, AllocError>
    ensures { IfOk result (λ names. names ≡ map (λ text. text.now) texts.now) }
{
    let mut names = Names::new(alloc);
    for text in texts {
        names.push(Name::from_str(alloc, text)?)?;
    }
    Ok(names)
}
