//! What words ask for: which of them `clap` takes how, and which values are in their ranges.

use page_samples::split;
use potrace_words::{Ask, WordFault, settings_of};
use pt_core::{Backend, NoMemory, Policy, Settings};
use run_output::Name;
use std::alloc::Global;

/// The settings where no word says otherwise.
const DEFAULTS: Settings = Settings {
    backend: Backend::Eps,
    policy: Policy::Minority,
    turd: 2,
    cyclic: false,
    alphamax: 1_000_000,
    long_curve: false,
    tolerance: 200_000,
    unit: 10,
    flat: false,
    level: 500_000,
    invert: false,
};

/// The number of workers where no word says otherwise.
const DEFAULT_WORKERS: u32 = 4;

/// A line of words with what they ask for: `Help`, `Version` or `Bad`, or the settings and workers that
/// aren't the defaults, and then either `Demo` with the number of made-up pages, or the files and `>` with
/// the output where one is named. The words have a space between them, so two spaces have an empty word
/// between them.
const LINES: &[(&str, &str)] = &[
    // Files, in any place, and what ends the options.
    ("", "-"),
    ("a.pbm", "a.pbm"),
    ("a.pbm -n b.pbm -i", "n i a.pbm b.pbm"),
    ("-", "-"),
    ("b - a", "b - a"),
    ("- -", "Bad"),
    ("a - b -", "Bad"),
    ("--", "-"),
    ("-- -h --", "-h --"),
    ("-n -- -n", "n -n"),
    ("-- - -", "Bad"),
    ("a  b", "Bad"),
    (" ", "Bad"),
    ("help", "help"),
    // Outputs.
    ("-o x a b", "a b > x"),
    ("a -ox", "a > x"),
    ("-o=x", "- > x"),
    ("--output x", "- > x"),
    ("--output=x", "- > x"),
    ("-o - a", "a > -"),
    ("-o  a", "Bad"),
    ("--output= a", "Bad"),
    ("-o", "Bad"),
    ("-o -n a", "Bad"),
    ("-o x -o x", "Bad"),
    // Backends.
    ("-s a", "Svg a"),
    ("--svg", "Svg -"),
    ("-e a", "a"),
    ("--eps", "-"),
    ("-b eps", "-"),
    ("-b svg", "Svg -"),
    ("-b ps", "Ps -"),
    ("-bdxf", "Dxf -"),
    ("-b=geojson", "GeoJson -"),
    ("--backend points", "Points -"),
    ("--backend=polygons", "Polygons -"),
    ("-bproofs", "Proofs -"),
    ("-b pdf", "Bad"),
    ("-b SVG", "Bad"),
    ("-b ", "Bad"),
    ("-b", "Bad"),
    ("-b -s", "Bad"),
    ("-s -e", "Bad"),
    ("-b svg -s", "Bad"),
    ("-b eps -e", "Bad"),
    ("-b svg -b svg", "Bad"),
    ("-s -s", "Bad"),
    // Policies.
    ("-z black", "Black -"),
    ("-zwhite", "White -"),
    ("-z=left", "Left -"),
    ("--turnpolicy right", "Right -"),
    ("--turnpolicy=majority", "Majority -"),
    ("-z minority", "-"),
    ("-z random", "Bad"),
    ("-z Left", "Bad"),
    ("-z left -z left", "Bad"),
    // The speckle limit.
    ("-t 0", "t0 -"),
    ("-t5 a", "t5 a"),
    ("-t=5 a", "t5 a"),
    ("--turdsize 1000000000", "t1000000000 -"),
    ("--turdsize=5", "t5 -"),
    ("-t 1000000001", "Bad"),
    ("-t 0000000007", "t7 -"),
    ("-t 00000000007", "Bad"),
    ("-t +5", "Bad"),
    ("-t -5", "Bad"),
    ("-t 1.0", "Bad"),
    ("-t ", "Bad"),
    ("-t x", "Bad"),
    ("a -t", "Bad"),
    ("-t 5 -t 5", "Bad"),
    ("--turd 5", "Bad"),
    ("-T 5", "Bad"),
    // The corner threshold.
    ("-a 0", "a0 -"),
    ("-a1.3", "a1300000 -"),
    ("-a=1000", "a1000000000 -"),
    ("--alphamax 1000.000001", "Bad"),
    ("--alphamax=1.", "-"),
    ("-a -1", "Bad"),
    // Joined curves.
    ("-n", "n -"),
    ("--longcurve a", "n a"),
    ("-n=1", "Bad"),
    ("-nn", "Bad"),
    ("-O 0", "O0 -"),
    ("-O.4", "O400000 -"),
    ("-O=1000", "O1000000000 -"),
    ("--opttolerance 1000.000001", "Bad"),
    ("--opttolerance=0.2", "-"),
    // The unit.
    ("-u 1", "u1 -"),
    ("-u1000", "u1000 -"),
    ("-u=0", "Bad"),
    ("--unit 1001", "Bad"),
    ("--unit=72", "u72 -"),
    // The black level.
    ("-k 0", "k0 -"),
    ("-k1", "k1000000 -"),
    ("-k=1.000001", "Bad"),
    ("--blacklevel 1.5", "Bad"),
    ("--blacklevel=0.25", "k250000 -"),
    ("-k .5", "-"),
    ("-k .", "Bad"),
    ("-k 0.1234567", "Bad"),
    // Options without values.
    ("-i", "i -"),
    ("--invert", "i -"),
    ("--invert=1", "Bad"),
    ("-c", "-"),
    ("--cleartext a", "a"),
    ("-c -c", "Bad"),
    ("--flat", "flat -"),
    ("--flat=true", "Bad"),
    ("--cyclic a", "cyclic a"),
    ("--cyclic=1", "Bad"),
    ("--cyclic --cyclic", "Bad"),
    ("-b proofs --cyclic a", "Bad"),
    ("--cyclic -b proofs --demo 1", "Bad"),
    ("-b proofs --cyclic -v", "Version"),
    ("-b polygons --cyclic a", "Polygons cyclic a"),
    ("--fla", "Bad"),
    ("-sni a", "Svg n i a"),
    ("-nit5 a", "t5 n i a"),
    ("-nt=5 a", "t5 n a"),
    ("-nq", "Bad"),
    // Workers.
    ("--workers 1", "workers1 -"),
    ("--workers 4", "-"),
    ("--workers 7", "workers7 -"),
    ("--workers=7", "workers7 -"),
    ("a --workers=64 b", "workers64 a b"),
    ("--workers 0000000007", "workers7 -"),
    ("--workers 00000000007", "Bad"),
    ("--workers 0", "Bad"),
    ("--workers 65", "Bad"),
    ("--workers=-1", "Bad"),
    ("--workers 2.0", "Bad"),
    ("--workers x", "Bad"),
    ("--workers ", "Bad"),
    ("--workers= a", "Bad"),
    ("a --workers", "Bad"),
    ("--workers -n", "Bad"),
    ("--workers 2 --workers 2", "Bad"),
    ("--work 3", "Bad"),
    ("-w 3", "Bad"),
    // Made-up pages.
    ("--demo 1", "Demo 1"),
    ("--demo=64", "Demo 64"),
    ("--demo 003", "Demo 3"),
    ("--demo 3 --", "Demo 3"),
    ("-st5 --demo 3 --workers 7", "Svg t5 workers7 Demo 3"),
    ("--demo 0", "Bad"),
    ("--demo 65", "Bad"),
    ("--demo x", "Bad"),
    ("--demo ", "Bad"),
    ("--demo=", "Bad"),
    ("--demo", "Bad"),
    ("--demo 3 --demo 3", "Bad"),
    ("--dem 3", "Bad"),
    ("-d 3", "Bad"),
    ("--demo 1 x.pbm", "Bad"),
    ("x.pbm --demo 1", "Bad"),
    ("--demo 1 -", "Bad"),
    ("--demo 1 ", "Bad"),
    ("--demo 1 -o x", "Bad"),
    ("--output=- --demo 1", "Bad"),
    ("--demo 1 --workers 0", "Bad"),
    ("--demo 1 -t x", "Bad"),
    ("--demo 1 -s -e", "Bad"),
    // Options that aren't there.
    ("-V", "Bad"),
    ("-5", "Bad"),
    // Help and the version.
    ("-h", "Help"),
    ("--help", "Help"),
    ("-v", "Version"),
    ("--version", "Version"),
    ("-v -h", "Help"),
    ("-vh", "Help"),
    ("-hv", "Help"),
    ("-v -t x", "Version"),
    ("-v -s -e", "Version"),
    ("a  b - - -v", "Version"),
    ("-v -v", "Bad"),
    ("-v --demo 65 a -o x", "Version"),
    ("--workers 0 -v", "Version"),
    ("-t -h", "Bad"),
    ("-t 5 -t 5 -h", "Bad"),
    ("--demo 3 -h", "Help"),
    ("--demo 65 a -h", "Help"),
    ("-h --demo 3", "Help"),
    ("-h --work 3", "Help"),
    ("--work 3 -h", "Bad"),
    ("--demo -h", "Bad"),
    ("--demo 3 --demo 3 -h", "Bad"),
    ("-t x -h", "Help"),
    ("-hq", "Help"),
    ("-h -t 5 -t 5", "Help"),
    ("-h=1", "Help"),
    ("--help=1", "Bad"),
    ("--vers", "Bad"),
];

#[test]
fn lines_of_words(rt: HostRuntime) -> Result<(), NoMemory> {
    for (line, asked) in LINES {
        let words = split(rt.alloc(), line)?;
        let text = told(rt.alloc(), &words)?;
        assert_eq!(rt; text.as_str(), *asked, "{line}");
    }
    Ok(())
}

/// What the words ask for.
fn told(alloc: Global, words: &[String]) -> Result<String, NoMemory> {
    let text = match settings_of(alloc, words) {
        Ok(ask) => shown(alloc, &ask)?,
        Err(WordFault::Bad) => String::from_str(alloc, "Bad")?,
        Err(WordFault::NoMemory) => String::from_str(alloc, "NoMemory")?,
    };
    Ok(text)
}

fn shown(alloc: Global, ask: &Ask) -> Result<String, NoMemory> {
    let mut text = String::new(alloc);
    match ask {
        Ask::Help => text.push_str("Help")?,
        Ask::Version => text.push_str("Version")?,
        Ask::Demo {
            pages,
            workers,
            settings,
        } => {
            put_settings(alloc, &mut text, settings, *workers)?;
            text.push_str(format!(in alloc; "Demo {pages}")?.as_str())?;
        }
        Ask::Files {
            names,
            output,
            workers,
            settings,
        } => {
            put_settings(alloc, &mut text, settings, *workers)?;
            put_names(&mut text, names.as_slice())?;
            put_output(&mut text, output)?;
        }
    }
    Ok(text)
}

/// What isn't as it is where no word says otherwise.
fn put_settings(
    alloc: Global,
    text: &mut String,
    settings: &Settings,
    workers: u32,
) -> Result<(), NoMemory> {
    put_values(alloc, text, settings)?;
    put_flags(text, settings)?;
    put_number(alloc, text, "workers", workers, DEFAULT_WORKERS)
}

/// The values that aren't the defaults.
fn put_values(alloc: Global, text: &mut String, settings: &Settings) -> Result<(), NoMemory> {
    if settings.backend != DEFAULTS.backend {
        text.push_str(format!(in alloc; "{:?} ", settings.backend)?.as_str())?;
    }
    if settings.policy != DEFAULTS.policy {
        text.push_str(format!(in alloc; "{:?} ", settings.policy)?.as_str())?;
    }
    put_number(alloc, text, "t", settings.turd, DEFAULTS.turd)?;
    put_number(alloc, text, "a", settings.alphamax, DEFAULTS.alphamax)?;
    put_number(alloc, text, "O", settings.tolerance, DEFAULTS.tolerance)?;
    put_number(alloc, text, "u", settings.unit, DEFAULTS.unit)?;
    put_number(alloc, text, "k", settings.level, DEFAULTS.level)
}

/// A number behind its name, where it isn't the default.
fn put_number(
    alloc: Global,
    text: &mut String,
    name: &str,
    number: u32,
    default: u32,
) -> Result<(), NoMemory> {
    if number != default {
        let word = format!(in alloc; "{name}{number} ")?;
        text.push_str(&word)?;
    }
    Ok(())
}

/// The flags that are set.
fn put_flags(text: &mut String, settings: &Settings) -> Result<(), NoMemory> {
    for (name, set) in [
        ("n ", settings.long_curve),
        ("i ", settings.invert),
        ("flat ", settings.flat),
        ("cyclic ", settings.cyclic),
    ] {
        if set {
            text.push_str(name)?;
        }
    }
    Ok(())
}

/// The names with a space between them.
fn put_names(text: &mut String, names: &[Name]) -> Result<(), NoMemory> {
    for (i, name) in names.iter().enumerate() {
        if i > 0 {
            text.push_str(" ")?;
        }
        text.push_str(name.as_str())?;
    }
    Ok(())
}

/// The output's name behind `>`, where there is one.
fn put_output(text: &mut String, output: &Option<Name>) -> Result<(), NoMemory> {
    if let Some(name) = output {
        text.push_str(" > ")?;
        text.push_str(name.as_str())?;
    }
    Ok(())
}
