//! The setup of the filter, as the options give it.
ghost use Rattle.std.specs.Prelude.{◌≡◌, ◌≤◌, ℕ, IfNone, IfSome, option_map};
ghost use Rattle.clap.specs.Matches.{found_of};
ghost use Rattle.clap.specs.Walk.{first_of, rows_of};
ghost use Rattle.mkbitmap_words.specs.FilterAsked.{GivesSetup, option_text};
ghost use Rattle.mkbitmap.specs.declared.limits.TheConstants.{GREATEST_LEVEL};
ghost use Rattle.pt_base.specs.Micro.{IsMicro};

use clap::ArgMatches;
use mkbitmap::{GREATEST_LEVEL, GREATEST_RADIUS, GREATEST_TIMES};
use pt_base::{read_micro, read_whole};

/// How a page is filtered.
#[derive(Clone, Copy, Debug, PartialEq, Eq)]
pub struct Setup {
    /// The radius of the box around a pixel, in pixels.
    pub radius: u32,
    /// The number of pixels of the result for one pixel of the page, along a side.
    pub times: u32,
    /// The brightness up to which a pixel is black, in millionths of white.
    pub level: u32,
}

/// The setup that the options give. `None` if a value is out of its range.
pub(crate) fn setup_of(matches: &ArgMatches) -> Option<Setup>
    ensures gives { IfSome result (GivesSetup (rows_of (found_of matches.now))) }
    ensures refused { IfNone result ((setup : Setup)
        → GivesSetup (rows_of (found_of matches.now)) setup → ⊥) }
{
    let Ok(radius) = read_whole(text_of(matches, "box", "4"), 0, GREATEST_RADIUS as u32) else {
        return None;
    };
    let Ok(times) = read_whole(text_of(matches, "times", "2"), 1, GREATEST_TIMES) else {
        return None;
    };
    let Some(level) = level_of(text_of(matches, "level", "0.45")) else {
        return None;
    };
    Some(Setup {
        radius,
        times,
        level,
    })
}

/// The value of an option, or the default if the option isn't given.
fn text_of<'a>(matches: &ArgMatches<'a>, name: &str, default: &'a str) -> &'a str
    ensures { result.now ≡ option_text name.now default.now (rows_of (found_of matches.now)) }
{
    match value_of(matches, name) {
        Some(text) => text,
        None => default,
    }
}

/// The value of an option, if the option is given.
fn value_of<'a>(matches: &ArgMatches<'a>, name: &str) -> Option<&'a str>
    ensures { option_map (λ s. s.now) result ≡ first_of name.now (rows_of (found_of matches.now)) }
{
    matches.get_str(name)
}

/// A level, in millionths. `None` if it is out of its range.
fn level_of(text: &str) -> Option<u32>
    ensures read { IfSome result (λ n. IsMicro text.now n × (n ≤ GREATEST_LEVEL)) }
    ensures refused { IfNone result ((n : ℕ) → IsMicro text.now n → n ≤ GREATEST_LEVEL → ⊥) }
{
    let Ok(n) = read_micro(text) else {
        return None;
    };
    if n <= GREATEST_LEVEL { Some(n) } else { None }
}
