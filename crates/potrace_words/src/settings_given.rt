//! The settings that the options give.
ghost use Rattle.std.specs.Prelude.{◌≡◌, IfNone, IfSome, option_map};
ghost use Rattle.potrace_words.specs.Asked.{GivesSettings, NamesBackend, NamesPolicy, policy_word};
ghost use Rattle.pt_core.specs.declared.policy.Policy.{Policy};
ghost use Rattle.pt_core.specs.declared.settings.Backend.{Backend};
ghost use Rattle.pt_core.specs.declared.settings.Settings.{Settings};

use crate::numbers::{micro_or, whole_or};
use potrace_options::Given;
use pt_core::{Backend, Policy, Settings, backend_of};

/// The default speckle limit, in pixels.
const DEFAULT_SPECKLE: u32 = 2;

/// The greatest speckle limit, in pixels.
const GREATEST_SPECKLE: u32 = 1_000_000_000;

/// The default corner threshold, in millionths.
const DEFAULT_ALPHAMAX: u32 = 1_000_000;

/// The greatest corner threshold, in millionths.
const GREATEST_ALPHAMAX: u32 = 1_000_000_000;

/// The default tolerance of joined curves, in millionths of a pixel.
const DEFAULT_TOLERANCE: u32 = 200_000;

/// The greatest tolerance, in millionths of a pixel.
const GREATEST_TOLERANCE: u32 = 1_000_000_000;

/// The default number of units per pixel.
const DEFAULT_UNIT: u32 = 10;

/// The least number of units per pixel.
const LEAST_UNIT: u32 = 1;

/// The greatest number of units per pixel.
const GREATEST_UNIT: u32 = 1000;

/// The default black level, in millionths.
const DEFAULT_LEVEL: u32 = 500_000;

/// The greatest black level, in millionths.
const GREATEST_LEVEL: u32 = 1_000_000;

/// The settings that the options give. `None` if a value is out of its range, if more than one backend is named, or if
/// certificates are asked for together with `--cyclic`.
pub(crate) fn settings_given(given: &Given) -> Option<Settings>
    ensures given { IfSome result (GivesSettings given.now) }
    ensures refused { IfNone result ((settings : Settings) → GivesSettings given.now settings → ⊥) }
{
    let backend = backend_given(given.backend, given.svg, given.eps)?;
    if backend == Backend::Proofs && given.cyclic {
        return None;
    }
    let policy = policy_given(given.turnpolicy)?;
    let turd = whole_or(given.turdsize, DEFAULT_SPECKLE, 0, GREATEST_SPECKLE)?;
    let alphamax = micro_or(given.alphamax, DEFAULT_ALPHAMAX, GREATEST_ALPHAMAX)?;
    let tolerance = micro_or(given.opttolerance, DEFAULT_TOLERANCE, GREATEST_TOLERANCE)?;
    let unit = whole_or(given.unit, DEFAULT_UNIT, LEAST_UNIT, GREATEST_UNIT)?;
    let level = micro_or(given.blacklevel, DEFAULT_LEVEL, GREATEST_LEVEL)?;
    Some(Settings {
        backend,
        policy,
        turd,
        cyclic: given.cyclic,
        alphamax,
        long_curve: given.longcurve,
        tolerance,
        unit,
        flat: given.flat,
        level,
        invert: given.invert,
    })
}

/// The backend that `-b`, `-s` or `-e` names, or EPS if none of them is given. `None` if more than one is given.
fn backend_given(name: Option<&str>, svg: bool, eps: bool) -> Option<Backend>
    ensures named { IfSome result (NamesBackend (option_map (λ s. s.now) name.entry) svg eps) }
    ensures refused { IfNone result ((backend : Backend)
        → NamesBackend (option_map (λ s. s.now) name.entry) svg eps backend → ⊥) }
{
    match name {
        Some(name) => if svg || eps { None } else { backend_of(name) },
        None => if !svg {
            Some(Backend::Eps)
        } else if eps {
            None
        } else {
            Some(Backend::Svg)
        },
    }
}

/// The turn policy that `-z` names, or the default.
fn policy_given(name: Option<&str>) -> Option<Policy>
    ensures named { IfSome result (NamesPolicy (option_map (λ s. s.now) name.entry)) }
    ensures refused { IfNone result ((policy : Policy)
        → NamesPolicy (option_map (λ s. s.now) name.entry) policy → ⊥) }
{
    match name {
        Some(name) => policy_of(name),
        None => Some(Policy::Minority),
    }
}

/// The turn policy of this name.
fn policy_of(word: &str) -> Option<Policy>
    ensures named { IfSome result (λ policy. word.now ≡ policy_word policy) }
    ensures unnamed { IfNone result ((policy : Policy) → word.now ≡ policy_word policy → ⊥) }
{
    match word {
        "left" => Some(Policy::Left),
        "right" => Some(Policy::Right),
        "black" => Some(Policy::Black),
        "white" => Some(Policy::White),
        "majority" => Some(Policy::Majority),
        "minority" => Some(Policy::Minority),
        _ => None,
    }
}
