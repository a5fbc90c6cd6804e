//! Numbers on the command line, and their defaults.
ghost use Rattle.std.specs.Prelude.{◌≤◌, ◌*◌, ◌^◌, ℕ, IfNone, IfSome, option_map};
ghost use Rattle.pt_base.specs.Micro.{IsMicro};
ghost use Rattle.potrace_words.specs.Asked.{IsMicroOr, IsWholeOf, IsWholeOr};

use pt_base::{read_micro, read_whole};

/// The whole number from `least` to `most` that this text spells, or the default if there is no text. `None` if the
/// text is no such number.
pub(crate) fn whole_or(text: Option<&str>, default: u32, least: u32, most: u32) -> Option<u32>
    ensures taken { IfSome result
        (IsWholeOr (option_map (λ s. s.now) text.entry) default least most) }
    ensures refused { IfNone result ((n : ℕ)
        → IsWholeOr (option_map (λ s. s.now) text.entry) default least most n → ⊥) }
{
    match text {
        None => Some(default),
        Some(_) => whole_of(text, least, most),
    }
}

/// The whole number from `least` to `most` that this text spells. `None` if there is no text or it is no such number.
pub(crate) fn whole_of(text: Option<&str>, least: u32, most: u32) -> Option<u32>
    ensures taken { IfSome result (IsWholeOf (option_map (λ s. s.now) text.entry) least most) }
    ensures refused { IfNone result ((n : ℕ)
        → IsWholeOf (option_map (λ s. s.now) text.entry) least most n → ⊥) }
{
    match read_whole(text?, least, most) {
        Ok(n) => Some(n),
        Err(_) => None,
    }
}

/// The decimal number that this text spells, in millionths and at most `most`, or the default if there is no text.
/// `None` if the text is no such number.
pub(crate) fn micro_or(text: Option<&str>, default: u32, most: u32) -> Option<u32>
    requires { most ≤ 1000 * 10 ^ 6 }
    ensures taken { IfSome result (IsMicroOr (option_map (λ s. s.now) text.entry) default most) }
    ensures refused { IfNone result ((n : ℕ)
        → IsMicroOr (option_map (λ s. s.now) text.entry) default most n → ⊥) }
{
    match text {
        None => Some(default),
        Some(text) => micro_at_most(text, most),
    }
}

/// The decimal number that this text spells, in millionths, if it is at most `most`.
fn micro_at_most(text: &str, most: u32) -> Option<u32>
    requires { most ≤ 1000 * 10 ^ 6 }
    ensures read { IfSome result (λ n. IsMicro text.now n × (n ≤ most)) }
    ensures refused { IfNone result ((n : ℕ) → IsMicro text.now n → n ≤ most → ⊥) }
{
    let Ok(n) = read_micro(text) else {
        return None;
    };
    if n <= most { Some(n) } else { None }
}
