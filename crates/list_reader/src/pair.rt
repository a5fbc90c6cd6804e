//! Two numbers after a space.
ghost use Rattle.std.specs.Prelude.{ℕ, ◌≤◌, List, IfNone, IfSome, drop, length};
ghost use Rattle.pt_base.specs.Whole.{IsDigit};
ghost use Rattle.list_reader.specs.Inner.LineEntries.{IsPair};
ghost use Rattle.list_reader.specs.Inner.TextParts.{EndsBehind};

use crate::byte::read_byte;
use crate::number::read_number;

/// Two numbers, and the index at which the second one ends.
#[derive(Clone, Copy, Debug)]
pub struct Pair {
    pub first: u64,
    pub second: u64,
    pub end: usize,
}

/// Reads a space, a number, the byte `separator` and another number, starting at index `at`. The numbers are at
/// most `most_first` and `most_second`.
pub fn read_pair(
    text: &[u8],
    at: usize,
    separator: u8,
    most_first: u64,
    most_second: u64,
) -> Option<Pair>
    requires at { at ≤ length text.now }
    requires separator { ¬ IsDigit separator }
    ensures some { IfSome result (λ p. IsPair separator most_first most_second (drop at text.now)
        p.first p.second (drop p.end text.now)) }
    ensures ends { IfSome result (λ p. EndsBehind at text.now p.end) }
    ensures none { IfNone result ((first second : ℕ) (rest : List ℕ)
        → IsPair separator most_first most_second (drop at text.now) first second rest → ⊥) }
{
    let spaced = read_byte(text, at, b' ')?;
    let first = read_number(text, spaced, most_first)?;
    let behind = read_byte(text, first.end, separator)?;
    let second = read_number(text, behind, most_second)?;
    Some(Pair {
        first: first.value,
        second: second.value,
        end: second.end,
    })
}
