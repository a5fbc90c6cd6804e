//! Words of a text.
ghost use Rattle.std.specs.Prelude.{◌≡◌, ℕ, ◌+◌, ◌≤◌, List, ◌++◌, IfNone, IfSome, drop, length};

/// The index after `word`, if it starts at index `at`.
pub fn read_word(text: &[u8], at: usize, word: &[u8]) -> Option<usize>
    requires { at ≤ length text.now }
    ensures some { IfSome result (λ end. drop at text.now ≡ word.now ++ drop end text.now) }
    ensures end { IfSome result (λ end. end ≡ at + length word.now) }
    ensures within { IfSome result (λ end. end ≤ length text.now) }
    ensures none { IfNone result ((rest : List ℕ) → drop at text.now ≡ word.now ++ rest → ⊥) }
{
    if text[at..].starts_with(word) {
        Some(at + word.len())
    } else {
        None
    }
}
