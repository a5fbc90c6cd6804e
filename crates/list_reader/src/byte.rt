//! Single bytes of a text.
ghost use Rattle.std.specs.Prelude.{◌≡◌, ℕ, ◌+◌, ◌<◌, ◌≤◌, ◌↔◌, List, ◌∷◌, IfNone, IfSome, IsTrue, drop, length, slice_index};

/// Whether the byte at index `at` is `byte`.
pub fn has_byte(text: &[u8], at: usize, byte: u8) -> bool
    ensures { IsTrue result ↔ ((at < length text.now) × (slice_index text.now at ≡ byte)) }
{
    at < text.len() && text[at] == byte
}

/// The index after `at`, if the byte at `at` is `byte`.
pub fn read_byte(text: &[u8], at: usize, byte: u8) -> Option<usize>
    ensures some { IfSome result (λ end. drop at text.now ≡ byte ∷ drop end text.now) }
    ensures end { IfSome result (λ end. end ≡ at + 1) }
    ensures within { IfSome result (λ end. end ≤ length text.now) }
    ensures none { IfNone result ((rest : List ℕ) → drop at text.now ≡ byte ∷ rest → ⊥) }
{
    if has_byte(text, at, byte) {
        Some(at + 1)
    } else {
        None
    }
}
