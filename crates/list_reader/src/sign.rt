//! The sign and the area of a path.
ghost use Rattle.std.specs.Prelude.{◌≡◌, ℕ, ◌+◌, List, ◌++◌, IfNone, IfSome, drop};
ghost use Rattle.pt_base.specs.PointsText.{sign_text};
ghost use Rattle.pt_core.specs.declared.path.Sign.{Sign};
ghost use Rattle.list_reader.specs.Inner.SignedAreas.{IsSignedArea};
ghost use Rattle.list_reader.specs.Inner.TextParts.{EndsBehind};

use crate::byte::{has_byte, read_byte};
use crate::number::read_number;

/// The index after the sign at index `at`, if there is one.
fn read_sign(text: &[u8], at: usize) -> Option<usize>
    ensures some { IfSome result (λ end. (sign : Sign) × (drop at text.now ≡ sign_text sign ++ drop end text.now)) }
    ensures end { IfSome result (λ end. end ≡ at + 1) }
    ensures none { IfNone result ((sign : Sign) (rest : List ℕ)
        → drop at text.now ≡ sign_text sign ++ rest → ⊥) }
{
    if has_byte(text, at, b'+') {
        return Some(at + 1);
    }
    if has_byte(text, at, b'-') {
        return Some(at + 1);
    }
    None
}

/// The index after a sign, a space and an area that start at index `at`, if they are there.
pub fn read_signed_area(text: &[u8], at: usize) -> Option<usize>
    ensures some { IfSome result (λ end. (sign : Sign) × (area : ℕ)
        × IsSignedArea (drop at text.now) sign area (drop end text.now)) }
    ensures ends { IfSome result (λ end. EndsBehind at text.now end) }
    ensures none { IfNone result ((sign : Sign) (area : ℕ) (rest : List ℕ)
        → IsSignedArea (drop at text.now) sign area rest → ⊥) }
{
    let signed = read_sign(text, at)?;
    let spaced = read_byte(text, signed, b' ')?;
    let area = read_number(text, spaced, u64::MAX)?;
    Some(area.end)
}
