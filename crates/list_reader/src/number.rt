//! Decimal numbers without needless zeros.
ghost use Rattle.std.specs.Prelude.{◌≡◌, ℕ, ◌^◌, ◌<◌, ◌≤◌, ◌↔◌, List, All, IfNone, IfSome, IsTrue, decimal, drop, length};
ghost use Rattle.pt_base.specs.Whole.{IsDigit, value_after};
ghost use Rattle.list_reader.specs.Inner.Numerals.{IsDigitsEnd, IsNumeral, IsPlain, IsPlainValue};
ghost use Rattle.list_reader.specs.Inner.TextParts.{EndsBehind};
ghost use Rattle.list_reader.specs.declared.number.TheConstants.{MOST_DIGITS};

/// The most digits of a number below 2^64.
const MOST_DIGITS: usize = 20;

/// A number, and the index at which it ends.
#[derive(Clone, Copy, Debug, PartialEq, Eq)]
pub struct Number {
    pub value: u64,
    pub end: usize,
}

/// Reads the number that starts at index `at`, with all digits that follow. The result is `None` if there is no
/// number, if it has a needless zero, or if it is greater than `most`.
pub fn read_number(text: &[u8], at: usize, most: u64) -> Option<Number>
    requires { at ≤ length text.now }
    ensures some { IfSome result
        (λ n. IsNumeral most (drop at text.now) n.value (drop n.end text.now)) }
    ensures ends { IfSome result (λ n. EndsBehind at text.now n.end) }
    ensures none { IfNone result ((n : ℕ) (rest : List ℕ) → IsNumeral most (drop at text.now) n rest → ⊥) }
{
    let end = digits_end(text, at);
    let Some(value) = plain_value(&text[at..end]) else {
        return None;
    };
    if u128::from(most) < value {
        return None;
    }
    Some(Number {
        value: value as u64,
        end,
    })
}

/// The index after the last digit of the run of digits that starts at `at`. It is `at` if there is none.
fn digits_end(text: &[u8], at: usize) -> usize
    requires { at ≤ length text.now }
    ensures { IsDigitsEnd text.now at result }
{
    for k in at..text.len() {
        if !text[k].is_ascii_digit() {
            return k;
        }
    }
    text.len()
}

/// The value of some digits. The result is `None` if there are no digits, more than 20, or a needless zero.
fn plain_value(digits: &[u8]) -> Option<u128>
    requires { All IsDigit digits.now }
    ensures some { IfSome result (λ n. IsPlainValue digits.now n) }
    ensures none { IfNone result ((n : ℕ) → n < 2 ^ 64 → decimal n ≡ digits.now → ⊥) }
{
    if !is_plain(digits) {
        return None;
    }
    Some(value_of(digits))
}

/// Whether there are 1 to 20 digits without a needless zero.
fn is_plain(digits: &[u8]) -> bool
    ensures { IsTrue result ↔ IsPlain digits.now }
{
    if digits.is_empty() || MOST_DIGITS < digits.len() {
        return false;
    }
    digits.len() == 1 || digits[0] != b'0'
}

/// The value of at most 20 digits.
fn value_of(digits: &[u8]) -> u128
    requires short { length digits.now ≤ MOST_DIGITS }
    requires digits { All IsDigit digits.now }
    ensures { result ≡ value_after 0 digits.now }
{
    let mut value = 0;
    for digit in digits {
        value = 10 * value + u128::from(*digit - b'0');
    }
    value
}
