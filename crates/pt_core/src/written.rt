//! Texts that are written into a buffer from its end towards its beginning, each before the text that is
//! already there. Several of them can then be copied into a document at once. Each function returns the index
//! of its text's first byte.
ghost use Rattle.std.specs.Prelude.{◌≡◌, ◌+◌, ◌<◌, ◌≤◌, ◌∷◌, ◌++◌, codes, length, drop};
ghost use Rattle.std.specs.Fmt.{signed_decimal};
ghost use Rattle.pt_core.specs.FixedText.{decimals_text, digit, fixed_text};

use itoa::write_digits;

/// Writes `bytes` so that they end at `end`, and returns the index of their first byte.
#[inline(always)]
pub fn write_text(bytes: &[u8], text: &mut [u8], end: usize) -> usize
    requires room { length bytes.now ≤ end }
    requires within { end ≤ length text.old }
    ensures start { result + length bytes.now ≡ end }
    ensures written { drop result text.new ≡ bytes.now ++ drop end text.old }
{
    let start = end - bytes.len();
    text[start..end].copy_from_slice(bytes);
    start
}

/// Writes a number of thousandths with three decimals, as -500 is `-0.500`, so that it ends at `end`. Returns
/// the index of its first byte.
pub fn write_fixed(thousandths: i64, text: &mut [u8], end: usize) -> usize
    requires room { 25 ≤ end }
    requires within { end ≤ length text.old }
    ensures start { end ≤ result + 25 }
    ensures before { result ≤ end }
    ensures written { drop result text.new ≡ fixed_text thousandths ++ drop end text.old }
{
    let size = thousandths.unsigned_abs();
    let start = write_decimals(size % 1000, text, end);
    let start = write_digits(size / 1000, text, start);
    if thousandths < 0 {
        write_before(b'-', text, start)
    } else {
        start
    }
}

/// Writes a decimal point and three digits so that they end at `end`. Returns the index of their first byte.
#[inline(always)]
fn write_decimals(number: u64, text: &mut [u8], end: usize) -> usize
    requires few { number < 1000 }
    requires room { 4 ≤ end }
    requires within { end ≤ length text.old }
    ensures start { result + 4 ≡ end }
    ensures written { drop result text.new ≡ decimals_text number ++ drop end text.old }
{
    let start = write_before(digit(number % 10), text, end);
    let start = write_before(digit(number / 10 % 10), text, start);
    let start = write_before(digit(number / 100), text, start);
    write_before(b'.', text, start)
}

/// The digit of a number below ten.
fn digit(number: u64) -> u8
    requires { number < 10 }
    ensures { result ≡ digit number }
{
    b'0' + number as u8
}

/// Writes two whole numbers with a space between them so that they end at `end`. Returns the index of their first byte.
#[inline(always)]
pub(crate) fn write_pair(first: i64, second: i64, text: &mut [u8], end: usize) -> usize
    requires room { 43 ≤ end }
    requires within { end ≤ length text.old }
    ensures start { end ≤ result + 43 }
    ensures before { result ≤ end }
    ensures written { drop result text.new
        ≡ (signed_decimal first ++ codes " " ++ signed_decimal second) ++ drop end text.old }
{
    let start = write_signed(second, text, end);
    let start = write_before(b' ', text, start);
    write_signed(first, text, start)
}

/// Writes a whole number in decimal digits, with `-` before it if it is negative, so that it ends at `end`.
/// Returns the index of its first byte.
fn write_signed(whole: i64, text: &mut [u8], end: usize) -> usize
    requires room { 21 ≤ end }
    requires within { end ≤ length text.old }
    ensures start { end ≤ result + 21 }
    ensures before { result ≤ end }
    ensures written { drop result text.new ≡ signed_decimal whole ++ drop end text.old }
{
    let start = write_digits(whole.unsigned_abs(), text, end);
    if whole < 0 {
        write_before(b'-', text, start)
    } else {
        start
    }
}

/// Writes a byte just before `end`, and returns its index.
fn write_before(byte: u8, text: &mut [u8], end: usize) -> usize
    requires room { 1 ≤ end }
    requires within { end ≤ length text.old }
    ensures start { result + 1 ≡ end }
    ensures written { drop result text.new ≡ byte ∷ drop end text.old }
{
    text[end - 1] = byte;
    end - 1
}
