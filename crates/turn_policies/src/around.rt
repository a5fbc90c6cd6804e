//! The pixels around a corner, in one word.
ghost use Rattle.std.specs.Prelude.{◌≡◌, ℕ, ◌+◌, ◌-◌, ◌%◌, ◌≤◌, ◌<◌, ◌^◌, ◌∷◌, slice_index_or};
ghost use Rattle.bit_image.specs.Page.{image_of};
ghost use Rattle.bit_image.specs.Words.{is_one};
ghost use Rattle.bit_image.specs.Inner.Words.{black_in};
ghost use Rattle.turn_policies.specs.Majority.{behind};
ghost use Rattle.turn_policies.specs.Inner.Square.{IsSquare};

use bit_image::Bitmap;

/// The square of 64 pixels around corner (x, y). Bits 0 to 7 are its lowest row from the left, bits 8 to 15 the
/// next row, and so on.
pub(crate) fn square(page: &Bitmap, x: u32, y: u32) -> u64
    requires x { x ≤ 32767 }
    requires y { y ≤ 32767 }
    ensures { IsSquare result (image_of page.now) x y }
{
    // Most squares lie inside the page, and each of their rows lies in one word.
    let (width, height) = (page.width(), page.height());
    if x >= 4 && x < width && (x - 4) % 64 <= 56 && y >= 4 && y + 4 <= height {
        inner_square(page, x, y)
    } else {
        any_square(page, x, y)
    }
}

/// The square around a corner, if it lies inside the page and each of its rows lies in one word of the page.
fn inner_square(page: &Bitmap, x: u32, y: u32) -> u64
    requires left { 4 ≤ x }
    requires right { x < page.now.width }
    requires word { (x - 4) % 64 ≤ 56 }
    requires low { 4 ≤ y }
    requires high { y + 4 ≤ page.now.height }
    ensures { IsSquare result (image_of page.now) x y }
{
    // The width is read so that the prover knows the page's invariant: a page is small.
    let _ = page.width();
    let mut pixels = 0;
    for j in 0..8 {
        pixels |= inner_row(page, x, y + j) << (8 * j);
    }
    pixels
}

/// Eight pixels of the row 4 rows below row `y`, starting 4 columns left of column `x`. They lie in one word of
/// the page.
fn inner_row(page: &Bitmap, x: u32, y: u32) -> u64
    requires left { 4 ≤ x }
    requires right { x < page.now.width }
    requires word { (x - 4) % 64 ≤ 56 }
    requires low { 4 ≤ y }
    requires high { y < page.now.height + 4 }
    ensures pixels { (i : ℕ) → i < 8 → is_one result i ≡ behind (image_of page.now) 4 (x + i) y }
    ensures small { result < 2 ^ 8 }
{
    page.row_words(y - 4)[(x as usize - 4) / 64] >> ((x - 4) % 64) & 0xFF
}

/// The square around any corner. Pixels outside the page are white.
fn any_square(page: &Bitmap, x: u32, y: u32) -> u64
    requires x { x ≤ 32767 }
    requires y { y ≤ 32767 }
    ensures { IsSquare result (image_of page.now) x y }
{
    let mut pixels = 0;
    for j in 0..8 {
        pixels |= row_behind(page, x, y + j) << (8 * j);
    }
    pixels
}

/// Eight pixels of the row 4 rows below row `y`, starting 4 columns left of column `x`. Pixels outside the page
/// are white.
fn row_behind(page: &Bitmap, x: u32, y: u32) -> u64
    requires { x ≤ 32767 }
    ensures pixels { (i : ℕ) → i < 8 → is_one result i ≡ behind (image_of page.now) 4 (x + i) y }
    ensures small { result < 2 ^ 8 }
{
    // If the row lies below row 0, this wraps around to a row above any page.
    let row = y.wrapping_sub(4);
    if row >= page.height() {
        return 0;
    }
    eight(page.row_words(row), x + 60)
}

/// Eight pixels, starting at column `from`, of a row that has a white word before its own words.
fn eight(row: &[u64], from: u32) -> u64
    requires { from ≤ 65535 }
    ensures pixels { (i : ℕ) → i < 8 → is_one result i ≡ black_in (0 ∷ row.now) (from + i) }
    ensures small { result < 2 ^ 8 }
{
    let at = from as usize / 64;
    let first = word(row, at) >> (from % 64);
    if from % 64 <= 56 {
        first & 0xFF
    } else {
        (first | word(row, at + 1) << (64 - from % 64)) & 0xFF
    }
}

/// Word `at` of a row that has a white word before its own words. Words beyond the row are white.
fn word(row: &[u64], at: usize) -> u64
    ensures { result ≡ slice_index_or (0 ∷ row.now) at 0 }
{
    if at == 0 {
        return 0;
    }
    match row.get(at - 1) {
        Some(word) => *word,
        None => 0,
    }
}
