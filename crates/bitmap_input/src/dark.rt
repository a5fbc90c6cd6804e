//! Words of 64 pixels that are black if they are dark: their brightness is at most a limit.
//!
//! The tests of 64 pixels are in loops of their own, so that the compiler tests eight or sixteen pixels at a
//! time.
ghost use Rattle.std.specs.Prelude.{◌≡◌, ℕ, ◌+◌, ◌*◌, ◌<◌, ◌≤◌, false, nat_le, length, get_or};
ghost use Rattle.bit_image.specs.Words.{is_one};
ghost use Rattle.bitmap_input.specs.Inner.Shading.{bytes_sum};

use crate::words::word_of;

/// Tests for each of 64 bytes, starting at index `from`, whether it is dark.
#[inline(never)]
fn test_grays(row: &[u8], from: usize, limit: u8, dark: &mut [bool; 64])
    requires { from + 64 ≤ length row.now }
    ensures { (k : ℕ) → k < 64
        → get_or dark.new k false ≡ nat_le (get_or row.now (from + k) 0) limit }
{
    for i in 0..64usize {
        dark[i] = row[from + i] <= limit;
    }
}

/// A word of 64 gray pixels of one byte each, starting at index `from`.
pub(crate) fn gray_word(row: &[u8], from: usize, limit: u32) -> u64
    requires { from + 64 ≤ length row.now }
    ensures { (k : ℕ) → k < 64 → is_one result k ≡ nat_le (get_or row.now (from + k) 0) limit }
{
    let mut dark = [false; 64];
    let most = limit.min(255);
    test_grays(row, from, most as u8, &mut dark);
    word_of(&dark)
}

/// The brightness of eight colours, starting with colour `at`. Each colour has three bytes and starts `step`
/// bytes after the one before.
#[inline(always)]
#[tactic(auto, using(crate::proofs::PackedWords::place_within))]
fn eight_sums(row: &[u8], from: usize, step: usize, at: usize) -> [u16; 8]
    requires within { from + step * 64 ≤ length row.now }
    requires least { 3 ≤ step }
    requires few { at ≤ 56 }
    ensures { (k : ℕ) → k < 8 → get_or result k 0 ≡ bytes_sum row.now (from + step * (at + k)) }
{
    let mut sums = [0u16; 8];
    for k in 0..8usize {
        let place = from + step * (at + k);
        sums[k] = row[place] as u16 + row[place + 1] as u16 + row[place + 2] as u16;
    }
    sums
}

/// Tests for each of eight sums whether it is dark, and stores the results at index `at` and after.
#[inline(always)]
fn test_eight(sums: &[u16; 8], limit: u16, dark: &mut [bool; 64], at: usize)
    requires few { at ≤ 56 }
    ensures before { (k : ℕ) → k < at → get_or dark.new k false ≡ get_or dark.old k false }
    ensures dark { (k : ℕ) → k < 8
        → get_or dark.new (at + k) false ≡ nat_le (get_or sums.now k 0) limit }
{
    for k in 0..8usize {
        dark[at + k] = sums[k] <= limit;
    }
}

/// Tests for each of 64 colours whether it is dark.
//
// Eight sums are computed before the first result is stored, because the compiler doesn't know that the two
// lists don't overlap.
#[inline(always)]
fn test_colors(row: &[u8], from: usize, step: usize, limit: u16, dark: &mut [bool; 64])
    requires within { from + step * 64 ≤ length row.now }
    requires least { 3 ≤ step }
    ensures { (k : ℕ) → k < 64
        → get_or dark.new k false ≡ nat_le (bytes_sum row.now (from + step * k)) limit }
{
    for j in 0..8usize {
        let sums = eight_sums(row, from, step, 8 * j);
        test_eight(&sums, limit, dark, 8 * j);
    }
}

/// A word of 64 colours of three bytes each. The first one is at index `from`, and each is `step` bytes after
/// the one before.
#[inline(always)]
pub(crate) fn color_word(row: &[u8], from: usize, step: usize, limit: u32) -> u64
    requires within { from + step * 64 ≤ length row.now }
    requires least { 3 ≤ step }
    ensures { (k : ℕ) → k < 64
        → is_one result k ≡ nat_le (bytes_sum row.now (from + step * k)) limit }
{
    let mut dark = [false; 64];
    let most = limit.min(765);
    test_colors(row, from, step, most as u16, &mut dark);
    word_of(&dark)
}
