//! Words of 64 pixels. The least significant bit is the leftmost pixel.
ghost use Rattle.std.specs.Prelude.{◌≡◌, ℕ, ◌+◌, ◌<◌, ◌≤◌, ◌&&◌, false, nat_lt, length, get_or};
ghost use Rattle.bit_image.specs.Image.{differ};
ghost use Rattle.bit_image.specs.Words.{is_one};

/// A factor that collects the lowest bits of eight bytes: they become the highest byte of the product.
const GATHER: u64 = 0x0102040810204080;

/// A byte of the eight pixels that start at index `at`.
#[inline(always)]
fn byte_at(pixels: &[bool], at: usize) -> u64
    requires { at + 8 ≤ length pixels.now }
    ensures { (k : ℕ) → is_one result k ≡ (nat_lt k 8 && get_or pixels.now (at + k) false) }
{
    let eight = [
        pixels[at] as u8,
        pixels[at + 1] as u8,
        pixels[at + 2] as u8,
        pixels[at + 3] as u8,
        pixels[at + 4] as u8,
        pixels[at + 5] as u8,
        pixels[at + 6] as u8,
        pixels[at + 7] as u8,
    ];
    u64::from_le_bytes(eight).wrapping_mul(GATHER) >> 56
}

/// A word of 64 pixels.
//
// It isn't inlined: the compiler would turn its products into slower ones of vectors.
#[inline(never)]
pub(crate) fn word_of(pixels: &[bool; 64]) -> u64
    ensures { (k : ℕ) → k < 64 → is_one result k ≡ get_or pixels.now k false }
{
    let mut word = 0;
    for j in 0..8usize {
        word |= byte_at(pixels, 8 * j) << (8 * j);
    }
    word
}

/// The word, with its pixels inverted or not.
pub(crate) fn inverted(word: u64, invert: bool) -> u64
    ensures { (k : ℕ) → k < 64 → is_one result k ≡ differ invert (is_one word k) }
{
    if invert { word ^ u64::MAX } else { word }
}
