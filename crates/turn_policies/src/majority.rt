//! The colour of the majority around a corner.
ghost use Rattle.std.specs.Prelude.{◌≡◌, ℕ, ◌≤◌, nat_abs};
ghost use Rattle.bit_image.specs.Image.{Image};
ghost use Rattle.bit_image.specs.Page.{image_of};
ghost use Rattle.turn_policies.specs.PixelCorner.{IsCorner};
ghost use Rattle.turn_policies.specs.Majority.{black_in_ring, major};
ghost use Rattle.turn_policies.specs.Inner.Square.{IsSquare};

use crate::around::square;
use bit_image::Bitmap;
use pt_core::Point;

/// Whether black is the majority around a corner.
///
/// The rings of 12, 20 and 28 pixels around the corner are counted from the inside out. The first ring that has
/// more of one colour decides. If all three rings tie, the result is false.
///
/// ```text
///     4 4 4 4 4 4 4 4
///     4 3 3 3 3 3 3 4
///     4 3 2 2 2 2 3 4
///     4 3 2 . . 2 3 4
///     4 3 2 . . 2 3 4     the corner is in the middle of the square
///     4 3 2 2 2 2 3 4
///     4 3 3 3 3 3 3 4
///     4 4 4 4 4 4 4 4
/// ```
pub fn major(page: &Bitmap, at: Point) -> bool
    requires { IsCorner at }
    ensures { result ≡ major (image_of page.now) (nat_abs at.x) (nat_abs at.y) }
{
    major_at(page, at.x as u32, at.y as u32)
}

/// Whether black is the majority around corner (x, y).
pub(crate) fn major_at(page: &Bitmap, x: u32, y: u32) -> bool
    requires x { x ≤ 32767 }
    requires y { y ≤ 32767 }
    ensures { result ≡ major (image_of page.now) x y }
{
    major_in(square(page, x, y))
}

/// Whether black is the majority around the corner in the middle of a square of 64 pixels. Bits 0 to 7 of the
/// square are its lowest row from the left, bits 8 to 15 the next row, and so on.
//
// Only black pixels are counted, with a mask for each ring. A ring has 8r - 4 pixels (a lemma), so the others
// are white.
pub fn major_in(pixels: u64) -> bool
    ensures { (b : Image) (x y : ℕ) → IsSquare pixels b x y → result ≡ major b x y }
{
    for radius in 2..5 {
        let black = black_around(pixels, radius);
        let white = 8 * radius - 4 - black;
        if black != white {
            return black > white;
        }
    }
    false
}

/// The number of black pixels in ring `radius` of a square of 64 pixels around a corner.
fn black_around(pixels: u64, radius: u32) -> u32
    requires least { 2 ≤ radius }
    requires most { radius ≤ 4 }
    ensures { (b : Image) (x y : ℕ) → IsSquare pixels b x y → result ≡ black_in_ring b x y radius }
{
    match radius {
        2 => (pixels & 0x00003C24243C0000).count_ones(),
        3 => (pixels & 0x007E424242427E00).count_ones(),
        _ => (pixels & 0xFF818181818181FF).count_ones(),
    }
}
