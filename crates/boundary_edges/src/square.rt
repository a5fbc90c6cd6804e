//! The square of pixels around a corner, told by the edges between them.
ghost use Rattle.std.specs.Prelude.{◌≡◌, ℕ, suc, ◌+◌, ◌*◌, ◌/◌, ◌^◌, ◌≤◌, ◌<◌, Bool, length};
ghost use Rattle.bit_image.specs.Image.{Image, differ};
ghost use Rattle.bit_image.specs.Words.{is_one};
ghost use Rattle.turn_policies.specs.Majority.{behind};
ghost use Rattle.boundary_edges.specs.Inner.BoundaryBits.{AreEdgesOf};

use crate::blocks::Blocks;
use crate::strips::{LEFT, eight, has_edge};

/// Which of the 64 pixels around a corner differ from the leftmost one of the lowest row: bits 0 to 7 are that row from
/// the left, bits 8 to 15 the next one, and so on.
//
// The edges that go left from the corners of one column tell where a row begins otherwise than the one below it.
pub(crate) fn relative_square(words: &Blocks, rows: usize, x: u32, y: u32) -> u64
    requires rows { rows < 2 ^ 16 }
    requires x { x < 2 ^ 15 }
    requires y { y + 8 ≤ rows }
    requires room { 2 * ((x / 64 + 2) * rows) ≤ length words.now }
    ensures { (b : Image) → AreEdgesOf b rows words.now → (i j : ℕ) → i < 8 → j < 8
        → is_one result (8 * j + i) ≡ differ (behind b 4 x y) (behind b 4 (x + i) (y + j)) }
{
    let mut pixels = 0;
    let mut differs = false;
    for j in 0..8 {
        pixels |= row_from(eight(words, rows, x, y + j), differs) << (8 * j);
        differs = differs != has_edge(words, rows, LEFT, x, y + j);
    }
    pixels
}

/// A row of 8 pixels, of which the first one and the edges on the right of the first seven are known.
//
// Two edges side by side tell a pixel from the one two columns to the left, two of these tell it from the one four
// columns to the left, and so on.
fn row_from(edges: u64, first: bool) -> u64
    ensures small { result < 2 ^ 8 }
    ensures pixels { (f : ℕ → Bool) → f 0 ≡ first
        → ((i : ℕ) → i < 7 → is_one edges i ≡ differ (f i) (f (suc i)))
        → (i : ℕ) → i < 8 → is_one result i ≡ f i }
{
    let by_one = edges << 1 | u64::from(first);
    let by_two = by_one ^ by_one << 1;
    let by_four = by_two ^ by_two << 2;
    (by_four ^ by_four << 4) & 0xFF
}
