//! Bits for the edges around the corners of a page: strips of 64 columns, with a word for each row from the lowest up.
//!
//! A word has the edges that go down from 64 corners side by side, and the next word those that go left. The least
//! significant bit is the leftmost one. So what lies above and below an edge is near it in memory too. Eight rows of a
//! strip are a block of words, which takes room only where there are edges.
ghost use Rattle.std.specs.Prelude.{◌≡◌, ◌≢◌, ◌⊎◌, ◌↔◌, IsNone, IfSome, IsTrue, true, ℕ, ◌+◌, ◌-◌, ◌*◌, ◌/◌, ◌%◌, ◌^◌, ◌≤◌, ◌<◌, false, List, ◌∷◌, length, slice_index_or, OnOk};
ghost use Rattle.bit_image.specs.Words.{is_one};
ghost use Rattle.bit_image.specs.Inner.Words.{black_in};
ghost use Rattle.boundary_edges.specs.Inner.Blocks.{AreBlocks};
ghost use Rattle.boundary_edges.specs.Inner.BoundaryBits.{word_place, has_edge, HasSpot, IsSpot, AreStripWords, changes_in, same_edge};
ghost use Rattle.boundary_edges.specs.Inner.Taken.{AreTakenBy};

use crate::blocks::{BLOCK, Blocks};
use pt_core::NoMemory;

/// The kind of the edges that go down from a corner.
pub(crate) const DOWN: usize = 0;

/// The kind of the edges that go left from a corner.
pub(crate) const LEFT: usize = 1;

/// How many rows of a strip are a block.
pub(crate) const BLOCK_ROWS: usize = 8;

/// Where the word stands that has the edges of a kind in one row of a strip.
#[inline(always)]
fn word_place(rows: usize, kind: usize, strip: usize, y: usize) -> usize
    requires kind { kind < 2 }
    requires strip { strip < 2 ^ 16 }
    requires rows { rows < 2 ^ 16 }
    requires y { y < rows }
    ensures value { result ≡ word_place rows kind strip y }
    ensures inside { (size : ℕ) → 2 * ((strip + 1) * rows) ≤ size → result < size }
{
    2 * (strip * rows + y) + kind
}

/// Whether there is an edge of a kind in a column and a row.
#[inline(always)]
pub(crate) fn has_edge(words: &Blocks, rows: usize, kind: usize, x: u32, y: u32) -> bool
    requires kind { kind < 2 }
    requires rows { rows < 2 ^ 16 }
    requires y { y < rows }
    requires x { x < 2 ^ 16 }
    requires room { 2 * ((x / 64 + 1) * rows) ≤ length words.now }
    ensures { result ≡ has_edge rows words.now kind x y }
{
    words.get(word_place(rows, kind, x as usize / 64, y as usize)) >> (x % 64) & 1 == 1
}

/// Where the edges of a corner stand among the words that take room.
#[derive(Clone, Copy)]
pub struct Spot {
    /// Their block.
    block: usize,
    /// The place of the word with the edge that goes down. The edge that goes left is in the next one.
    pub down: usize,
    /// A word in which only their bit is 1.
    pub bit: u64,
}

/// Where the edges in column `x` and row `y` stand, by the starts of the blocks.
#[inline(always)]
pub(crate) fn spot_at(starts: &[u32], rows: usize, x: u32, y: u32) -> Spot
    requires { HasSpot rows starts.now x y }
    ensures { IsSpot rows starts.now x y result }
{
    let place = word_place(rows, DOWN, x as usize / 64, y as usize);
    let block = place / BLOCK;
    Spot {
        block,
        down: starts[block] as usize + place % BLOCK,
        bit: 1u64 << (x % 64),
    }
}

/// The same, for who goes along edges and comes to another strip.
//
// That is seldom. It isn't inlined, so that loops that go along edges prepare nothing for it.
#[cold]
#[inline(never)]
fn spot_anew(starts: &[u32], rows: usize, x: u32, y: u32) -> Spot
    requires { HasSpot rows starts.now x y }
    ensures { IsSpot rows starts.now x y result }
{
    spot_at(starts, rows, x, y)
}

/// Where those of the row above row `y` stand, by where those of the row itself do.
//
// In most rows they are the next two words of the same block, and else the first two of the next one. The rows, the
// column and the row are given for the proof alone.
#[inline(always)]
pub(crate) fn spot_above(spot: Spot, starts: &[u32], rows: usize, x: u32, y: u32) -> Spot
    requires above { HasSpot rows starts.now x (y + 1) }
    requires spot { IsSpot rows starts.now x y spot }
    ensures { IsSpot rows starts.now x (y + 1) result }
{
    let down = spot.down + 2;
    if down % BLOCK != 0 {
        Spot { down, ..spot }
    } else {
        let block = spot.block + 1;
        Spot {
            block,
            down: starts[block] as usize,
            ..spot
        }
    }
}

/// And where those of the row below stand.
#[inline(always)]
pub(crate) fn spot_below(spot: Spot, starts: &[u32], rows: usize, x: u32, y: u32) -> Spot
    requires row { 1 ≤ y }
    requires below { HasSpot rows starts.now x (y - 1) }
    requires spot { IsSpot rows starts.now x y spot }
    ensures { IsSpot rows starts.now x (y - 1) result }
{
    if spot.down % BLOCK != 0 {
        Spot {
            down: spot.down - 2,
            ..spot
        }
    } else {
        let block = spot.block - 1;
        Spot {
            block,
            down: starts[block] as usize + (BLOCK - 2),
            ..spot
        }
    }
}

/// Where the edges right of column `x` stand in row `y`, by where those of the column itself do.
//
// In most columns it is the next bit of the same word.
#[inline(always)]
pub(crate) fn spot_right(spot: Spot, starts: &[u32], rows: usize, x: u32, y: u32) -> Spot
    requires right { HasSpot rows starts.now (x + 1) y }
    requires spot { IsSpot rows starts.now x y spot }
    ensures { IsSpot rows starts.now (x + 1) y result }
{
    let bit = spot.bit << 1;
    if bit != 0 {
        Spot { bit, ..spot }
    } else {
        spot_anew(starts, rows, x + 1, y)
    }
}

/// And where those left of it stand.
#[inline(always)]
pub(crate) fn spot_left(spot: Spot, starts: &[u32], rows: usize, x: u32, y: u32) -> Spot
    requires column { 1 ≤ x }
    requires left { HasSpot rows starts.now (x - 1) y }
    requires spot { IsSpot rows starts.now x y spot }
    ensures { IsSpot rows starts.now (x - 1) y result }
{
    let bit = spot.bit >> 1;
    if bit != 0 {
        Spot { bit, ..spot }
    } else {
        spot_anew(starts, rows, x - 1, y)
    }
}

/// Takes a corner's edge of a kind away. Where there is none, the words stay as they are, also those that white blocks
/// share.
#[inline(always)]
pub(crate) fn take_edge(words: &mut [u64], spot: Spot, kind: usize)
    requires { spot.down + kind < length words.old }
    ensures { (rows x y : ℕ) (starts : List ℕ) → HasSpot rows starts x y
        → IsSpot rows starts x y spot → kind < 2 → AreBlocks starts words.old
        → AreTakenBy rows starts (λ k u v. same_edge kind x y k u v) words.old words.new }
{
    words[spot.down + kind] &= !spot.bit;
}

/// The block of a row in a strip, where strips are whole blocks.
//
// From strip to strip it is as many blocks further on, and the row's place in it stays the same.
#[inline(always)]
fn block_of(rows: usize, strip: usize, y: usize) -> usize
    requires rows { rows < 2 ^ 16 }
    requires whole { rows % BLOCK_ROWS ≡ 0 }
    requires strip { strip < 2 ^ 16 }
    requires y { y < rows }
    ensures { BLOCK * result + 2 * (y % BLOCK_ROWS) ≡ word_place rows DOWN strip y }
{
    strip * (rows / BLOCK_ROWS) + y / BLOCK_ROWS
}

/// Puts the edges along a row of pixels, and between it and the row above, into row `y` of the strips, which has none.
//
// It isn't inlined, so that its loop has the registers to itself.
#[inline(never)]
pub(crate) fn put_row(
    words: &mut Blocks,
    rows: usize,
    y: usize,
    below: &[u64],
    above: &[u64],
) -> Result<(), NoMemory>
    requires count { length above.now ≡ length below.now }
    requires few { length below.now < 2 ^ 15 }
    requires rows { rows < 2 ^ 16 }
    requires whole { rows % BLOCK_ROWS ≡ 0 }
    requires y { y < rows }
    requires room { 2 * ((length below.now + 1) * rows) ≤ length words.old }
    requires none { (k u : ℕ) → k < 2 → has_edge rows words.old k u y ≡ false }
    ensures length { OnOk result (length words.new ≡ length words.old) }
    ensures row { OnOk result ((k u : ℕ) → k < 2
        → has_edge rows words.new k u y ≡ changes_in below.now above.now k u) }
    ensures others { OnOk result ((k u v : ℕ) → k < 2 → v ≢ y
        → has_edge rows words.new k u v ≡ has_edge rows words.old k u v) }
{
    // The words of the strip on the left, which this one's edges need too, are kept and not read again.
    let mut before = (0, 0);
    for strip in 0..below.len() {
        let here = (below[strip], above[strip]);
        put_strip(words, rows, strip, y, before, here)?;
        before = here;
    }
    put_strip(words, rows, below.len(), y, before, (0, 0))?;
    Ok(())
}

/// Puts the edges of one strip of such a row, whose words are those of the row below and of the one above, after the
/// words of the strip on the left.
#[inline(always)]
fn put_strip(
    words: &mut Blocks,
    rows: usize,
    strip: usize,
    y: usize,
    before: (u64, u64),
    here: (u64, u64),
) -> Result<(), NoMemory>
    requires strip { strip < 2 ^ 16 }
    requires rows { rows < 2 ^ 16 }
    requires whole { rows % BLOCK_ROWS ≡ 0 }
    requires y { y < rows }
    requires room { 2 * ((strip + 1) * rows) ≤ length words.old }
    requires none { (k u : ℕ) → k < 2 → u / 64 ≡ strip → has_edge rows words.old k u y ≡ false }
    ensures length { OnOk result (length words.new ≡ length words.old) }
    ensures row { OnOk result ((below above : List ℕ)
        → AreStripWords below strip before.0 here.0 → AreStripWords above strip before.1 here.1
        → (k u : ℕ) → k < 2 → u / 64 ≡ strip
        → has_edge rows words.new k u y ≡ changes_in below above k u) }
    ensures others { OnOk result ((k u v : ℕ) → k < 2 → (u / 64 ≢ strip) ⊎ (v ≢ y)
        → has_edge rows words.new k u v ≡ has_edge rows words.old k u v) }
{
    let pixels = pixels_behind(before.0, here.0, 4);
    let down = pixels ^ pixels_behind(before.0, here.0, 3);
    let left = pixels ^ pixels_behind(before.1, here.1, 4);
    // Most words stay 0, as they are already: these are not written.
    if down | left != 0 {
        words.put_two(block_of(rows, strip, y), 2 * (y % BLOCK_ROWS), down, left)?;
    }
    Ok(())
}

/// The 64 pixels that begin so many columns left of a strip, by its word and the one before it.
#[inline(always)]
fn pixels_behind(before: u64, here: u64, by: u32) -> u64
    requires some { 1 ≤ by }
    requires most { by < 64 }
    ensures { (row : List ℕ) (strip : ℕ) → AreStripWords row strip before here
        → (i : ℕ) → i < 64 → is_one result i ≡ black_in (0 ∷ row) (64 * strip + 64 - by + i) }
{
    here << by | before >> (64 - by)
}

/// Whether all pixels of a row are white.
pub(crate) fn is_white(row: &[u64]) -> bool
    ensures { IsTrue result ↔ ((u : ℕ) → black_in row.now u ≡ false) }
{
    for word in row {
        if *word != 0 {
            return false;
        }
    }
    true
}

/// The first column from column `x` on with an edge that goes down in a row.
pub(crate) fn first_edge(words: &Blocks, rows: usize, strips: usize, x: u32, y: u32) -> Option<u32>
    requires rows { rows < 2 ^ 16 }
    requires whole { rows % BLOCK_ROWS ≡ 0 }
    requires strips { strips < 2 ^ 10 }
    requires y { y < rows }
    requires x { x / 64 < strips }
    requires room { length words.now ≡ 2 * (strips * rows) }
    ensures none { IsNone result → (u : ℕ) → x ≤ u → has_edge rows words.now DOWN u y ≡ false }
    ensures edge { IfSome result (λ column.
        (x ≤ column) × (has_edge rows words.now DOWN column y ≡ true)) }
    ensures left { IfSome result (λ column. (u : ℕ) → x ≤ u → u < column
        → has_edge rows words.now DOWN u y ≡ false) }
{
    let first = x as usize / 64;
    let word = down_in(words, rows, first, y as usize) & (u64::MAX << (x % 64));
    if word != 0 {
        return Some(64 * first as u32 + word.trailing_zeros());
    }
    for strip in first + 1..strips {
        let word = down_in(words, rows, strip, y as usize);
        if word != 0 {
            return Some(64 * strip as u32 + word.trailing_zeros());
        }
    }
    None
}

/// Whether no edge is seen to go down in a band of rows, those of one block in each strip. `true` says that none does.
/// Where none does and `false` comes, time alone is lost.
pub(crate) fn is_white_band(words: &Blocks, rows: usize, strips: usize, band: usize) -> bool
    requires rows { rows < 2 ^ 16 }
    requires whole { rows % BLOCK_ROWS ≡ 0 }
    requires strips { strips < 2 ^ 10 }
    requires band { band < rows / BLOCK_ROWS }
    requires room { length words.now ≡ 2 * (strips * rows) }
    ensures { IsTrue result → (u v : ℕ) → v / BLOCK_ROWS ≡ band
        → has_edge rows words.now DOWN u v ≡ false }
{
    for strip in 0..strips {
        if !is_white_block(words, rows, strip, band) {
            return false;
        }
    }
    true
}

/// The same in one strip.
#[inline(always)]
fn is_white_block(words: &Blocks, rows: usize, strip: usize, band: usize) -> bool
    requires rows { rows < 2 ^ 16 }
    requires whole { rows % BLOCK_ROWS ≡ 0 }
    requires strip { strip < 2 ^ 16 }
    requires band { band < rows / BLOCK_ROWS }
    requires room { 2 * ((strip + 1) * rows) ≤ length words.now }
    ensures { IsTrue result → (u v : ℕ) → u / 64 ≡ strip → v / BLOCK_ROWS ≡ band
        → has_edge rows words.now DOWN u v ≡ false }
{
    for i in 0..BLOCK_ROWS {
        if down_in(words, rows, strip, BLOCK_ROWS * band + i) != 0 {
            return false;
        }
    }
    true
}

/// The word with the edges that go down in one row of a strip, where strips are whole blocks.
#[inline(always)]
fn down_in(words: &Blocks, rows: usize, strip: usize, y: usize) -> u64
    requires rows { rows < 2 ^ 16 }
    requires whole { rows % BLOCK_ROWS ≡ 0 }
    requires strip { strip < 2 ^ 16 }
    requires y { y < rows }
    requires room { 2 * ((strip + 1) * rows) ≤ length words.now }
    ensures { result ≡ slice_index_or words.now (word_place rows DOWN strip y) 0 }
{
    words.get_in(block_of(rows, strip, y), 2 * (y % BLOCK_ROWS))
}

/// The edges that go down in 8 columns from column `x` on, in bits 0 to 7. What the other bits are isn't told.
pub(crate) fn eight(words: &Blocks, rows: usize, x: u32, y: u32) -> u64
    requires rows { rows < 2 ^ 16 }
    requires y { y < rows }
    requires x { x < 2 ^ 16 }
    requires room { 2 * ((x / 64 + 2) * rows) ≤ length words.now }
    ensures { (i : ℕ) → i < 8 → is_one result i ≡ has_edge rows words.now DOWN (x + i) y }
{
    let (strip, y) = (x as usize / 64, y as usize);
    let first = words.get(word_place(rows, DOWN, strip, y)) >> (x % 64);
    if x % 64 <= 56 {
        first
    } else {
        first | words.get(word_place(rows, DOWN, strip + 1, y)) << (64 - x % 64)
    }
}
