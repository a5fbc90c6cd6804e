//! The boundary edges that are left of a page, and so the image that is left.
ghost use Rattle.std.specs.Prelude.{◌≡◌, ℕ, ◌+◌, ◌-◌, ◌*◌, ◌/◌, ◌≤◌, ◌<◌, ◌^◌, ◌&&◌, nat_le, true, false, cond, All, length, count_by, IfOk, OnOk, IsNone, IfSome, IsTrue, ◌↔◌};
ghost use Rattle.pt_core.specs.ClosedWalk.{IsClosedWalk};
ghost use Rattle.bit_image.specs.FirstBlack.{IsFirstBlackFrom};
ghost use Rattle.bit_image.specs.Image.{Fits, IsWhiteTo, differ};
ghost use Rattle.bit_image.specs.Page.{IsPage, SameSides, image_of, page_of};
ghost use Rattle.bit_image.specs.Inner.Words.{black_in};
ghost use Rattle.turn_policies.specs.Inner.Square.{IsSquare};
ghost use Rattle.boundary_edges.specs.Inner.BoundaryBits.{has_edge, AreEdgesOf, AreLaidOut};
ghost use Rattle.boundary_edges.specs.Bounds.{IsCornerOf};
ghost use Rattle.boundary_edges.specs.GridEdges.{GridEdge, same_line, is_edge};
ghost use Rattle.boundary_edges.specs.Inside.{lines_of, inside};

use crate::blocks::Blocks;
use crate::square::relative_square;
use crate::strips::{self, BLOCK_ROWS};
use crate::taking::take_path;
use bit_image::Bitmap;
use pt_core::{NoMemory, Point};
use std::alloc::Global;
use std::marker::Model;

/// How many columns and rows without edges lie before those of a page's first corners.
pub(crate) const MARGIN: u32 = 3;

/// How many blocks a strip has beside those that the page's rows fill.
const BLOCKS_BESIDE: usize = 2;

/// How many strips there are beside those that the page's columns fill.
const STRIPS_BESIDE: usize = 2;

/// The boundary edges that are left of a page. They bound the image that is left: each has a black pixel on one side and
/// a white one on the other.
///
/// Each corner has an edge that goes down and one that goes left. They stand in strips of 64 columns, with margins in
/// which the square of pixels around each corner has its place, so that no step of a walk asks where the page ends.
#[derive(Drop)]
pub struct Edges {
    width: u32,
    height: u32,
    rows: usize,
    strips: usize,
    words: Blocks,
}

impl Model for Edges {
    ghost use Rattle.bit_image.specs.Page.{Page, page_of};
    ghost use Rattle.boundary_edges.specs.Inner.BoundaryBits.{bounded_image, AreEdges};

    ghost Value = { Page };

    ghost view = { λ a. page_of a.width a.height (bounded_image a.rows a.words) };

    ghost invariant = { λ a. AreEdges a.width a.height a.rows a.strips a.words };
}

impl Edges {
    /// The boundary edges of a page.
    pub fn of(alloc: Global, page: &Bitmap) -> Result<Edges, NoMemory>
        ensures { IfOk result (λ edges. edges ≡ page.now) }
    {
        let (width, height) = (page.width(), page.height());
        let blocks = height as usize / BLOCK_ROWS + BLOCKS_BESIDE;
        let rows = BLOCK_ROWS * blocks;
        let strips = width as usize / 64 + STRIPS_BESIDE;
        let mut words = Blocks::white(alloc, strips * blocks)?;
        let white = vec![in alloc; 0u64; (width as usize + 63) / 64]?;
        put_page(&mut words, rows, page, &white)?;
        Ok(Edges {
            width,
            height,
            rows,
            strips,
            words,
        })
    }

    /// How many columns of pixels the page has.
    pub fn width(&self) -> u32
        ensures value { result ≡ self.now.width }
        ensures page { IsPage self.now }
        ensures fits { Fits (image_of self.now) self.now.width self.now.height }
    {
        self.width
    }

    /// How many rows a strip has, where each block begins, and the words of the blocks.
    #[inline(always)]
    pub fn parts(&self) -> (usize, &[u32], &[u64])
        ensures { AreLaidOut self.now result.0 result.1.now result.2.now }
    {
        let (starts, words) = self.words.parts();
        (self.rows, starts, words)
    }

    /// The square of 64 pixels with corner (x, y) at its middle, where it is known whether pixel (x, y) is black: bits 0
    /// to 7 are its lowest row from the left, bits 8 to 15 the next one, and so on.
    pub fn square(&self, x: u32, y: u32, black: bool) -> u64
        requires x { x ≤ self.now.width }
        requires y { y ≤ self.now.height }
        requires pixel { black ≡ image_of self.now x y }
        ensures { IsSquare result (image_of self.now) x y }
    {
        let square = relative_square(&self.words, self.rows, x, y);
        let wrong = (square >> 36 & 1 == 1) != black;
        if wrong { square ^ u64::MAX } else { square }
    }

    /// The first column from `x` on whose pixel in row `y` is black, where all is white on its left.
    pub fn first_black_in_row(&self, x: u32, y: u32) -> Option<u32>
        requires column { x < self.now.width }
        requires row { y < self.now.height }
        requires white { (u : ℕ) → u < x → image_of self.now u y ≡ false }
        ensures none { IsNone result → (u : ℕ) → x ≤ u → image_of self.now u y ≡ false }
        ensures black { IfSome result (λ column.
            (x ≤ column) × (image_of self.now column y ≡ true)) }
        ensures left { IfSome result (λ column.
            (u : ℕ) → x ≤ u → u < column → image_of self.now u y ≡ false) }
    {
        // The width is touched, so that the proof sees that the sides are short.
        let _ = &self.width;
        let (x, y) = (x + MARGIN, y + 1 + MARGIN);
        match strips::first_edge(&self.words, self.rows, self.strips, x, y) {
            Some(column) => Some(column - MARGIN),
            None => None,
        }
    }

    /// The column and the row of the first black pixel of rows `from` down to 0.
    ///
    /// It is the leftmost one of the uppermost of these rows that has one.
    //
    // It isn't inlined, so that its loops have the registers to themselves.
    #[inline(never)]
    pub fn first_black(&self, from: u32) -> Option<(u32, u32)>
        requires { from < self.now.height }
        ensures none { IsNone result ↔ IsWhiteTo (image_of self.now) from }
        ensures first { IfSome result (λ place.
            IsFirstBlackFrom (image_of self.now) from place.0 place.1) }
    {
        // The width is touched, so that the proof sees that `from` is within the longest side.
        let _ = &self.width;
        // Rows `end` to `from` are white.
        let mut end = from + 1;
        'rows: while end > 0 {
            let y = end - 1;
            if self.is_white_down_from(y) {
                end = end.saturating_sub(BLOCK_ROWS as u32);
            } else {
                if let Some(x) = self.first_black_in_row(0, y) {
                    return Some((x, y));
                }
                end = y;
            }
        }
        None
    }

    /// Whether row `y` and those below are seen to be white, as many as a block has. Where they are white and it isn't
    /// seen, time alone is lost.
    //
    // Their blocks are looked at in the uppermost of these rows, which takes a third of the instructions that the rows take one
    // by one. Where they aren't white those are lost. Of the pages that were drawn for this, a speck in each block at the
    // right margin is the worst.
    #[inline(always)]
    fn is_white_down_from(&self, y: u32) -> bool
        requires { y < self.now.height }
        ensures { IsTrue result → (u v : ℕ) → v ≤ y → y < v + BLOCK_ROWS
            → image_of self.now u v ≡ false }
    {
        // The width is touched, so that the proof sees that the sides are short.
        let _ = &self.width;
        let row = (y + 1 + MARGIN) as usize;
        row % BLOCK_ROWS == BLOCK_ROWS - 1
            && strips::is_white_band(&self.words, self.rows, self.strips, row / BLOCK_ROWS)
    }

    /// Takes away the edges along a path, and so inverts the image that is left inside it.
    pub fn take_away(&mut self, points: &[Point])
        requires closed { IsClosedWalk points.now }
        requires corners { All (IsCornerOf self.old.width self.old.height) points.now }
        requires fits { Fits (inside points.now) self.old.width self.old.height }

        // The path runs once along each edge of its inside, and along no other line. All these are edges of the
        // image, too.
        requires once { (line : GridEdge) → count_by (same_line line) (lines_of points.now)
            ≡ cond (is_edge (inside points.now) line) 1 0 }
        requires edges { (line : GridEdge) → is_edge (inside points.now) line ≡ true
            → is_edge (image_of self.old) line ≡ true }

        ensures sides { SameSides self.old self.new }
        ensures pixels { (u v : ℕ)
            → image_of self.new u v ≡ differ (image_of self.old u v) (inside points.now u v) }
    {
        take_path(&mut self.words, self.rows, points);
    }
}

/// Puts the edges of a page into words that have none.
fn put_page(words: &mut Blocks, rows: usize, page: &Bitmap, white: &[u64]) -> Result<(), NoMemory>
    requires rows { rows ≡ BLOCK_ROWS * (page.now.height / BLOCK_ROWS + BLOCKS_BESIDE) }
    requires room { length words.old ≡ 2 * ((page.now.width / 64 + STRIPS_BESIDE) * rows) }
    requires count { length white.now ≡ (page.now.width + 63) / 64 }
    requires white { (u : ℕ) → black_in white.now u ≡ false }
    requires none { (k u v : ℕ) → k < 2 → has_edge rows words.old k u v ≡ false }
    ensures length { OnOk result (length words.new ≡ length words.old) }
    ensures edges { OnOk result (AreEdgesOf (image_of page.now) rows words.new) }
{
    // Between two white rows there are no edges: most pages of text have many such rows.
    let mut below_is_white = true;
    for y in MARGIN..page.height() + 1 + MARGIN {
        let above = row_behind(page, y + 1, white);
        let above_is_white = strips::is_white(above);
        if !(below_is_white && above_is_white) {
            strips::put_row(words, rows, y as usize, row_behind(page, y, white), above)?;
        }
        below_is_white = above_is_white;
    }
    Ok(())
}

/// The row of pixels 4 rows below row `y`, which is white where the page has none.
fn row_behind<'a>(page: &'a Bitmap, y: u32, white: &'a [u64]) -> &'a [u64]
    requires count { length white.now ≡ (page.now.width + 63) / 64 }
    requires white { (u : ℕ) → black_in white.now u ≡ false }
    ensures count { length result.now ≡ (page.now.width + 63) / 64 }
    ensures pixels { (u : ℕ) → black_in result.now u ≡ (nat_le 4 y && image_of page.now u (y - 4)) }
{
    let height = page.height();
    if y >= 4 && y - 4 < height {
        page.row_words(y - 4)
    } else {
        white
    }
}
