//! The edges around the corners of a page, looked at from one corner to the next.
//!
//! Who goes along edges holds on to the place where those of a corner stand: those of the corners beside it mostly stand
//! in the same words, or in the next ones.
ghost use Rattle.std.specs.Prelude.{◌≡◌, suc, ◌+◌, ◌-◌, ◌≤◌, ◌<◌};
ghost use Rattle.bit_image.specs.Image.{differ, south_west};
ghost use Rattle.bit_image.specs.Page.{image_of};
ghost use Rattle.boundary_edges.specs.Inner.BoundaryBits.{changes, AreLaidOut, IsSpotAt};

use crate::edges::{Edges, MARGIN};
use crate::strips::{DOWN, LEFT, Spot, spot_above, spot_at, spot_below, spot_left, spot_right};

/// Where the edges of a page stand.
#[derive(Clone, Copy)]
pub struct Layout<'a> {
    /// The edges, and so the page that is left.
    pub page: &'a Edges,
    /// How many rows each strip has.
    pub rows: usize,
    /// Where each block begins.
    pub starts: &'a [u32],
    /// The words of the blocks.
    pub words: &'a [u64],
    ghost laid: { AreLaidOut page.now rows starts.now words.now },
}

impl Layout<'_> {
    /// Where the edges of corner (x, y) stand.
    #[inline(always)]
    pub fn spot(&self, x: u32, y: u32) -> Spot
        requires x { x ≤ self.now.page.now.width + 1 }
        requires y { y ≤ self.now.page.now.height + 1 }
        ensures { IsSpotAt self.now.rows self.now.starts.now x y result }
    {
        spot_at(self.starts, self.rows, x + MARGIN, y + MARGIN)
    }

    /// Where those of the corner above stand, by where those of corner (x, y) do.
    #[inline(always)]
    pub fn above(&self, spot: Spot, x: u32, y: u32) -> Spot
        requires x { x ≤ self.now.page.now.width }
        requires y { y ≤ self.now.page.now.height }
        requires spot { IsSpotAt self.now.rows self.now.starts.now x y spot }
        ensures { IsSpotAt self.now.rows self.now.starts.now x (y + 1) result }
    {
        spot_above(spot, self.starts, self.rows, x + MARGIN, y + MARGIN)
    }

    /// Where those of the corner below stand.
    #[inline(always)]
    pub fn below(&self, spot: Spot, x: u32, y: u32) -> Spot
        requires x { x ≤ self.now.page.now.width }
        requires y { y ≤ self.now.page.now.height }
        requires row { 1 ≤ y }
        requires spot { IsSpotAt self.now.rows self.now.starts.now x y spot }
        ensures { IsSpotAt self.now.rows self.now.starts.now x (y - 1) result }
    {
        spot_below(spot, self.starts, self.rows, x + MARGIN, y + MARGIN)
    }

    /// Where those of the corner on the right stand.
    #[inline(always)]
    pub fn right(&self, spot: Spot, x: u32, y: u32) -> Spot
        requires x { x ≤ self.now.page.now.width }
        requires y { y ≤ self.now.page.now.height }
        requires spot { IsSpotAt self.now.rows self.now.starts.now x y spot }
        ensures { IsSpotAt self.now.rows self.now.starts.now (x + 1) y result }
    {
        spot_right(spot, self.starts, self.rows, x + MARGIN, y + MARGIN)
    }

    /// Where those of the corner on the left stand.
    #[inline(always)]
    pub fn left(&self, spot: Spot, x: u32, y: u32) -> Spot
        requires x { x ≤ self.now.page.now.width }
        requires y { y ≤ self.now.page.now.height }
        requires column { 1 ≤ x }
        requires spot { IsSpotAt self.now.rows self.now.starts.now x y spot }
        ensures { IsSpotAt self.now.rows self.now.starts.now (x - 1) y result }
    {
        spot_left(spot, self.starts, self.rows, x + MARGIN, y + MARGIN)
    }

    /// Whether an edge goes down from corner (x, y).
    #[inline(always)]
    pub fn goes_down(&self, spot: Spot, x: u32, y: u32) -> bool
        requires x { x ≤ self.now.page.now.width + 1 }
        requires y { y ≤ self.now.page.now.height + 1 }
        requires spot { IsSpotAt self.now.rows self.now.starts.now x y spot }
        ensures { result ≡ differ (south_west (image_of self.now.page.now) x y) (south_west (image_of self.now.page.now) (suc x) y) }
    {
        self.has_edge(DOWN, spot, x, y)
    }

    /// Whether an edge goes left from corner (x, y).
    #[inline(always)]
    pub fn goes_left(&self, spot: Spot, x: u32, y: u32) -> bool
        requires x { x ≤ self.now.page.now.width + 1 }
        requires y { y ≤ self.now.page.now.height + 1 }
        requires spot { IsSpotAt self.now.rows self.now.starts.now x y spot }
        ensures { result ≡ differ (south_west (image_of self.now.page.now) x y) (south_west (image_of self.now.page.now) x (suc y)) }
    {
        self.has_edge(LEFT, spot, x, y)
    }

    /// Whether the corner whose edges stand at a spot, corner (x, y), has an edge of a kind.
    #[inline(always)]
    fn has_edge(&self, kind: usize, spot: Spot, x: u32, y: u32) -> bool
        requires kind { kind < 2 }
        requires x { x ≤ self.now.page.now.width + 1 }
        requires y { y ≤ self.now.page.now.height + 1 }
        requires spot { IsSpotAt self.now.rows self.now.starts.now x y spot }
        ensures { result ≡ changes (image_of self.now.page.now) kind (x + MARGIN) (y + MARGIN) }
    {
        self.words[spot.down + kind] & spot.bit != 0
    }
}
