//! Takes the edges along a path's lines away, line by line.
ghost use Rattle.std.specs.Prelude.{◌≡◌, ◌≢◌, ℕ, ◌*◌, ◌<◌, ◌^◌, ◌&&◌, not, max, nat_abs, pos, ◌≤ℤ◌, length, All};
ghost use Rattle.boundary_edges.specs.Inner.Blocks.{AreBlocks};
ghost use Rattle.boundary_edges.specs.Inner.BoundaryBits.{has_edge, FitsStrips, is_along};
ghost use Rattle.boundary_edges.specs.Inner.Taken.{AreTakenBy, AreWordsFor, is_along_any};
ghost use Rattle.boundary_edges.specs.Inside.{line_between, lines_of};
ghost use Rattle.pt_core.specs.ClosedWalk.{IsUnitStep, IsClosedWalk};

use crate::blocks::{BLOCK, Blocks};
use crate::edges::MARGIN;
use crate::strips::{DOWN, LEFT, spot_at, take_edge};
use pt_core::Point;

/// Takes the edges along the lines of a closed walk away.
pub(crate) fn take_path(words: &mut Blocks, rows: usize, points: &[Point])
    requires rows { rows < 2 ^ 16 }
    requires closed { IsClosedWalk points.now }
    requires room { All (FitsStrips rows (length words.old)) points.now }
    ensures length { length words.new ≡ length words.old }
    ensures edges { (k u v : ℕ) → k < 2 → has_edge rows words.new k u v
        ≡ has_edge rows words.old k u v && not (is_along_any (lines_of points.now) k u v) }
{
    take_lines(&mut words.words, &words.starts, rows, points);
}

/// Takes these edges away from the words that hold edges, by where the blocks begin.
//
// A jump that depends on a line's heading is often not foreseen where lines bend. So the place of an edge is worked out from
// its two corners, and nothing jumps.
//
// It isn't inlined, so that its loop has the registers to itself.
#[inline(never)]
fn take_lines(words: &mut [u64], starts: &[u32], rows: usize, points: &[Point])
    requires words { AreWordsFor points.now rows (BLOCK * length starts.now) }
    requires blocks { AreBlocks starts.now words.old }
    ensures { AreTakenBy rows starts.now (is_along_any (lines_of points.now)) words.old words.new }
{
    let last = points.len() - 1;
    'lines: for i in 0..last {
        take_line(words, starts, rows, points[i], points[i + 1]);
    }
    take_line(words, starts, rows, points[last], points[0]);
}

/// Takes the edge along the line between two corners one step apart away.
//
// It stands at the corner that is farther to the right and up.
#[inline(always)]
fn take_line(words: &mut [u64], starts: &[u32], rows: usize, from: Point, to: Point)
    requires rows { rows < 2 ^ 16 }
    requires blocks { AreBlocks starts.now words.old }
    requires from { FitsStrips rows (BLOCK * length starts.now) from }
    requires to { FitsStrips rows (BLOCK * length starts.now) to }
    requires step { IsUnitStep from to }
    ensures { AreTakenBy rows starts.now (λ k u v. is_along k u v (line_between from to)) words.old words.new }
{
    let x = greater(from.x, to.x) as u32 + MARGIN;
    let y = greater(from.y, to.y) as u32 + MARGIN;
    let spot = spot_at(starts, rows, x, y);
    take_edge(words, spot, kind_between(from, to));
}

/// The greater of two coordinates.
#[inline(always)]
fn greater(one: i32, other: i32) -> i32
    requires one { pos 0 ≤ℤ one }
    requires other { pos 0 ≤ℤ other }
    ensures value { nat_abs result ≡ max (nat_abs one) (nat_abs other) }
    ensures natural { pos 0 ≤ℤ result }
{
    if one < other { other } else { one }
}

/// The kind of the edge along the line between two corners.
#[inline(always)]
fn kind_between(from: Point, to: Point) -> usize
    ensures upright { from.x ≡ to.x → result ≡ DOWN }
    ensures level { from.x ≢ to.x → result ≡ LEFT }
    ensures few { result < 2 }
{
    if from.x == to.x { DOWN } else { LEFT }
}
