//! The paths of a text, marked in the page as they are read.
ghost use Rattle.std.specs.Prelude.{◌≡◌, ℕ, ◌≤◌, ◌<◌, List, length, drop, IfSome, IfNone, MatchBool};
ghost use Rattle.pt_core.specs.declared.path.Path.{Path};
ghost use Rattle.pt_core.specs.declared.point.Point.{Point};
ghost use Rattle.pt_core.specs.declared.limits.TheConstants.{LONGEST_SIDE};
ghost use Rattle.pt_core.specs.ClosedWalk.{IsUnitStep};
ghost use Rattle.bit_image.specs.Page.{SameSides};
ghost use Rattle.path_decompose.specs.Bounds.{IsCornerOf};
ghost use Rattle.path_decompose.specs.Inside.{inside, is_crossed, line_between};
ghost use Rattle.point_fill.specs.Filled.{even_odd};
ghost use Rattle.point_fill.specs.Inner.PathLines.{IsLoopLine, IsPathLine, ArePathsAt};
ghost use Rattle.point_fill.specs.Inner.Swept.{AreMarked};

use crate::step::mark_step;
use bit_image::Bitmap;
use list_reader::{Entries, PointsOf, has_byte, read_signed_area};
use pt_core::Point;

/// Marks the loop that begins at an index of the text, and returns the index after its line.
fn mark_loop(text: &[u8], at: usize, page: &mut Bitmap) -> Option<usize>
    requires at { at ≤ length text.now }
    ensures sides { SameSides page.old page.new }
    ensures some { IfSome result (λ end. (points : List Point)
        × IsLoopLine page.old.width page.old.height (drop at text.now) points (drop end text.now)
        × AreMarked page.old page.new (inside points)) }
    ensures within { IfSome result (λ end. end ≤ length text.now) }
    ensures none { IfNone result ((points : List Point) (rest : List ℕ)
        → IsLoopLine page.old.width page.old.height (drop at text.now) points rest → ⊥) }
{
    let corners = PointsOf {
        width: page.width(),
        height: page.height(),
    };
    let first = corners.read(text, at)?;
    let mut last = first.value;
    let mut end = first.end;
    let mut count: u64 = 1;
    'points: while !has_byte(text, end, b'\n') {
        let next = corners.read(text, end)?;
        if !mark_step(page, last, next.value) {
            return None;
        }
        last = next.value;
        end = next.end;
        count += 1;
    }
    if !makes_loop(count) {
        return None;
    }
    if !mark_step(page, last, first.value) {
        return None;
    }
    Some(end + 1)
}

/// Whether this number of points can make a loop.
fn makes_loop(count: u64) -> bool
    ensures { MatchBool result (4 ≤ count) (count < 4) }
{
    4 <= count
}

/// Marks the path that begins at an index of the text, and returns the index after its line.
fn mark_path(text: &[u8], at: usize, page: &mut Bitmap) -> Option<usize>
    requires at { at ≤ length text.now }
    ensures sides { SameSides page.old page.new }
    ensures some { IfSome result (λ end. (path : Path)
        × IsPathLine page.old.width page.old.height (drop at text.now) path (drop end text.now)
        × AreMarked page.old page.new (inside path.points)) }
    ensures within { IfSome result (λ end. end ≤ length text.now) }
    ensures none { IfNone result ((path : Path) (rest : List ℕ)
        → IsPathLine page.old.width page.old.height (drop at text.now) path rest → ⊥) }
{
    let points = read_signed_area(text, at)?;
    mark_loop(text, points, page)
}

/// Marks the `count` paths that begin at an index of the text. Returns whether these paths are there and are all that
/// is left of the text.
pub(crate) fn mark_paths(text: &[u8], at: usize, count: u32, page: &mut Bitmap) -> bool
    requires at { at ≤ length text.now }
    requires wide { page.old.width ≤ LONGEST_SIDE }
    requires high { page.old.height ≤ LONGEST_SIDE }
    ensures sides { SameSides page.old page.new }
    ensures paths { MatchBool result
        ((paths : List Path)
        × ArePathsAt text.now at count page.old.width page.old.height paths
        × AreMarked page.old page.new (even_odd paths))
        ((paths : List Path) → ArePathsAt text.now at count page.old.width page.old.height paths
        → ⊥) }
{
    let mut end = at;
    let mut left = count;
    'paths: while left > 0 {
        match mark_path(text, end, page) {
            Some(next) => end = next,
            None => return false,
        }
        left -= 1;
    }
    end == text.len()
}
