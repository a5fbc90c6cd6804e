//! One step of a path, marked in the page.
ghost use Rattle.std.specs.Prelude.{ℕ, MatchBool};
ghost use Rattle.pt_core.specs.ClosedWalk.{IsUnitStep};
ghost use Rattle.pt_core.specs.declared.limits.TheConstants.{LONGEST_SIDE};
ghost use Rattle.bit_image.specs.Page.{SameSides};
ghost use Rattle.path_decompose.specs.Bounds.{IsCornerOf};
ghost use Rattle.path_decompose.specs.Inside.{is_crossed, line_between};
ghost use Rattle.point_fill.specs.Inner.Swept.{AreMarked};

use bit_image::Bitmap;
use path_decompose::upright_between;
use pt_core::Point;

/// Whether two corners are one unit step apart, along a row or along a column.
fn is_step(from: Point, to: Point) -> bool
    requires from { IsCornerOf LONGEST_SIDE LONGEST_SIDE from }
    requires to { IsCornerOf LONGEST_SIDE LONGEST_SIDE to }
    ensures { MatchBool result (IsUnitStep from to) (IsUnitStep from to → ⊥) }
{
    let across = from.x.abs_diff(to.x);
    let along = from.y.abs_diff(to.y);
    across + along == 1
}

/// Marks the step between two corners of the page, if they are one unit step apart. Returns whether they are.
pub(crate) fn mark_step(page: &mut Bitmap, from: Point, to: Point) -> bool
    requires from { IsCornerOf page.old.width page.old.height from }
    requires to { IsCornerOf page.old.width page.old.height to }
    ensures sides { SameSides page.old page.new }
    ensures step { MatchBool result (IsUnitStep from to) (IsUnitStep from to → ⊥) }
    ensures marked { MatchBool result
        (AreMarked page.old page.new (λ u v. is_crossed u v (line_between from to))) Unit }
{
    let width = page.width();
    if !is_step(from, to) {
        return false;
    }
    if let Some((x, y)) = upright_between(from, to) {
        if x < width {
            page.flip_span(y, x, x + 1);
        }
    }
    true
}
