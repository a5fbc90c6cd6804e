//! Where a walk goes on at a corner, by the edges there.
ghost use Rattle.std.specs.Prelude.{◌≡◌, ℕ, ◌≤◌, true, false};
ghost use Rattle.bit_image.specs.Image.{differ, south_west};
ghost use Rattle.bit_image.specs.Page.{image_of};
ghost use Rattle.turn_policies.specs.Boundary.{left_pixel, right_pixel};
ghost use Rattle.turn_policies.specs.Heading.{opposite_of};
ghost use Rattle.turn_policies.specs.Majority.{major};
ghost use Rattle.turn_policies.specs.Turn.{goes_right, turn};
ghost use Rattle.boundary_edges.specs.Inner.BoundaryBits.{IsSpotAt};

use boundary_edges::{Edges, Layout, Spot};
use pt_core::{Policy, Sign};
use turn_policies::{Dir, Edge, asks_majority, goes_right, major_in};

/// The heading with which a walk goes on at a corner to which it comes with black on its left and white on its right. `ahead` is
/// the edge that would lead straight on from there.
///
/// | Edge straight ahead | Edge on the right | Turn |
/// |---|---|---|
/// | yes | no | straight on |
/// | no | yes | right |
/// | no | no | left |
/// | yes | yes | as the policy says |
#[inline(always)]
pub(crate) fn turned_at(edges: &Layout, spot: Spot, ahead: Edge, policy: Policy, sign: Sign) -> Dir
    requires x { ahead.x ≤ edges.now.page.now.width }
    requires y { ahead.y ≤ edges.now.page.now.height }
    requires spot { IsSpotAt edges.now.rows edges.now.starts.now ahead.x ahead.y spot }
    requires black_left { right_pixel (south_west (image_of edges.now.page.now)) ahead.x ahead.y (opposite_of ahead.heading) ≡ true }
    requires white_right { left_pixel (south_west (image_of edges.now.page.now)) ahead.x ahead.y (opposite_of ahead.heading) ≡ false }
    ensures { result ≡ turn (image_of edges.now.page.now) policy sign ahead.x ahead.y ahead.heading }
{
    let Edge { x, y, heading } = ahead;
    match edges_ahead(edges, spot, x, y, heading) {
        (true, false) => heading,
        (false, true) => heading.right(),
        (false, false) => heading.left(),
        (true, true) => {
            // The black pixels are on the left of the edge that was walked and on the right ahead.
            let black = matches!(heading, Dir::North | Dir::South);
            if chooses_right(edges.page, x, y, black, policy, sign) {
                heading.right()
            } else {
                heading.left()
            }
        }
    }
}

/// Whether there is an edge straight ahead of corner (x, y), and one on the right.
#[inline(always)]
fn edges_ahead(edges: &Layout, spot: Spot, x: u32, y: u32, heading: Dir) -> (bool, bool)
    requires x { x ≤ edges.now.page.now.width }
    requires y { y ≤ edges.now.page.now.height }
    requires spot { IsSpotAt edges.now.rows edges.now.starts.now x y spot }
    ensures ahead { result.0 ≡ differ (left_pixel (south_west (image_of edges.now.page.now)) x y heading)
        (right_pixel (south_west (image_of edges.now.page.now)) x y heading) }
    ensures right { result.1 ≡ differ (right_pixel (south_west (image_of edges.now.page.now)) x y heading)
        (left_pixel (south_west (image_of edges.now.page.now)) x y (opposite_of heading)) }
{
    // The width is asked, so that the proof sees that a page is small.
    let _ = edges.page.width();
    match heading {
        Dir::North => (
            edges.goes_down(edges.above(spot, x, y), x, y + 1),
            edges.goes_left(edges.right(spot, x, y), x + 1, y),
        ),
        Dir::East => (
            edges.goes_left(edges.right(spot, x, y), x + 1, y),
            edges.goes_down(spot, x, y),
        ),
        Dir::South => (edges.goes_down(spot, x, y), edges.goes_left(spot, x, y)),
        Dir::West => (
            edges.goes_left(spot, x, y),
            edges.goes_down(edges.above(spot, x, y), x, y + 1),
        ),
    }
}

/// Whether the policy turns right at corner (x, y), where there are four edges and pixel (x, y) is known.
#[inline(never)]
fn chooses_right(page: &Edges, x: u32, y: u32, black: bool, policy: Policy, sign: Sign) -> bool
    requires x { x ≤ page.now.width }
    requires y { y ≤ page.now.height }
    requires pixel { black ≡ image_of page.now x y }
    ensures { result ≡ goes_right policy sign (major (image_of page.now) x y) }
{
    let more = asks_majority(policy) && major_in(page.square(x, y, black));
    goes_right(policy, sign, more)
}
