//! The table of turns.
ghost use Rattle.std.specs.Prelude.{◌≡◌, ◌≤◌, nat_abs, Bool, false};
ghost use Rattle.pt_core.specs.declared.path.Sign.{Sign};
ghost use Rattle.bit_image.specs.Image.{south_west};
ghost use Rattle.bit_image.specs.Page.{image_of};
ghost use Rattle.turn_policies.specs.Boundary.{left_pixel, right_pixel, IsBoundary};
ghost use Rattle.turn_policies.specs.PixelCorner.{IsCorner};
ghost use Rattle.turn_policies.specs.Majority.{major};
ghost use Rattle.turn_policies.specs.Turn.{goes_right, turn, next};

use crate::edge::Edge;
use crate::heading::Dir;
use crate::majority::major_at;
use bit_image::Bitmap;
use pt_core::{Point, Policy, Sign};

/// The direction in which a path leaves corner `at`, if it arrives there with this heading.
///
/// | Ahead on the right | Ahead on the left | Turn |
/// |---|---|---|
/// | black | white | as the policy says |
/// | black | black | right |
/// | white | white | left |
/// | white | black | straight on |
pub fn turn(page: &Bitmap, at: Point, heading: Dir, policy: Policy, sign: Sign) -> Dir
    requires { IsCorner at }
    ensures { result ≡ turn (image_of page.now) policy sign (nat_abs at.x) (nat_abs at.y) heading }
{
    turn_at(page, at.x as u32, at.y as u32, heading, policy, sign)
}

/// The direction in which a path leaves corner (x, y), if it arrives there with this heading.
#[inline(always)]
pub(crate) fn turn_at(
    page: &Bitmap,
    x: u32,
    y: u32,
    heading: Dir,
    policy: Policy,
    sign: Sign,
) -> Dir
    requires x { x ≤ 32767 }
    requires y { y ≤ 32767 }
    ensures { result ≡ turn (image_of page.now) policy sign x y heading }
{
    match pixels_ahead(page, x, y, heading) {
        (true, false) => heading,
        (true, true) => heading.right(),
        (false, false) => heading.left(),
        (false, true) => {
            if chooses_right(page, x, y, policy, sign) {
                heading.right()
            } else {
                heading.left()
            }
        }
    }
}

/// The edge that follows a boundary edge. It is a boundary edge too.
pub fn next(page: &Bitmap, edge: Edge, policy: Policy, sign: Sign) -> Edge
    requires { IsBoundary (image_of page.now) edge }
    ensures value { result ≡ next (image_of page.now) policy sign edge }
    ensures boundary { IsBoundary (image_of page.now) result }
{
    // A boundary edge lies on the page, so the coordinates of its end are small.
    let (width, height) = (page.width(), page.height());
    prove!(edge.x <= width && edge.y <= height);
    let Edge { x, y, heading } = edge;
    // Each heading has its own code, so that the processor predicts a walk's turns better.
    match heading {
        Dir::North => turned_at(page, x, y + 1, Dir::North, policy, sign),
        Dir::East => turned_at(page, x + 1, y, Dir::East, policy, sign),
        Dir::South => turned_at(page, x, y - 1, Dir::South, policy, sign),
        Dir::West => turned_at(page, x - 1, y, Dir::West, policy, sign),
    }
}

/// The edge on which a path leaves corner (x, y), if it arrives there with this heading.
#[inline(always)]
pub fn turned_at(page: &Bitmap, x: u32, y: u32, heading: Dir, policy: Policy, sign: Sign) -> Edge
    requires x { x ≤ 32767 }
    requires y { y ≤ 32767 }
    ensures x { result.x ≡ x }
    ensures y { result.y ≡ y }
    ensures heading { result.heading ≡ turn (image_of page.now) policy sign x y heading }
{
    let heading = turn_at(page, x, y, heading, policy, sign);
    Edge { x, y, heading }
}

/// Whether the pixels on the left and on the right of the edge that leaves corner (x, y) are black.
#[inline(always)]
fn pixels_ahead(page: &Bitmap, x: u32, y: u32, heading: Dir) -> (bool, bool)
    requires x { x ≤ 32767 }
    requires y { y ≤ 32767 }
    ensures left { result.0 ≡ left_pixel (south_west (image_of page.now)) x y heading }
    ensures right { result.1 ≡ right_pixel (south_west (image_of page.now)) x y heading }
{
    match heading {
        Dir::North => (page.south_west(x, y + 1), page.south_west(x + 1, y + 1)),
        Dir::East => (page.south_west(x + 1, y + 1), page.south_west(x + 1, y)),
        Dir::South => (page.south_west(x + 1, y), page.south_west(x, y)),
        Dir::West => (page.south_west(x, y), page.south_west(x, y + 1)),
    }
}

/// Whether the policy turns right at corner (x, y), if the pixels ahead leave a choice.
#[inline(never)]
fn chooses_right(page: &Bitmap, x: u32, y: u32, policy: Policy, sign: Sign) -> bool
    requires x { x ≤ 32767 }
    requires y { y ≤ 32767 }
    ensures { result ≡ goes_right policy sign (major (image_of page.now) x y) }
{
    let more = asks_majority(policy) && major_at(page, x, y);
    goes_right(policy, sign, more)
}

/// Whether a policy depends on the colour of the majority.
#[inline(always)]
pub fn asks_majority(policy: Policy) -> bool
    ensures { result ≡ false → (sign : Sign) (more other : Bool)
        → goes_right policy sign more ≡ goes_right policy sign other }
{
    matches!(policy, Policy::Majority | Policy::Minority)
}

/// Whether a policy turns right if the pixels ahead leave a choice.
///
/// If the policy doesn't depend on the majority, `black_is_more` may be any value.
#[inline(always)]
pub fn goes_right(policy: Policy, sign: Sign, black_is_more: bool) -> bool
    ensures { result ≡ goes_right policy sign black_is_more }
{
    match policy {
        Policy::Left => false,
        Policy::Right => true,
        Policy::Black => matches!(sign, Sign::Plus),
        Policy::White => matches!(sign, Sign::Minus),
        Policy::Majority => black_is_more,
        Policy::Minority => !black_is_more,
    }
}
