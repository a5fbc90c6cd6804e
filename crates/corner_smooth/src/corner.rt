//! How sharp a vertex is.
ghost use Rattle.std.specs.Prelude.{◌≡◌, ◌≤◌, ◌<◌, ◌*◌, ◌^◌};
ghost use Rattle.corner_smooth.specs.Corner.{IsNearWidePage, al_of, is_corner, sharpness_by, sharpness_of};

use crate::triangle::{area, distance};
use pt_core::Point;

/// A fraction, not in lowest terms.
#[derive(Clone, Copy)]
pub(crate) struct Fraction {
    pub(crate) numerator: u64,
    pub(crate) denominator: u64,
}

/// How sharp a vertex is between its neighbours: 0 where a straight line would do, near 4/3 where the
/// outline all but turns back.
///
/// This is Selinger's alpha ("Potrace", 2003, section 2.3.3), a real number there, and as a fraction exactly
/// the same. Where both neighbours are one place it is 4/3, its greatest value: a path that turns back is as
/// sharp as can be.
pub(crate) fn sharpness(before: Point, at: Point, after: Point) -> Fraction
    requires before { IsNearWidePage before }
    requires at { IsNearWidePage at }
    requires after { IsNearWidePage after }
    ensures value { result ≡ sharpness_of before at after }
    ensures some { 0 < result.denominator }
    ensures blunt { result.numerator < result.denominator → result.numerator ≤ 2 ^ 40 }
{
    sharpness_by(area(before, at, after), distance(before, after))
}

/// The sharpness at a triangle of this doubled area, where the vertex's neighbours are at this distance.
fn sharpness_by(area: u64, distance: u64) -> Fraction
    requires area { area ≤ 2 ^ 51 }
    requires distance { distance ≤ 2 ^ 26 }
    ensures value { result ≡ sharpness_by area distance }
    ensures some { 0 < result.denominator }
    ensures blunt { result.numerator < result.denominator → result.numerator ≤ 2 ^ 40 }
{
    if distance == 0 {
        Fraction {
            numerator: 4,
            denominator: 3,
        }
    } else if area <= 1024 * distance {
        Fraction {
            numerator: 0,
            denominator: 1,
        }
    } else {
        Fraction {
            numerator: 4 * (area - 1024 * distance),
            denominator: 3 * area,
        }
    }
}

/// Whether the sharpness is at least `alphamax` millionths.
//
// Both products are of two numbers of 64 bits, and may need more.
pub(crate) fn is_corner(alphamax: u32, sharpness: Fraction) -> bool
    ensures { result ≡ is_corner alphamax sharpness }
{
    u128::from(alphamax) * u128::from(sharpness.denominator)
        <= 1_000_000 * u128::from(sharpness.numerator)
}

/// How far a curve's controls lie towards the vertex, in units of 1/65536.
pub(crate) fn al(sharpness: Fraction) -> u32
    requires some { 0 < sharpness.denominator }
    requires blunt { sharpness.numerator < sharpness.denominator → sharpness.numerator ≤ 2 ^ 40 }
    ensures value { result ≡ al_of sharpness }
    ensures least { 36045 ≤ result }
    ensures most { result ≤ 65536 }
{
    if sharpness.denominator <= sharpness.numerator {
        return 65536;
    }
    (65536 * sharpness.numerator / sharpness.denominator).max(36045) as u32
}
