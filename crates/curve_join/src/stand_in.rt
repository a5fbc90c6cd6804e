//! A cubic curve, prepared for many tests.
ghost use Rattle.std.specs.Prelude.{◌≡◌, ◌≤◌, ◌*◌, ◌+◌, ◌^◌, ℤ, pos, ◌+ℤ◌, ◌*ℤ◌, unsigned_abs};
ghost use Rattle.pt_core.specs.Floor.{floor_of};
ghost use Rattle.curve_join.specs.Cubic.{place_at};
ghost use Rattle.curve_join.specs.Inner.Cubic.{LiesWithin};
ghost use Rattle.curve_join.specs.Inner.Powers.{ArePowersOf, AreSmallPowers, power_sum};
ghost use Rattle.curve_join.specs.Vector.{GoesNoFarther, IsPlaced, way_of};

use crate::cubic::Cubic;
use crate::vector::{Displacement, way};
use pt_core::Point;

/// A curve that may replace a run, with the values from which its tangents and points are computed.
//
// A run asks for many of both. So the legs of the control polygon are computed once, and each coordinate is a
// polynomial in u, for which Horner's rule needs three products.
#[derive(Clone, Copy)]
pub(crate) struct StandIn {
    pub(crate) cubic: Cubic,
    /// The legs of the control polygon: from the start to the first control point, on to the second one, and on to the
    /// end.
    pub(crate) first: Displacement,
    pub(crate) second: Displacement,
    pub(crate) third: Displacement,
    x: Powers,
    y: Powers,
    ghost near: { LiesWithin (2 ^ 29) cubic },
    ghost first_is: { first ≡ way_of cubic.start cubic.first },
    ghost second_is: { second ≡ way_of cubic.first cubic.second },
    ghost third_is: { third ≡ way_of cubic.second cubic.end },
    ghost x_is: { ArePowersOf cubic.start.x first.x second.x third.x x },
    ghost y_is: { ArePowersOf cubic.start.y first.y second.y third.y y },
}

impl StandIn {
    /// Prepares a curve.
    pub(crate) fn of(cubic: Cubic) -> StandIn
        requires { LiesWithin (2 ^ 29) cubic }
        ensures { result.cubic ≡ cubic }
    {
        let first = way(cubic.start, cubic.first);
        let second = way(cubic.first, cubic.second);
        let third = way(cubic.second, cubic.end);
        StandIn {
            cubic,
            first,
            second,
            third,
            x: Powers::of(cubic.start.x, first.x, second.x, third.x),
            y: Powers::of(cubic.start.y, first.y, second.y, third.y),
        }
    }

    /// The curve's point at u / 64, rounded down to 1/1024 pixel.
    pub(crate) fn place(&self, u: u32) -> Point
        requires { u ≤ 64 }
        ensures value { result ≡ place_at self.now.cubic u }
        ensures near { IsPlaced (2 ^ 29) result }
    {
        Point {
            x: floor(self.x.sum(u)),
            y: floor(self.y.sum(u)),
        }
    }
}

/// The coefficients of a polynomial in u, which is 262,144 (64^3) times a coordinate of the curve's point at u / 64.
#[derive(Clone, Copy)]
struct Powers {
    constant: i64,
    linear: i64,
    square: i64,
    cube: i64,
}

impl Powers {
    /// The polynomial for one coordinate of a curve, from that coordinate of the curve's start and of the three legs of
    /// its control polygon.
    fn of(start: i32, first: i64, second: i64, third: i64) -> Powers
        requires start { unsigned_abs start ≤ 2 ^ 29 }
        requires first { unsigned_abs first ≤ 2 ^ 30 }
        requires second { unsigned_abs second ≤ 2 ^ 30 }
        requires third { unsigned_abs third ≤ 2 ^ 30 }
        ensures { ArePowersOf start first second third result }
    {
        Powers {
            constant: 262_144 * i64::from(start),
            linear: 12_288 * first,
            square: 192 * (second - first),
            cube: (third - second) - (second - first),
        }
    }

    /// The value of the polynomial at u.
    fn sum(&self, u: u32) -> i64
        requires u { u ≤ 64 }
        requires small { AreSmallPowers self.now }
        ensures { result ≡ power_sum self.now u }
    {
        let sum = horner(self.cube, u, self.square);
        let sum = horner(sum, u, self.linear);
        horner(sum, u, self.constant)
    }
}

/// One step of Horner's rule.
fn horner(sum: i64, u: u32, next: i64) -> i64
    requires sum { unsigned_abs sum ≤ 2 ^ 48 }
    requires u { u ≤ 64 }
    requires next { unsigned_abs next ≤ 2 ^ 48 }
    ensures value { result ≡ sum *ℤ pos u +ℤ next }
    ensures most { unsigned_abs result ≤ unsigned_abs sum * 64 + unsigned_abs next }
{
    sum * i64::from(u) + next
}

/// `sum` / 262,144, rounded down.
fn floor(sum: i64) -> i32
    requires { unsigned_abs sum ≤ 262144 * 2 ^ 29 }
    ensures value { result ≡ floor_of sum 262144 }
    ensures near { unsigned_abs result ≤ 2 ^ 29 }
{
    sum.div_euclid(262_144) as i32
}
