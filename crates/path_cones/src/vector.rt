//! Vectors between points, and which way one turns from another.
ghost use Rattle.std.specs.Prelude.{◌≡◌, ◌↔◌, ◌⊎◌, ◌^◌, ◌≤◌, ◌<◌, ◌≤ℤ◌, ◌<ℤ◌, pos, IsTrue, unsigned_abs};
ghost use Rattle.path_cones.specs.Inner.Codes.{beyond};
ghost use Rattle.path_cones.specs.Inner.Mirrors.{mirrored_of};
ghost use Rattle.path_cones.specs.Straight.{vector_of};
ghost use Rattle.path_cones.specs.Cones.{cross_of};
ghost use Rattle.path_cones.specs.Inner.Cones.{nowhere, AreShort, IsShort, IsSmall, lead_of, to_left_of, low_of, high_of, rise_of};

use pt_core::Point;

/// How far one point is from another, in pixels: `x` to the right and `y` up.
#[derive(Clone, Copy)]
pub struct Vector {
    pub x: i64,
    pub y: i64,
}

impl Vector {
    /// How far the second point is from the first.
    pub fn between(from: Point, to: Point) -> Vector
        ensures { result ≡ vector_of from to }
    {
        Vector {
            x: i64::from(to.x) - i64::from(from.x),
            y: i64::from(to.y) - i64::from(from.y),
        }
    }

    /// The vector with a step more, which goes into the direction of this number: 0 east, 1 north, 2 west, 3 south.
    //
    // Two tests and a sum: as four cases it would be a jump that the processor can't foresee.
    pub fn stepped(self, digit: u32) -> Vector
        requires digit { digit < 4 }
        requires short { IsShort 65535 self }
        ensures { result ≡ beyond self digit }
    {
        if digit % 2 == 0 {
            Vector {
                x: self.x + (1 - i64::from(digit)),
                y: self.y,
            }
        } else {
            Vector {
                x: self.x,
                y: self.y + (2 - i64::from(digit)),
            }
        }
    }

    /// Whether it goes nowhere, from a point to itself.
    pub fn is_nowhere(self) -> bool
        ensures { IsTrue result ↔ (self ≡ nowhere) }
    {
        self.x == 0 && self.y == 0
    }

    /// Whether it goes along a column, if anywhere.
    pub(crate) fn is_upright(self) -> bool
        ensures { IsTrue result ↔ (self.x ≡ pos 0) }
    {
        self.x == 0
    }

    pub(crate) fn is_same(self, other: Vector) -> bool
        ensures { IsTrue result ↔ (self ≡ other) }
    {
        self.x == other.x && self.y == other.y
    }

    /// Whether the end is within 1 of the start.
    pub(crate) fn is_small(self) -> bool
        ensures { IsTrue result ↔ IsSmall self }
    {
        -1 <= self.x && self.x <= 1 && -1 <= self.y && self.y <= 1
    }

    /// The cross product: positive where `other` lies to the left of this one.
    pub(crate) fn cross(self, other: Vector) -> i64
        requires { AreShort 65536 self other }
        ensures { result ≡ cross_of self other }
    {
        self.x * other.y - self.y * other.x
    }

    /// The vector turned to the left by a right angle.
    pub fn to_left(self) -> Vector
        requires { IsShort 65535 self }
        ensures value { result ≡ to_left_of self }
        ensures short { IsShort 65535 result }
    {
        Vector {
            x: -self.y,
            y: self.x,
        }
    }

    /// How far along the vector a point is, from (0, 0) on, times the vector's length.
    #[inline(always)]
    pub fn rise(self, point: Point) -> i64
        requires { IsShort 65535 self }
        ensures value { result ≡ rise_of self point }
        ensures most { unsigned_abs result ≤ 2 ^ 48 }
    {
        self.x * i64::from(point.x) + self.y * i64::from(point.y)
    }

    /// The corner, farthest to the right, of the square within 1 of the end.
    pub(crate) fn low(self) -> Vector
        requires { IsShort 65535 self }
        ensures value { result ≡ low_of self }
        ensures short { IsShort 65536 result }
    {
        Vector {
            x: self.x + lead(self.y, -self.x),
            y: self.y + lead(-self.x, -self.y),
        }
    }

    /// The corner, farthest to the left, of the square within 1 of the end.
    pub(crate) fn high(self) -> Vector
        requires { IsShort 65535 self }
        ensures value { result ≡ high_of self }
        ensures short { IsShort 65536 result }
    {
        // In the mirror that makes columns of rows it is the one farthest to the right.
        let mirrored = Vector {
            x: self.y,
            y: self.x,
        };
        let low = mirrored.low();
        Vector { x: low.y, y: low.x }
    }

    /// The vector in the mirror that makes columns of rows.
    #[inline(always)]
    pub(crate) fn mirrored(self) -> Vector
        ensures { result ≡ mirrored_of self }
    {
        Vector {
            x: self.y,
            y: self.x,
        }
    }

    /// Of the two, the one farther to the left.
    pub(crate) fn more_left(self, other: Vector) -> Vector
        requires { AreShort 65536 self other }
        ensures { ((result ≡ other) × (pos 0 ≤ℤ cross_of self other))
            ⊎ ((result ≡ self) × (cross_of self other <ℤ pos 0)) }
    {
        if self.cross(other) >= 0 { other } else { self }
    }

    /// Of the two, the one farther to the right.
    pub(crate) fn more_right(self, other: Vector) -> Vector
        requires { AreShort 65536 self other }
        ensures { ((result ≡ other) × (pos 0 ≤ℤ cross_of other self))
            ⊎ ((result ≡ self) × (cross_of other self <ℤ pos 0)) }
    {
        if other.cross(self) >= 0 { other } else { self }
    }
}

/// 1 where `first` is positive, or is 0 and `second` is positive; else -1.
//
// The second is less than the weight of the first, so it tells the sum's sign only where the first is 0.
fn lead(first: i64, second: i64) -> i64
    requires first { unsigned_abs first ≤ 65535 }
    requires second { unsigned_abs second ≤ 65535 }
    ensures { result ≡ lead_of first second }
{
    if first * 65536 + second > 0 { 1 } else { -1 }
}
