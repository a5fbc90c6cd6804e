//! Quarters of the plane.
ghost use Rattle.std.specs.Prelude.{◌≡◌, ◌↔◌, ◌≤◌, ◌-ℤ◌, ◌*ℤ◌, ◌≤ℤ◌, pos, unsigned_abs, IsTrue};
ghost use Rattle.path_cones.specs.Cones.{cross_of};
ghost use Rattle.path_cones.specs.Inner.Cones.{low_of, high_of, IsShort};
ghost use Rattle.path_cones.specs.Inner.Wedges.{GoesOnward, IsQuarter, IsSign, diagonal_of, far_of};
ghost use Rattle.path_cones.specs.declared.vector.Vector.{Vector};

use crate::vector::Vector;

/// A quarter of the plane: 1 or -1, the sign of each coordinate in it.
#[derive(Clone, Copy)]
pub struct Quarter {
    pub right: i64,
    pub up: i64,
}

impl Quarter {
    /// A quarter that the way goes into, and not out of.
    pub(crate) fn of(way: Vector) -> Quarter
        ensures quarter { IsQuarter result }
        ensures right { pos 0 ≤ℤ (result.right *ℤ way.x) }
        ensures up { pos 0 ≤ℤ (result.up *ℤ way.y) }
    {
        Quarter {
            right: sign(way.x),
            up: sign(way.y),
        }
    }

    /// A vector as it is once the quarter is turned to be the one up and to the right.
    pub(crate) fn turned(self, way: Vector) -> Vector
        requires quarter { IsQuarter self }
        requires short { IsShort 65536 way }
        ensures x { result.x ≡ self.right *ℤ way.x }
        ensures y { result.y ≡ self.up *ℤ way.y }
        ensures short { IsShort 65536 result }
    {
        Vector {
            x: signed(self.right, way.x),
            y: signed(self.up, way.y),
        }
    }

    /// How far a vector goes into the quarter.
    pub(crate) fn far(self, way: Vector) -> i64
        requires quarter { IsQuarter self }
        requires short { IsShort 65536 way }
        ensures value { result ≡ far_of self way }
        ensures most { unsigned_abs result ≤ 131072 }
    {
        let turned = self.turned(way);
        turned.x + turned.y
    }

    /// The vector that goes into the quarter by 1 in each coordinate.
    pub fn diagonal(self) -> Vector
        requires { IsQuarter self }
        ensures value { result ≡ diagonal_of self }
        ensures short { IsShort 65535 result }
    {
        Vector {
            x: self.right,
            y: self.up,
        }
    }
}

/// 1, or -1 below 0.
fn sign(number: i64) -> i64
    ensures sign { IsSign result }
    ensures same { pos 0 ≤ℤ (result *ℤ number) }
{
    if number < 0 { -1 } else { 1 }
}

/// A number times a sign.
fn signed(sign: i64, number: i64) -> i64
    requires sign { IsSign sign }
    requires short { unsigned_abs number ≤ 65536 }
    ensures value { result ≡ sign *ℤ number }
    ensures most { unsigned_abs result ≤ 65536 }
{
    sign * number
}
