//! Cones of half-lines from one point.
ghost use Rattle.std.specs.Prelude.{◌↔◌, IsTrue};
ghost use Rattle.path_cones.specs.Straight.{IsNear};
ghost use Rattle.path_cones.specs.Inner.Cones.{HoldsWay, IsSound, IsShort, IsProper, IsBetween};
ghost use Rattle.path_cones.specs.declared.vector.Vector.{Vector};

use crate::vector::Vector;

/// The half-lines from a point that come near all points so far.
///
/// ```text
///                . high
///            .     +--+
///        .         |  |    a point that isn't near the start, and the square within 1 of it:
///     o            |  |    the cone goes from one of its corners to another
///        .         +--+
///            .
///                . low
/// ```
#[derive(Clone, Copy)]
pub enum Cone {
    /// All half-lines, since each point so far is within 1 of the start.
    Open,
    /// Those from `low` to `high`, counted to the left; the borders belong to it.
    Between(Vector, Vector),
}

impl Cone {
    /// Whether the half-line through the end of this way is in the cone.
    pub fn holds(self, way: Vector) -> bool
        requires sound { IsSound self }
        requires short { IsShort 65535 way }
        ensures { IsTrue result ↔ HoldsWay self way }
    {
        match self {
            Cone::Open => true,
            Cone::Between(low, high) => lies_between(low, high, way),
        }
    }

    /// The half-lines of the cone that also come near the end of this way, which the cone holds.
    pub fn narrowed(self, way: Vector) -> Cone
        requires sound { IsSound self }
        requires short { IsShort 65535 way }
        requires held { HoldsWay self way }
        ensures sound { IsSound result }
        ensures both { (other : Vector) → HoldsWay result other
            ↔ (HoldsWay self other × IsNear way other) }
    {
        if way.is_small() {
            return self;
        }
        let low = way.low();
        let high = way.high();
        match self {
            Cone::Open => Cone::Between(low, high),
            Cone::Between(old_low, old_high) => {
                Cone::Between(old_low.more_left(low), old_high.more_right(high))
            }
        }
    }
}

/// Whether the way lies from `low` to `high`, counted to the left.
fn lies_between(low: Vector, high: Vector, way: Vector) -> bool
    requires proper { IsProper low high }
    requires short { IsShort 65535 way }
    ensures { IsTrue result ↔ IsBetween low high way }
{
    if way.is_nowhere() {
        return false;
    }
    if low.cross(way) < 0 {
        return false;
    }
    way.cross(high) >= 0
}
