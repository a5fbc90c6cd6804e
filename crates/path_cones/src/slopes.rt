//! The simplest of the ways between two slopes.
ghost use Rattle.std.specs.Prelude.{◌≤◌, ◌≤ℤ◌, pos, IfSome, unsigned_abs};
ghost use Rattle.path_cones.specs.Inner.Cones.{IsShort, IsSound};
ghost use Rattle.path_cones.specs.Inner.Slopes.{AreSmallSlopes, IsDescended, IsDescent, IsSlope};
ghost use Rattle.path_cones.specs.Inner.Wedges.{IsQuarter};

use crate::cone::Cone;
use crate::division::Division;
use crate::quarter::Quarter;
use crate::vector::Vector;

/// Euclid's algorithm takes no more steps for numbers up to 131,072.
const MOST_QUOTIENTS: u32 = 32;

/// How far a way goes to the right, and how far up.
#[derive(Clone, Copy)]
pub(crate) struct Slope {
    pub right: u64,
    pub up: u64,
}

/// The slopes from one to another, both included.
#[derive(Clone, Copy)]
pub(crate) struct Slopes {
    pub flat: Slope,
    pub steep: Slope,
}

/// How far Euclid's algorithm has come. A slope between those here stands for as many times `before` as it goes to the
/// right, and as many times `last` as it goes up.
#[derive(Clone, Copy)]
pub(crate) struct Descent {
    pub between: Slopes,
    pub before: Slope,
    pub last: Slope,
}

/// What one step of Euclid's algorithm gives.
#[derive(Clone, Copy)]
pub(crate) enum Descended {
    /// The slope that was sought.
    Found(Slope),
    /// Slopes with lesser numbers, between which it is.
    Farther(Descent),
}

impl Slope {
    /// That of a way, or of the axis that is the border where the way isn't up and to the right.
    fn of(way: Vector) -> Slope
        requires { IsShort 65536 way }
        ensures { IsSlope 131072 result }
    {
        Slope {
            right: at_least_zero(way.x),
            up: at_least_zero(way.y),
        }
    }

    /// A way of this slope.
    pub(crate) fn way(self) -> Vector
        requires { IsSlope 65535 self }
        ensures short { IsShort 65535 result }
        ensures right { pos 0 ≤ℤ result.x }
        ensures up { pos 0 ≤ℤ result.y }
    {
        Vector {
            x: self.right as i64,
            y: self.up as i64,
        }
    }

    /// The sum with a multiple of another one, where it is short.
    fn plus(self, times: u64, other: Slope) -> Option<Slope>
        requires slope { IsSlope 65535 self }
        requires other { IsSlope 65535 other }
        requires times { times ≤ 131072 }
        ensures { IfSome result (IsSlope 65535) }
    {
        let right = self.right + times * other.right;
        let up = self.up + times * other.up;
        if 65535 < right || 65535 < up {
            return None;
        }
        Some(Slope { right, up })
    }
}

impl Slopes {
    /// Those of the ways in a cone, once the quarter is turned to be the one up and to the right.
    //
    // In the strips of these ways the cone's start and each of its points are. Two of the quarters are turned over, so
    // that the borders change places.
    pub(crate) fn of(cone: Cone, quarter: Quarter) -> Slopes
        requires sound { IsSound cone }
        requires quarter { IsQuarter quarter }
        ensures { AreSmallSlopes result }
    {
        let Cone::Between(low, high) = cone else {
            return Slopes {
                flat: Slope { right: 1, up: 0 },
                steep: Slope { right: 0, up: 1 },
            };
        };
        let low = Slope::of(quarter.turned(low));
        let high = Slope::of(quarter.turned(high));
        if quarter.right == quarter.up {
            Slopes {
                flat: low,
                steep: high,
            }
        } else {
            Slopes {
                flat: high,
                steep: low,
            }
        }
    }

    /// Those of the ways in whose strips two places are, of which the one on the left is so far from the one on the
    /// right, if there are any.
    //
    // Across a way (p, q) these are p * y - q * x apart, and its strip is p + q broad. That is as broad where
    // p * (y - 1) is at most q * (x + 1).
    pub(crate) fn cut(self, apart: Vector) -> Option<Slopes>
        requires slopes { AreSmallSlopes self }
        requires apart { IsShort 131070 apart }
        ensures { IfSome result AreSmallSlopes }
    {
        let right = apart.x + 1;
        let up = apart.y - 1;
        if 0 <= right && 0 <= up {
            return Some(Slopes {
                flat: Slope {
                    right: at_least_zero(right),
                    up: at_least_zero(up),
                },
                steep: self.steep,
            });
        }
        if right <= 0 && up <= 0 {
            return Some(Slopes {
                flat: self.flat,
                steep: Slope {
                    right: at_least_zero(-right),
                    up: at_least_zero(-up),
                },
            });
        }
        None
    }

    /// The one between them of a way that goes least to the right and up together, if there is one.
    pub(crate) fn simplest(self) -> Option<Slope>
        requires { AreSmallSlopes self }
        ensures { IfSome result (IsSlope 65535) }
    {
        let mut descent = Descent {
            between: self,
            before: Slope { right: 1, up: 0 },
            last: Slope { right: 0, up: 1 },
        };
        for _ in 0..MOST_QUOTIENTS {
            match descent.farther() {
                Some(Descended::Found(slope)) => return Some(slope),
                Some(Descended::Farther(farther)) => descent = farther,
                None => return None,
            }
        }
        None
    }
}

impl Descent {
    /// One step, if there is a slope between those.
    //
    // 1. The simplest slope that goes 1 to the right goes up by the least whole number that isn't below the flat one.
    // 2. Where that is beyond the steep one, both have the same whole part. It is taken off, and right and up change
    //    places.
    #[inline(always)]
    fn farther(self) -> Option<Descended>
        requires { IsDescent self }
        ensures { IfSome result IsDescended }
    {
        let Slopes { flat, steep } = self.between;
        if steep.right == 0 {
            return Some(Descended::Found(self.last));
        }
        if flat.right == 0 {
            return None;
        }
        let Division { whole, rest } = Division::of(flat.up, flat.right);
        let least = if rest == 0 { whole } else { whole + 1 };
        if least * steep.right <= steep.up {
            return self.found(least);
        }
        let below = whole * steep.right;
        if rest == 0 || steep.up < below {
            return None;
        }
        self.onward(
            whole,
            Slopes {
                flat: Slope {
                    right: steep.up - below,
                    up: steep.right,
                },
                steep: Slope {
                    right: rest,
                    up: flat.right,
                },
            },
        )
    }

    /// The slope that goes up so many times for each time to the right.
    fn found(self, times: u64) -> Option<Descended>
        requires descent { IsDescent self }
        requires times { times ≤ 131072 }
        ensures { IfSome result IsDescended }
    {
        match self.before.plus(times, self.last) {
            Some(slope) => Some(Descended::Found(slope)),
            None => None,
        }
    }

    /// The descent once so many whole steps up are taken off, with the axes exchanged.
    fn onward(self, whole: u64, between: Slopes) -> Option<Descended>
        requires descent { IsDescent self }
        requires whole { whole ≤ 131072 }
        requires between { AreSmallSlopes between }
        ensures { IfSome result IsDescended }
    {
        match self.before.plus(whole, self.last) {
            Some(next) => Some(Descended::Farther(Descent {
                between,
                before: self.last,
                last: next,
            })),
            None => None,
        }
    }
}

/// A number, or 0 where it is below that.
fn at_least_zero(number: i64) -> u64
    requires { unsigned_abs number ≤ 131072 }
    ensures { result ≤ 131072 }
{
    if number < 0 { 0 } else { number as u64 }
}
