//! Cones in the quarter up and to the right, for paths that never go back there.
ghost use Rattle.std.specs.Prelude.{◌≡◌, ◌+◌, ◌*◌, ◌<◌, ◌≤◌, ℕ, pos, ◌+ℤ◌, ◌*ℤ◌, ◌≤ℤ◌, ◌<ℤ◌, IfSome, None};
ghost use Rattle.pt_core.specs.declared.point.Point.{Point};
ghost use Rattle.path_cones.specs.Inner.Funnels.{IsFunnel, IsFunnelOf, IsRunOn};
ghost use Rattle.path_cones.specs.Inner.Cones.{IsSound};
ghost use Rattle.path_cones.specs.Inner.Mirrors.{in_mirror};
ghost use Rattle.path_cones.specs.Inner.Wedges.{IsQuarter};
ghost use Rattle.path_cones.specs.declared.vector.Vector.{Vector};

use crate::cone::Cone;
use crate::division::Division;
use crate::quarter::Quarter;
use crate::vector::Vector;

/// The half-lines of the quarter that come near a path's points so far. The path goes to the right and up alone, and
/// its next run goes to the right.
//
// A run to the right turns the way to the flat border, away from the steep one. So it may leave the funnel below the flat
// border, and only its end may make the steep one narrower: one question for each border. Both products go on by what the
// run adds, so that no point is looked up.
//
// That the path's first points are within 1 of its start takes no case of its own: the corners of the squares around
// those lie on the axes, as the borders do at first.
#[derive(Clone, Copy)]
pub(crate) struct Funnel {
    /// The way to the last point so far.
    pub way: Vector,
    pub flat: Vector,
    pub steep: Vector,
    /// The cross product of the flat border with the way.
    pub above: i64,
    /// The cross product of the way with the steep border.
    pub below: i64,
}

impl Funnel {
    /// The whole quarter, at the path's start.
    pub(crate) fn open() -> Funnel
        ensures { (path : ℕ → Point) → IsFunnelOf path 0 result }
    {
        Funnel {
            way: Vector { x: 0, y: 0 },
            flat: Vector { x: 1, y: 0 },
            steep: Vector { x: 0, y: 1 },
            above: 0,
            below: 0,
        }
    }

    /// The funnel after a run to the right, if it holds the run's end.
    #[inline(always)]
    pub(crate) fn over(self, run: usize) -> Option<Funnel>
        requires funnel { IsFunnel self }
        requires some { 1 ≤ run }
        requires short { (self.way.x +ℤ pos run) ≤ℤ pos 65535 }
        ensures run { IfSome result (IsRunOn self run) }
        ensures held { IfSome result (λ _. (pos run *ℤ self.flat.y) ≤ℤ self.above) }
        ensures left { (result ≡ None) → self.above <ℤ (pos run *ℤ self.flat.y) }
    {
        let run = run as i64;
        let above = self.above - run * self.flat.y;
        if above < 0 {
            return None;
        }
        let below = self.below + run * self.steep.y;
        let way = Vector {
            x: self.way.x + run,
            y: self.way.y,
        };
        if below < self.steep.x + self.steep.y {
            return Some(Funnel {
                way,
                flat: self.flat,
                steep: self.steep,
                above,
                below,
            });
        }
        Some(Funnel {
            way,
            flat: self.flat,
            steep: Vector {
                x: way.x - 1,
                y: way.y + 1,
            },
            above,
            below: way.x + way.y,
        })
    }

    /// The funnel in the mirror that makes columns of rows.
    #[inline(always)]
    pub(crate) fn mirrored(self) -> Funnel
        ensures of { (path : ℕ → Point) (steps : ℕ) → IsFunnelOf path steps self
            → IsFunnelOf (in_mirror path) steps result }
        ensures numbers { IsFunnel self → IsFunnel result }
    {
        Funnel {
            way: self.way.mirrored(),
            flat: self.steep.mirrored(),
            steep: self.flat.mirrored(),
            above: self.below,
            below: self.above,
        }
    }

    /// The funnel in that mirror, or as it is.
    fn seen(self, mirrored: bool) -> Funnel
        requires { IsFunnel self }
        ensures { IsFunnel result }
    {
        if mirrored { self.mirrored() } else { self }
    }

    /// How many steps to the right it holds, where it doesn't hold the end of so long a run.
    pub(crate) fn held(self, run: usize) -> usize
        requires funnel { IsFunnel self }
        requires left { self.above <ℤ (pos run *ℤ self.flat.y) }
        ensures fewer { result < run }
        ensures held { (pos result *ℤ self.flat.y) ≤ℤ self.above }
        ensures no_more { self.above <ℤ (pos (result + 1) *ℤ self.flat.y) }
    {
        Division::of(self.above as u64, self.flat.y as u64).whole as usize
    }

    /// The cone between its borders, in the quarter that was turned to be the one up and to the right, and maybe mirrored then.
    //
    // Two of the quarters are turned over for that, so that the borders change places.
    pub(crate) fn cone(self, quarter: Quarter, mirrored: bool) -> Cone
        requires funnel { IsFunnel self }
        requires quarter { IsQuarter quarter }
        ensures { IsSound result }
    {
        let seen = self.seen(mirrored);
        let flat = quarter.turned(seen.flat);
        let steep = quarter.turned(seen.steep);
        if quarter.right == quarter.up {
            Cone::Between(flat, steep)
        } else {
            Cone::Between(steep, flat)
        }
    }
}
