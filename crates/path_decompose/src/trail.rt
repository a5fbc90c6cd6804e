//! What is noted down of a walk along a boundary.
ghost use Rattle.std.specs.Prelude.{◌≡◌, ◌≤◌, ◌^◌, [], ◌∷◌, IfOk, OnOk};
ghost use Rattle.pt_core.specs.declared.limits.TheConstants.{LONGEST_SIDE};
ghost use Rattle.path_decompose.specs.Inner.Trail.{AreNoted, AreSumsBelow};

use pt_core::{NoMemory, Point};
use std::alloc::Global;
use std::mem::replace;
use turn_policies::{Dir, Edge};

/// The list of a walk of more points isn't copied.
const LONG: usize = 1 << 12;

/// What is noted down of a walk along a boundary. A trail serves for one walk after another.
#[derive(Drop)]
pub(crate) struct Trail {
    /// The corners where its edges begin.
    pub points: Vec<Point>,
    /// The columns of the upright lines that it goes up, summed up.
    pub up: u64,
    /// The columns of those that it goes down, summed up.
    pub down: u64,
}

impl Trail {
    /// The trail of no walk.
    pub(crate) fn new(alloc: Global) -> Trail {
        Trail {
            points: Vec::new(alloc),
            up: 0,
            down: 0,
        }
    }

    /// Forgets the walk.
    pub(crate) fn clear(&mut self)
        ensures points { self.new.points.items ≡ [] }
        ensures up { self.new.up ≡ 0 }
        ensures down { self.new.down ≡ 0 }
    {
        self.points.clear();
        self.up = 0;
        self.down = 0;
    }

    /// Notes an edge down: the corner where it begins, and its column if it goes up or down.
    #[inline(always)]
    pub(crate) fn note(&mut self, edge: Edge) -> Result<(), NoMemory>
        requires column { edge.x ≤ LONGEST_SIDE }
        requires row { edge.y ≤ LONGEST_SIDE }
        requires sums { AreSumsBelow (2 ^ 63) self.old }
        ensures { OnOk result (AreNoted self.old self.new (edge ∷ [])) }
    {
        let Edge { x, y, heading } = edge;
        self.points.push(Point {
            x: x as i32,
            y: y as i32,
        })?;
        match heading {
            Dir::North => self.up += u64::from(x),
            Dir::South => self.down += u64::from(x),
            Dir::East | Dir::West => {}
        }
        Ok(())
    }

    /// The walk's points, in a list of their own.
    //
    // A long walk hands out its own one: a copy would be as much memory again that is used for the first time.
    pub(crate) fn take_points(&mut self, alloc: Global) -> Result<Vec<Point>, NoMemory>
        ensures { IfOk result (λ points. points.items ≡ self.old.points.items) }
    {
        if self.points.len() > LONG {
            let mut points = replace(&mut self.points, Vec::new(alloc));
            points.shrink_to_fit();
            return Ok(points);
        }
        let points = Vec::from_slice(alloc, &self.points)?;
        Ok(points)
    }
}
