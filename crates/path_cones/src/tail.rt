//! What is straight from an index on, within two laps.
ghost use Rattle.std.specs.Prelude.{◌≡◌, ◌+◌, ◌≤◌, List, max};
ghost use Rattle.pt_core.specs.declared.point.Point.{Point};
ghost use Rattle.path_cones.specs.Inner.Tails.{IsTail, IsAhead, IsClearBefore, IsIndexOf, IsSooner, IsSoonerOnward, both_back_of, by_direction, last_of, with_onward};
ghost use Rattle.path_cones.specs.Inner.Wedges.{IsQuarter, IsSign};

use crate::quarter::Quarter;
use crate::track::Track;
use crate::vector::Vector;

/// Where a step into each direction is taken next, as far as a last index can tell: an index of two laps, or the last one where
/// none is known before it.
//
// So the four directions aren't counted in the scan of each cone, which has one test less a step, and the
// definition's two parts are proved apart. The price: a cone may be followed past the fourth direction.
#[derive(Clone, Copy)]
pub struct Ahead {
    pub east: usize,
    pub north: usize,
    pub west: usize,
    pub south: usize,
    pub last: usize,
}

/// Where the two steps that go onward in a quarter are taken next: along a row, and along a column.
//
// Along such steps nothing else of `Ahead` changes, so a loop over them keeps no more than this.
#[derive(Clone, Copy)]
pub struct NextOnward {
    pub row: usize,
    pub column: usize,
}

impl Ahead {
    /// At the last index: no step is known to be taken.
    pub fn at_last(last: usize) -> Ahead
        ensures ahead { (points : List Point) → last ≤ last_of points → IsAhead points last result }
        ensures last { result.last ≡ last }
    {
        Ahead {
            east: last,
            north: last,
            west: last,
            south: last,
            last,
        }
    }

    /// Where each step is taken next, seen from one index earlier.
    pub fn earlier(self, track: &Track, index: usize) -> Ahead
        requires later { IsAhead track.now (index + 1) self }
        ensures ahead { IsAhead track.now index result }
        ensures same_last { result.last ≡ self.last }
    {
        self.sooner(track.step(index), index)
    }

    /// Where each step is taken next, if this one is taken at an earlier index.
    pub fn sooner(self, step: Vector, index: usize) -> Ahead
        ensures { IsSooner self step index result }
    {
        Ahead {
            east: sooner_in_row(step, Vector { x: 1, y: 0 }, index, self.east),
            north: sooner_in_column(step, Vector { x: 0, y: 1 }, index, self.north),
            west: sooner_in_row(step, Vector { x: -1, y: 0 }, index, self.west),
            south: sooner_in_column(step, Vector { x: 0, y: -1 }, index, self.south),
            last: self.last,
        }
    }

    /// Where the steps that go onward in a quarter are taken next.
    #[inline(always)]
    pub fn onward(self, quarter: Quarter) -> NextOnward
        requires { IsQuarter quarter }
        ensures { with_onward quarter self result ≡ self }
    {
        NextOnward {
            row: by_direction(quarter.right, self.west, self.east),
            column: by_direction(quarter.up, self.south, self.north),
        }
    }

    /// The same places, but for those of the steps that go onward in a quarter.
    #[inline(always)]
    pub fn with_onward(self, quarter: Quarter, onward: NextOnward) -> Ahead
        requires { IsQuarter quarter }
        ensures { result ≡ with_onward quarter self onward }
    {
        Ahead {
            east: by_direction(quarter.right, self.east, onward.row),
            north: by_direction(quarter.up, self.north, onward.column),
            west: by_direction(quarter.right, onward.row, self.west),
            south: by_direction(quarter.up, onward.column, self.south),
            last: self.last,
        }
    }

    /// Where the later of the two directions that go back in a quarter is taken first.
    pub fn behind(self, quarter: Quarter) -> usize
        requires { IsQuarter quarter }
        ensures { result ≡ both_back_of quarter self }
    {
        let in_row = if quarter.right < 0 {
            self.east
        } else {
            self.west
        };
        let in_column = if quarter.up < 0 {
            self.north
        } else {
            self.south
        };
        in_row.max(in_column)
    }

    /// Where the last of the four directions is taken first.
    fn all(self) -> usize
        ensures { result ≡ max (max self.east self.north) (max self.west self.south) }
    {
        self.east.max(self.north).max(self.west.max(self.south))
    }
}

impl NextOnward {
    /// The same, if this one of those steps is taken at an earlier index.
    #[inline(always)]
    pub fn sooner(self, step: Vector, index: usize) -> NextOnward
        ensures { IsSoonerOnward self step index result }
    {
        let none = Vector { x: 0, y: 0 };
        NextOnward {
            row: sooner_in_row(step, none, self.row, index),
            column: sooner_in_row(step, none, index, self.column),
        }
    }
}

/// Of two indices the second one where the sign is 1, else the first one.
fn by_direction(sign: i64, below: usize, above: usize) -> usize
    requires { IsSign sign }
    ensures { result ≡ by_direction sign below above }
{
    if sign < 0 { below } else { above }
}

/// The index where the step goes as far along its row as the wanted one, and else the later index.
fn sooner_in_row(step: Vector, wanted: Vector, index: usize, later: usize) -> usize
    ensures { IsIndexOf step.x wanted.x index later result }
{
    if step.x == wanted.x { index } else { later }
}

/// The index where the step goes as far along its column as the wanted one, and else the later index.
fn sooner_in_column(step: Vector, wanted: Vector, index: usize, later: usize) -> usize
    ensures { IsIndexOf step.y wanted.y index later result }
{
    if step.y == wanted.y { index } else { later }
}

/// Where the longest straight subpath from an index ends: an index of two laps, and where each direction is taken from there on.
#[derive(Clone, Copy)]
pub struct Tail {
    pub end: usize,
    pub ahead: Ahead,
}

impl Tail {
    /// Where the longest straight subpath from one index earlier ends; the cones from there hold for so many steps before
    /// this tail's end.
    //
    // A subpath is straight if the rest after its first step is, if the cones from its first point
    // hold to its end, and if it ends before the last of the four directions is taken.
    pub fn earlier(self, track: &Track, index: usize, clear: usize) -> Tail
        requires clear { IsClearBefore track.now index self.end clear }
        requires later { IsTail track.now (index + 1) self }
        ensures tail { IsTail track.now index result }
        ensures same_last { result.ahead.last ≡ self.ahead.last }
        ensures no_later { result.end ≤ self.end }
    {
        let ahead = self.ahead.earlier(track, index);
        Tail {
            end: ahead.all().min(index + clear),
            ahead,
        }
    }
}
