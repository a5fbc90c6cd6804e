//! A closed walk with its corners.
ghost use Rattle.std.specs.Prelude.{◌≡◌, ◌↔◌, ◌⊎◌, ◌+◌, ◌-◌, ◌*◌, ◌<◌, ◌≤◌, length, IfOk, IsTrue};
ghost use Rattle.pt_core.specs.ClosedWalk.{IsClosedWalk, point_at};
ghost use Rattle.pt_core.specs.OnPage.{AreOnPage};
ghost use Rattle.path_cones.specs.Inner.Cones.{IsShort};
ghost use Rattle.path_cones.specs.Inner.Corners.{GoesStraight};
ghost use Rattle.path_cones.specs.Corners.{IsNextCorner, step_from};
ghost use Rattle.path_cones.specs.Straight.{vector_of, path_from};
ghost use Rattle.path_cones.specs.Inner.Tails.{limit_of, last_of, way_along, IsAtPlace, IsSubpath};

use crate::corners::corners_of;
use crate::laps::Laps;
use crate::vector::Vector;
use pt_core::{NoMemory, Point};
use std::alloc::Global;
use std::cmp::min;
use std::marker::Model;

/// Two laps of a closed walk on a page, and its corners. Contracts see the points of one lap.
#[derive(Drop)]
pub struct Track<'p> {
    laps: Laps<'p>,
    /// For each point, the number of steps to the next corner.
    corners: Vec<u32>,
}

impl<'p> Model for Track<'p> {
    ghost use Rattle.std.specs.Prelude.{◌≡◌, List, length};
    ghost use Rattle.pt_core.specs.declared.point.Point.{Point};
    ghost use Rattle.pt_core.specs.ClosedWalk.{IsClosedWalk};
    ghost use Rattle.pt_core.specs.OnPage.{AreOnPage};
    ghost use Rattle.path_cones.specs.Inner.Corners.{AreNextCorners};

    ghost Value = { List Point };

    ghost view = { λ track. track.laps };

    ghost invariant = { λ track. record {
      closed : IsClosedWalk track.laps;
      on_page : AreOnPage track.laps;
      places : length track.corners.items ≡ length track.laps;
      corners : AreNextCorners track.laps track.corners.items;
    } };
}

impl<'p> Track<'p> {
    /// Two laps of this walk; its corners are looked for, once round.
    pub fn of(alloc: Global, points: &'p [Point]) -> Result<Track<'p>, NoMemory>
        requires closed { IsClosedWalk points.now }
        requires on_page { AreOnPage points.now }
        ensures { IfOk result (λ track. track ≡ points.now) }
    {
        let laps = Laps::of(points);
        let corners = corners_of(alloc, &laps)?;
        Ok(Track { laps, corners })
    }

    /// The number of points of one lap.
    pub fn size(&self) -> usize
        ensures value { result ≡ length self.now }
        ensures some { 1 ≤ result }
        ensures most { result ≤ 2147483648 }
        ensures closed { IsClosedWalk self.now }
    {
        self.laps.size()
    }

    /// The most steps that matter: those of a possible segment, one before it and one after it.
    pub fn limit(&self) -> usize
        ensures value { result ≡ limit_of self.now }
        ensures most { result < length self.now }
        ensures few { length self.now ≤ 2147483648 }
        ensures closed { IsClosedWalk self.now }
    {
        self.laps.limit()
    }

    /// The last index of the two laps that matters: no subpath from a point of the first lap is looked
    /// at beyond it.
    pub(crate) fn last(&self) -> usize
        ensures value { result ≡ last_of self.now }
        ensures within { result < 2 * length self.now }
        ensures few { length self.now ≤ 2147483648 }
        ensures closed { IsClosedWalk self.now }
    {
        self.size() + self.limit()
    }

    /// The step from this index of two laps to the next one: by 1 along a row or a column.
    pub fn step(&self, index: usize) -> Vector
        requires { index < last_of self.now }
        ensures value { result ≡ vector_of (point_at self.now index) (point_at self.now (index + 1)) }
        ensures unit { IsShort 1 result }
        ensures closed { IsClosedWalk self.now }
    {
        self.laps.step(index)
    }

    /// The points of one lap.
    #[inline(always)]
    pub fn points(&self) -> &'p [Point]
        ensures { result.now ≡ self.now }
    {
        self.laps.points()
    }

    /// The point at an index of two laps.
    #[inline(always)]
    pub fn point(&self, index: usize) -> Point
        requires { index ≤ last_of self.now }
        ensures { result ≡ point_at self.now index }
    {
        self.laps.at(index)
    }

    /// The number of steps, at least one, from this point of the first lap to the next corner.
    pub fn next_corner(&self, point: usize) -> u32
        requires { point < length self.now }
        ensures { IsNextCorner self.now point result }
    {
        self.corners[point]
    }

    /// The number of steps from the first point to the next corner, on the way from there on and
    /// after so many steps.
    pub(crate) fn corner_after(&self, first: usize, steps: usize) -> usize
        requires { IsSubpath self.now first steps }
        ensures later { steps < result }
        ensures corner { IsNextCorner self.now (first + steps) (result - steps) }
    {
        let rest = self.size() - first;
        if steps < rest {
            steps + self.next_corner(first + steps) as usize
        } else {
            steps + self.next_corner(steps - rest) as usize
        }
    }

    /// The same, where it is told whether the point after these steps is known to be in the first lap.
    //
    // So a loop whose points are all there asks for none of them by itself.
    #[inline(always)]
    pub(crate) fn corner_within(&self, first: usize, steps: usize, in_lap: bool) -> usize
        requires subpath { IsSubpath self.now first steps }
        requires in_lap { IsTrue in_lap → first + steps < length self.now }
        ensures later { steps < result }
        ensures corner { IsNextCorner self.now (first + steps) (result - steps) }
    {
        // By the number of points no sum here is too large.
        let _size = self.size();
        if in_lap {
            return steps + self.next_corner(first + steps) as usize;
        }
        self.corner_after(first, steps)
    }

    /// The end of the straight run that goes on after so many steps from the first point, or `most` where it goes
    /// on beyond that.
    pub(crate) fn run_end(&self, first: usize, steps: usize, most: usize) -> usize
        requires subpath { IsSubpath self.now first most }
        requires steps { steps < most }
        ensures later { steps < result }
        ensures within { result ≤ most }
        ensures run { GoesStraight (path_from self.now first) steps (result - steps) }
    {
        min(self.corner_after(first, steps), most)
    }

    /// The place in the first lap of an index of two laps.
    pub fn place(&self, index: usize) -> usize
        requires { index ≤ last_of self.now }
        ensures few { length self.now ≤ 2147483648 }
        ensures at { IsAtPlace self.now result index }
        ensures within { result < length self.now }
    {
        let size = self.size();
        if index < size { index } else { index - size }
    }

    /// Where the lap begins in which the index before this one is.
    #[inline(always)]
    pub fn lap_before(&self, index: usize) -> usize
        requires { index ≤ last_of self.now }
        ensures begin { (result ≡ 0) ⊎ (result ≡ length self.now) }
        ensures after { result ≤ index }
        ensures before { index ≤ result + length self.now }
    {
        let size = self.size();
        if index <= size { 0 } else { size }
    }

    /// The way from this point to the one so many steps on.
    pub(crate) fn way(&self, first: usize, steps: usize) -> Vector
        requires { IsSubpath self.now first steps }
        ensures value { result ≡ way_along (path_from self.now first) steps }
        ensures short { IsShort 65535 result }
        ensures closed { IsClosedWalk self.now }
    {
        // By the number of points the sum isn't too large.
        let _size = self.size();
        self.laps.way(first, first + steps)
    }
}
