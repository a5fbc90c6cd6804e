//! Two laps of a closed walk, so that indices need no wrapping round.
ghost use Rattle.std.specs.Prelude.{◌≡◌, ◌⊎◌, ◌+◌, ◌<◌, ◌≤◌, length};
ghost use Rattle.pt_core.specs.ClosedWalk.{point_at};
ghost use Rattle.path_cones.specs.Straight.{vector_of};
ghost use Rattle.path_cones.specs.Inner.Tails.{known_of, limit_of};

use crate::vector::Vector;
use pt_core::{MOST_STEPS, Point};
use std::cmp::min;
use std::marker::Model;

/// The points of a closed walk, counted on into a second lap. Contracts see those of one lap.
//
// They are looked up in the walk's own list, and a lookup asks whether its index is beyond the first lap. Scans go by the
// list of corners, and a loop over indices of one lap alone asks that once.
#[derive(Drop)]
pub(crate) struct Laps<'p> {
    points: &'p [Point],
}

impl<'p> Model for Laps<'p> {
    ghost use Rattle.std.specs.Prelude.{◌≤◌, List, length};
    ghost use Rattle.pt_core.specs.declared.point.Point.{Point};

    ghost Value = { List Point };

    ghost view = { λ laps. laps.points.now };

    ghost invariant = { λ laps. record {
      some : 1 ≤ length laps.points.now;
      most : length laps.points.now ≤ 2147483648;
    } };
}

impl<'p> Laps<'p> {
    pub(crate) fn of(points: &'p [Point]) -> Laps<'p>
        requires some { 1 ≤ length points.now }
        requires most { length points.now ≤ 2147483648 }
        ensures { result ≡ points.now }
    {
        Laps { points }
    }

    /// The number of points of one lap.
    pub(crate) fn size(&self) -> usize
        ensures value { result ≡ length self.now }
        ensures some { 1 ≤ result }
        ensures most { result ≤ 2147483648 }
    {
        self.points.len()
    }

    /// The points of one lap.
    #[inline(always)]
    pub(crate) fn points(&self) -> &'p [Point]
        ensures { result.now ≡ self.now }
    {
        self.points
    }

    /// A point of the first lap.
    #[inline(always)]
    pub(crate) fn in_lap(&self, index: usize) -> Point
        requires { index < length self.now }
        ensures { result ≡ point_at self.now index }
    {
        let points = self.points;
        points[index]
    }

    pub(crate) fn at(&self, index: usize) -> Point
        requires { index < known_of self.now }
        ensures value { result ≡ point_at self.now index }
        ensures few { length self.now ≤ 2147483648 }
    {
        let size = self.size();
        if index < size {
            self.in_lap(index)
        } else {
            self.in_lap(index - size)
        }
    }

    /// The most steps that matter: those of a possible segment, one before it and one after it.
    pub(crate) fn limit(&self) -> usize
        ensures value { result ≡ limit_of self.now }
        ensures most { result < length self.now }
    {
        min(self.size() - 1, MOST_STEPS as usize + 2)
    }

    /// The step from this index to the next one.
    pub(crate) fn step(&self, index: usize) -> Vector
        requires { index + 1 < known_of self.now }
        ensures { result ≡ vector_of (point_at self.now index) (point_at self.now (index + 1)) }
    {
        let size = self.size();
        if index + 1 < size {
            return Vector::between(self.in_lap(index), self.in_lap(index + 1));
        }
        Vector::between(self.at(index), self.at(index + 1))
    }

    /// The way from a point of the first lap to an index.
    pub(crate) fn way(&self, first: usize, to: usize) -> Vector
        requires first { first < length self.now }
        requires to { to < known_of self.now }
        ensures { result ≡ vector_of (point_at self.now first) (point_at self.now to) }
    {
        Vector::between(self.in_lap(first), self.at(to))
    }
}

/// The point at an index of the lap that begins at `begin`.
#[inline(always)]
pub fn point_of_lap(points: &[Point], begin: usize, index: usize) -> Point
    requires begin { (begin ≡ 0) ⊎ (begin ≡ length points.now) }
    requires after { begin ≤ index }
    requires before { index < begin + length points.now }
    ensures { result ≡ point_at points.now index }
{
    points[index - begin]
}
