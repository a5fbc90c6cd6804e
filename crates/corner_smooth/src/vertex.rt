//! The piece of an outline at a vertex.
ghost use Rattle.std.specs.Prelude.{◌≡◌, ◌≤◌, ◌+◌, ◌^◌, ◌+ℤ◌, ◌*ℤ◌, pos, unsigned_abs};
ghost use Rattle.pt_core.specs.Floor.{floor_of};
ghost use Rattle.corner_smooth.specs.Corner.{IsInReach, IsNearWidePage, HasRoundness, StaysNear, control_of, curve_of, middle_of, part_of, piece_of};

use crate::corner::{al, is_corner, sharpness};
use crate::triangle::between;
use pt_core::{Piece, Point};

/// The piece at a vertex between its neighbours: a corner where it is as sharp as `alphamax` millionths.
#[tactic(auto, unfolding(crate::specs::Corner::piece_of))]
pub(crate) fn piece(alphamax: u32, before: Point, at: Point, after: Point) -> Piece
    requires before { IsNearWidePage before }
    requires at { IsNearWidePage at }
    requires after { IsNearWidePage after }
    ensures value { result ≡ piece_of alphamax before at after }
    ensures near { StaysNear result }
    ensures round { HasRoundness result }
{
    let sharpness = sharpness(before, at, after);
    if is_corner(alphamax, sharpness) {
        let end = middle(at, after);
        Piece::Corner { at, end }
    } else {
        curve(al(sharpness), before, at, after)
    }
}

/// The curve at a vertex between its neighbours.
fn curve(al: u32, before: Point, at: Point, after: Point) -> Piece
    requires least { 36045 ≤ al }
    requires most { al ≤ 65536 }
    requires before { IsNearWidePage before }
    requires at { IsNearWidePage at }
    requires after { IsNearWidePage after }
    ensures value { result ≡ curve_of al before at after }
    ensures near { StaysNear result }
    ensures round { HasRoundness result }
{
    Piece::Curve {
        first: control(al, before, at),
        second: control(al, after, at),
        end: middle(at, after),
        al,
    }
}

/// A curve's control between a neighbour and the vertex.
fn control(al: u32, neighbour: Point, at: Point) -> Point
    requires al { al ≤ 65536 }
    requires neighbour { IsNearWidePage neighbour }
    requires at { IsNearWidePage at }
    ensures value { result ≡ control_of al neighbour at }
    ensures near { IsNearWidePage result }
{
    Point {
        x: part(al, neighbour.x, at.x),
        y: part(al, neighbour.y, at.y),
    }
}

/// The coordinate that lies (65536 + `al`) / 131072 of the way from one to another, rounded down.
//
// Each coordinate is rounded by itself, so a control is off its side of the polygon by less than 1/1024 pixel each
// way.
fn part(al: u32, from: i32, to: i32) -> i32
    requires al { al ≤ 65536 }
    requires from { IsInReach from }
    requires to { IsInReach to }
    ensures value { result ≡ part_of al from to }
    ensures reach { IsInReach result }
{
    (i64::from(from) + share(al, between(from, to))) as i32
}

/// So much of the way, rounded down.
fn share(al: u32, way: i64) -> i64
    requires al { al ≤ 65536 }
    requires way { unsigned_abs way ≤ 2 ^ 25 }
    ensures value { result ≡ floor_of (pos (65536 + al) *ℤ way) 131072 }
    ensures most { unsigned_abs result ≤ 2 ^ 25 }
{
    (i64::from(65536 + al) * way).div_euclid(131_072)
}

/// Halfway between two places, rounded down.
fn middle(p: Point, q: Point) -> Point
    requires p { IsNearWidePage p }
    requires q { IsNearWidePage q }
    ensures value { result ≡ middle_of p q }
    ensures near { IsNearWidePage result }
{
    Point {
        x: half_way(p.x, q.x),
        y: half_way(p.y, q.y),
    }
}

/// Halfway between two coordinates, rounded down.
fn half_way(a: i32, b: i32) -> i32
    requires a { IsInReach a }
    requires b { IsInReach b }
    ensures value { result ≡ floor_of (a +ℤ b) 2 }
    ensures reach { IsInReach result }
{
    (a + b).div_euclid(2)
}
