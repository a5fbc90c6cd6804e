//! A cache of normals and of shifts.
ghost use Rattle.std.specs.Prelude.{◌≡◌, ℕ, true};
ghost use Rattle.vertex_adjust.specs.Inner.LineBounds.{IsSpread};
ghost use Rattle.vertex_adjust.specs.Inner.Line.{IsNormal};
ghost use Rattle.vertex_adjust.specs.Inner.Quadratic.{IsErrorOver, IsQuadratic, IsLeastShift};
ghost use Rattle.vertex_adjust.specs.Vertex.{IsCandidate, IsLeast};

use crate::normal::Normal;
use crate::quadratic::Quadratic;
use crate::search::least_shift;
use crate::shift::Shift;
use crate::spread::Covariance;
use pt_core::NoMemory;
use std::alloc::Global;
use std::marker::Model;

/// The best shift for two lines.
#[derive(Clone, Copy)]
pub(crate) struct LeastShift {
    /// The sum of squared distances from both lines, as a function of the shift.
    pub quadratic: Quadratic,
    pub shift: Shift,
}

impl LeastShift {
    /// Finds the best shift for the two lines of this quadratic.
    fn of(quadratic: Quadratic) -> LeastShift
        requires quadratic { IsQuadratic quadratic }
        ensures least { IsLeastShift result }
        ensures quadratic { result.quadratic ≡ quadratic }
    {
        LeastShift {
            quadratic,
            shift: least_shift(quadratic),
        }
    }
}

/// How many normals the cache holds, and how many shifts.
const KEPT: usize = 4096;

/// A cache of the normals and the shifts that were computed last, for any path.
//
// Equal short segments occur again and again, and often two in a row. On a page of text nine of ten normals and
// six of ten shifts are in the cache. So most vertices need no root, no division by a length and no search.
#[derive(Drop)]
pub struct VertexMemo {
    /// The entry of a normal is given by its spread. An empty list stores nothing.
    normals: Vec<Normal>,
    /// The entry of a shift is given by its quadratic. An empty list stores nothing.
    shifts: Vec<LeastShift>,
}

impl Model for VertexMemo {
    ghost use Rattle.std.specs.Prelude.{All};
    ghost use Rattle.vertex_adjust.specs.Inner.Line.{IsNormal};
    ghost use Rattle.vertex_adjust.specs.Inner.Quadratic.{IsLeastShift};

    ghost Value = { Unit };

    ghost view = { λ _. tt };

    ghost invariant = { λ memo. All IsNormal memo.normals.items × All IsLeastShift memo.shifts.items };
}

impl VertexMemo {
    /// An empty cache. It takes 352 KiB.
    pub fn new(alloc: Global) -> Result<VertexMemo, NoMemory> {
        let normals = vec![in alloc; no_normal(); KEPT]?;
        let shifts = vec![in alloc; no_shift(); KEPT]?;
        Ok(VertexMemo { normals, shifts })
    }

    /// A cache that stores nothing, for callers that need few vertices.
    pub fn none(alloc: Global) -> VertexMemo {
        VertexMemo {
            normals: Vec::new(alloc),
            shifts: Vec::new(alloc),
        }
    }

    /// The normal of the line of points with this spread.
    pub(crate) fn normal(&mut self, spread: Covariance) -> Normal
        requires { IsSpread spread }
        ensures normal { IsNormal result }
        ensures spread { result.spread ≡ spread }
    {
        let at = place_of_spread(spread);
        if at >= self.normals.len() {
            return Normal::of(spread);
        }
        let kept = self.normals[at];
        if is_one_spread(kept.spread, spread) {
            return kept;
        }
        let normal = Normal::of(spread);
        self.normals[at] = normal;
        normal
    }

    /// The best shift of all candidates for this quadratic.
    pub(crate) fn shift(&mut self, quadratic: Quadratic) -> Shift
        requires quadratic { IsQuadratic quadratic }
        ensures candidate { IsCandidate result }
        ensures least { (error : Shift → ℕ) → IsErrorOver error quadratic → IsLeast error result }
    {
        let at = place_of_quadratic(quadratic);
        if at >= self.shifts.len() {
            return least_shift(quadratic);
        }
        let kept = self.shifts[at];
        if is_one_quadratic(kept.quadratic, quadratic) {
            return kept.shift;
        }
        let least = LeastShift::of(quadratic);
        self.shifts[at] = least;
        least.shift
    }
}

/// The normal of points that don't spread.
fn no_normal() -> Normal
    ensures { IsNormal result }
{
    Normal::of(Covariance {
        xx: 0,
        xy: 0,
        yy: 0,
    })
}

/// The best shift for two lines without normals.
fn no_shift() -> LeastShift
    ensures { IsLeastShift result }
{
    LeastShift::of(Quadratic {
        xx: 0,
        xy: 0,
        yy: 0,
        x: 0,
        y: 0,
    })
}

/// Whether two spreads are equal.
fn is_one_spread(spread: Covariance, other: Covariance) -> bool
    ensures { result ≡ true → spread ≡ other }
{
    spread.xx == other.xx && spread.xy == other.xy && spread.yy == other.yy
}

/// Whether two quadratics are equal.
fn is_one_quadratic(quadratic: Quadratic, other: Quadratic) -> bool
    ensures { result ≡ true → quadratic ≡ other }
{
    quadratic.xx == other.xx
        && quadratic.xy == other.xy
        && quadratic.yy == other.yy
        && quadratic.x == other.x
        && quadratic.y == other.y
}

/// The entry of a spread among the normals.
//
// Any entry would do. Products with long odd numbers give spreads that differ little different entries.
fn place_of_spread(spread: Covariance) -> usize {
    let mixed = mixed(spread.xx, 0x9e37_79b9_7f4a_7c15)
        .wrapping_add(mixed(spread.xy, 0xc2b2_ae3d_27d4_eb4f))
        .wrapping_add(mixed(spread.yy, 0x1656_67b1_9e37_79f9));
    (mixed >> 52) as usize
}

/// The entry of a quadratic among the shifts.
fn place_of_quadratic(quadratic: Quadratic) -> usize {
    let mixed = mixed(quadratic.xx, 0x9e37_79b9_7f4a_7c15)
        .wrapping_add(mixed(quadratic.xy, 0xc2b2_ae3d_27d4_eb4f))
        .wrapping_add(mixed(quadratic.yy, 0x1656_67b1_9e37_79f9))
        .wrapping_add(mixed(quadratic.x, 0xd6e8_feb8_6659_fd93))
        .wrapping_add(mixed(quadratic.y, 0xa076_1d64_78bd_642f));
    (mixed >> 52) as usize
}

/// The product of two numbers, modulo 2^64.
fn mixed(number: i64, by: u64) -> u64 {
    number.cast_unsigned().wrapping_mul(by)
}
