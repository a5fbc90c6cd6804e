//! Joined curves, and the points at which lines touch a curve, compared with plain programs.
ghost use Rattle.std.specs.Prelude.{◌≡◌, ◌≤◌, ◌<◌, ◌^◌, length};
ghost use Rattle.curve_join.specs.Inner.Cubic.{LiesWithin};
ghost use Rattle.curve_join.specs.Vector.{IsPlaced};

use super::samples::{self, Place, Row, at, points_at};
use corner_smooth::smooth;
use curve_join::{Cubic, Displacement, join, joined, touching};
use pt_core::{Piece, Point};
use std::alloc::Global;
use std::test::Fail;

/// Whether the joined outline around these points has these pieces. The corner threshold is 1.
fn is_joined(alloc: Global, places: &[Place], tol: u16, rows: &[Row]) -> Result<bool, Fail> {
    if places.len() < 2 || 100 < places.len() {
        return Ok(false);
    }
    let vertices = points_at(alloc, places)?;
    let pieces = smooth(Vec::new(alloc), &vertices, 1_000_000)?;
    let joined = join(alloc, &vertices, pieces, u32::from(tol))?;
    let wanted = samples::pieces(alloc, rows)?;
    Ok(joined.as_slice() == wanted.as_slice())
}

/// The curve that replaces some of the smooth pieces around these points, and its penalty.
fn run(alloc: Global, places: &[Place], first: u32, last: u32) -> Result<Option<(Piece, u64)>, Fail>
    requires some { first < last }
    requires within { last < length places.now }
    requires most { length places.now ≤ 2 ^ 31 }
{
    let vertices = points_at(alloc, places)?;
    let pieces = smooth(Vec::new(alloc), &vertices, 1_000_000)?;
    Ok(joined(&vertices, pieces.as_slice(), first, last, 204))
}

//   5 --- 4
//  /       \
// 6         3
// |         |
// 7         2
//  \       /
//   0 --- 1
const OCTAGON: &[Place] = &[
    (1024, 0),
    (2048, 0),
    (3072, 1024),
    (3072, 2048),
    (2048, 3072),
    (1024, 3072),
    (0, 2048),
    (0, 1024),
];

#[test]
fn runs_of_an_octagon(rt: HostRuntime) -> Result<(), Fail> {
    // A quarter of a turn, and half a turn.
    let quarter = run(rt.alloc(), OCTAGON, 1, 2)?;
    let half = run(rt.alloc(), OCTAGON, 1, 4)?;
    let expected = Piece::Curve {
        first: at(2195, 0),
        second: at(3072, 876),
        end: at(3072, 1536),
        al: 28130,
    };
    assert_eq!(rt; (quarter, half), (Some((expected, 36992)), None));
    Ok(())
}

/// An octagon like `OCTAGON`, turned to the right.
const TURNED: &[Place] = &[
    (0, 1024),
    (0, 2048),
    (1024, 3072),
    (2048, 3072),
    (3072, 2048),
    (3072, 1024),
    (2048, 0),
    (1024, 0),
];

const DROP: &[Place] = &[
    (0, 1500),
    (3000, 0),
    (5000, 0),
    (6200, 1100),
    (6200, 1900),
    (5000, 3000),
    (3000, 3000),
];

const PIXEL: &[Place] = &[(0, 1024), (0, 0), (1024, 0), (1024, 1024)];

/// Vertices, the tolerance, and the pieces of the joined outline.
const OUTLINES: [(&[Place], u16, &[Row]); 4] = [
    // No cut has fewer than three runs, and several cuts have three at this penalty.
    (
        OCTAGON,
        204,
        &[
            ((1429, -406), (3072, 250), (3072, 1536), 23498),
            ((3072, 2194), (2194, 3072), (1536, 3072), 28099),
            ((250, 3072), (-406, 1429), (512, 512), 23498),
        ],
    ),
    (
        TURNED,
        204,
        &[
            ((-406, 1429), (250, 3072), (1536, 3072), 23498),
            ((2194, 3072), (3072, 2194), (3072, 1536), 28099),
            ((3072, 250), (1429, -406), (512, 512), 23498),
        ],
    ),
    (
        DROP,
        204,
        &[
            ((182, 1591), (182, 1408), (1500, 750), 57555),
            ((4448, -725), (7625, 593), (5600, 2450), 14749),
            ((4770, 3210), (3274, 3137), (1500, 2250), 41624),
        ],
    ),
    // Any two neighbours turn by half a turn.
    (
        PIXEL,
        65_535,
        &[
            ((230, 1024), (0, 793), (0, 512), 36045),
            ((0, 230), (230, 0), (512, 0), 36045),
            ((793, 0), (1024, 230), (1024, 512), 36045),
            ((1024, 793), (793, 1024), (512, 1024), 36045),
        ],
    ),
];

#[test]
fn joined_outlines(rt: HostRuntime) -> Result<(), Fail> {
    for (places, tol, rows) in OUTLINES {
        let same = is_joined(rt.alloc(), places, tol, rows)?;
        assert!(rt; same, "round {places:?}");
    }
    Ok(())
}

/// A curve with these heights of its four points, in units of 2^22, so that all sizes occur.
fn wave(heights: [i8; 4]) -> Cubic
    ensures { LiesWithin (2 ^ 29) result }
{
    Cubic {
        start: level(heights[0]),
        first: level(heights[1]),
        second: level(heights[2]),
        end: level(heights[3]),
    }
}

fn level(height: i8) -> Point
    ensures { IsPlaced (2 ^ 29) result }
{
    Point {
        x: 0,
        y: i32::from(height) * 4_194_304,
    }
}

/// The number from 0 to 64 at which a curve with these heights is flattest, found by trying all.
fn flattest(heights: [i8; 4]) -> u8 {
    let mut best = 0;
    let mut least = steepness(heights, 0);
    for u in 1..65u8 {
        let next = steepness(heights, u);
        if next < least {
            least = next;
            best = u;
        }
    }
    best
}

fn steepness(heights: [i8; 4], u: u8) -> u64 {
    let u = i64::from(u);
    let r = 64 - u;
    let first = i64::from(heights[1]) - i64::from(heights[0]);
    let second = i64::from(heights[2]) - i64::from(heights[1]);
    let third = i64::from(heights[3]) - i64::from(heights[2]);
    // Nothing wraps around, since the sum is below 2^21.
    let before = r.wrapping_mul(r).wrapping_mul(first);
    let between = r.wrapping_mul(2 * u).wrapping_mul(second);
    let behind = u.wrapping_mul(u).wrapping_mul(third);
    before
        .wrapping_add(between)
        .wrapping_add(behind)
        .unsigned_abs()
}

// Curves that rise, fall, turn once or twice, touch a level line, or are level at an end or throughout. Most cross
// products with the long level are more than 2^49, and most with the short one are less.
#[test]
fn flattest_parts(rt: HostRuntime) -> Result<(), Fail> {
    let heights = [-128, -99, -31, -2, 0, 1, 7, 64, 127];
    let long = Displacement {
        x: 134_217_728,
        y: 0,
    };
    let short = Displacement { x: 1_048_576, y: 0 };
    for start in heights {
        for first in heights {
            for second in heights {
                for end in heights {
                    let heights = [start, first, second, end];
                    let curve = wave(heights);
                    let found = (touching(&curve, long), touching(&curve, short));
                    let flat = u32::from(flattest(heights));
                    assert_eq!(rt; found, (flat, flat), "{start} {first} {second} {end}");
                }
            }
        }
    }
    Ok(())
}
