//! Pieces that were computed by hand.

use super::samples::{Place, Row, pieces, points_at};
use corner_smooth::smooth;
use std::alloc::Global;
use std::test::Fail;

/// Whether the outline around these points has these pieces.
fn is_smoothed(alloc: Global, places: &[Place], alphamax: u32, rows: &[Row]) -> Result<bool, Fail> {
    if places.len() < 2 || 1_000_000_000 < alphamax {
        return Ok(false);
    }
    let vertices = points_at(alloc, places)?;
    let smoothed = smooth(Vec::new(alloc), &vertices, alphamax)?;
    let wanted = pieces(alloc, rows)?;
    Ok(smoothed.as_slice() == wanted.as_slice())
}

/// The vertices of a square that has one vertex at the origin.
fn square(side: i32) -> [Place; 4] {
    [(0, side), (0, 0), (side, 0), (side, side)]
}

/// The pieces of the outline of such a square. `near` and `far` are the coordinates of the two control points along a
/// side.
fn round_square(side: i32, near: i32, far: i32, al: u32) -> [Row; 4] {
    let half = side / 2;
    [
        ((near, side), (0, far), (0, half), al),
        ((0, near), (near, 0), (half, 0), al),
        ((far, 0), (side, near), (side, half), al),
        ((side, far), (far, side), (half, side), al),
    ]
}

// The vertices of a square of eight pixels have a sharpness of exactly 1, and those of five pixels 0.8. Those of one
// pixel aren't sharp at all, but the roundness of their curves is at least 0.55.
const SQUARES: [(i32, u32, i32, i32, u32); 7] = [
    // Corners exactly as sharp as the threshold.
    (8192, 1_000_000, 0, 8192, 0),
    (5120, 800_000, 0, 5120, 0),
    (1024, 0, 0, 1024, 0),
    // Curves at vertices that are less sharp.
    (8192, 1_000_001, 0, 8192, 65536),
    (5120, 800_001, 512, 4607, 52428),
    (1024, 1, 230, 793, 36045),
    // A sharper vertex, with a roundness of at most 1.
    (16384, 1_000_000_000, 0, 16384, 65536),
];

#[test]
fn squares(rt: HostRuntime) -> Result<(), Fail> {
    for (side, alphamax, near, far, al) in SQUARES {
        let rows = round_square(side, near, far, al);
        let same = is_smoothed(rt.alloc(), &square(side), alphamax, &rows)?;
        assert!(rt; same, "side {side}, at most {alphamax}");
    }
    Ok(())
}

/// The vertices of an outline, the corner threshold in millionths, and the pieces.
const OUTLINES: [(&[Place], u32, &[Row]); 5] = [
    // No side along an axis.
    (
        &[(0, 0), (4096, 1000), (1024, 5120)],
        1_000_000,
        &[
            ((81, 406), (325, 79), (2048, 500), 55120),
            ((3917, 956), (3962, 1179), (2560, 3060), 59821),
            ((1047, 5088), (1016, 5080), (512, 2560), 64522),
        ],
    ),
    // There and back: both neighbours of a vertex are the same point, and its sharpness is 4/3.
    (
        &[(0, 1), (2048, 0)],
        1_333_333,
        &[
            ((0, 1), (0, 1), (1024, 0), 0),
            ((2048, 0), (2048, 0), (1024, 0), 0),
        ],
    ),
    (
        &[(0, 1), (2048, 0)],
        1_333_334,
        &[
            ((0, 1), (0, 1), (1024, 0), 65536),
            ((2048, 0), (2048, 0), (1024, 0), 65536),
        ],
    ),
    // Below the page.
    (
        &[(-511, -3), (-512, -512), (1300, -512)],
        1_000_000,
        &[
            ((-104, -118), (-512, -118), (-512, -258), 36045),
            ((-512, -398), (-105, -512), (394, -512), 36045),
            ((917, -512), (918, -405), (394, -258), 37903),
        ],
    ),
    // The longest sides.
    (
        &[(-512, -512), (33_553_920, -512), (-512, -511)],
        1_000_000,
        &[
            ((-512, -512), (7_549_184, -512), (16_776_704, -512), 36045),
            (
                (33_553_920, -512),
                (33_553_920, -512),
                (16_776_704, -512),
                0,
            ),
            ((7_549_184, -512), (-512, -512), (-512, -512), 36045),
        ],
    ),
];

#[test]
fn outlines(rt: HostRuntime) -> Result<(), Fail> {
    for (places, alphamax, rows) in OUTLINES {
        let same = is_smoothed(rt.alloc(), places, alphamax, rows)?;
        assert!(rt; same, "round {places:?} at most {alphamax}");
    }
    Ok(())
}
