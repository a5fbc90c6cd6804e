//! EPS documents that were written by hand.

use super::samples::{CURVE, MIDDLE, NINE, Row, settings, trace_of};
use eps_backend::eps;
use std::test::Fail;

/// A square around 64 pixels.
const BOARD: &[Row] = &[
    ((0, 8192), (0, 8192), (0, 4096), 0),
    ((0, 0), (0, 0), (4096, 0), 0),
    ((8192, 0), (8192, 0), (8192, 4096), 0),
    ((8192, 8192), (8192, 8192), (4096, 8192), 0),
];

const SQUARE: &str = "%!PS-Adobe-3.0 EPSF-3.0\n%%BoundingBox: 0 0 8 8\n%%EndComments\n\
gsave\n1 10 div dup scale\n\
40 80 moveto\n-40 0 rlineto\n0 -40 rlineto\n0 -40 rlineto\n40 0 rlineto\n\
40 0 rlineto\n0 40 rlineto\n0 40 rlineto\n-40 0 rlineto\nclosepath\neofill\n\
grestore\n%%EOF\n";

const RING_AND_CURVE: &str = "%!PS-Adobe-3.0 EPSF-3.0\n%%BoundingBox: 0 0 3 3\n%%EndComments\n\
gsave\n1 10 div dup scale\n\
15 30 moveto\n-15 0 rlineto\n0 -15 rlineto\n0 -15 rlineto\n15 0 rlineto\n\
15 0 rlineto\n0 15 rlineto\n0 15 rlineto\n-15 0 rlineto\nclosepath\n\
15 20 moveto\n-5 0 rlineto\n0 -5 rlineto\n0 -5 rlineto\n5 0 rlineto\n\
5 0 rlineto\n0 5 rlineto\n0 5 rlineto\n-5 0 rlineto\nclosepath\neofill\n\
-1 20 moveto\n1 -17 -2 -20 0 0 rcurveto\nclosepath\neofill\n\
grestore\n%%EOF\n";

const DOCUMENTS: [(u32, &[&[Row]], &[(u32, &[u32])], &str); 2] = [
    (8, &[BOARD], &[(0, &[])], SQUARE),
    (
        3,
        &[NINE, MIDDLE, CURVE],
        &[(0, &[1]), (2, &[])],
        RING_AND_CURVE,
    ),
];

// Each shape is filled with its holes.
#[test]
fn postscript_documents(rt: HostRuntime) -> Result<(), Fail> {
    for (side, outlines, shapes, text) in DOCUMENTS {
        let trace = trace_of(rt.alloc(), (side, side), outlines, shapes)?;
        let drawn = eps(rt.alloc(), &trace, &settings(false))?;
        assert_eq!(rt; drawn.as_slice(), text.as_bytes());
    }
    Ok(())
}
