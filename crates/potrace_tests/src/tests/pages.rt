//! Worked pages.

use crate::tests::cases::{Case, PIXEL, PIXEL_POLYGON, PLAIN, Page, WHITE, check_all, check_pages};
use pt_core::NoMemory;

const PAIR: &str = "points 2 1 1\n+ 2 0,1 0,0 1,0 2,0 2,1 1,1\n";

const PAIR_POLYGON: &str = "polygons 2 1 1\n+ 2 6 3 294: 0 2 4\n";

const LEFT_ALONE: &str = "points 2 1 1\n+ 1 0,1 0,0 1,0 1,1\n";

const RIGHT_ALONE: &str = "points 2 1 1\n+ 1 1,1 1,0 2,0 2,1\n";

const SQUARES: &str = "points 2 2 2\n+ 1 0,2 0,1 1,1 1,2\n+ 1 1,1 1,0 2,0 2,1\n";

const JOINED: &str = "points 2 2 1\n+ 2 0,2 0,1 1,1 1,0 2,0 2,1 1,1 1,2\n";

const RING: &str = "points 3 3 2\n\
+ 9 0,3 0,2 0,1 0,0 1,0 2,0 3,0 3,1 3,2 3,3 2,3 1,3\n\
- 1 1,2 1,1 2,1 2,2\n";

const FIVE: &str = "points 3 3 5\n\
+ 1 0,3 0,2 1,2 1,3\n\
+ 1 2,3 2,2 3,2 3,3\n\
+ 1 1,2 1,1 2,1 2,2\n\
+ 1 0,1 0,0 1,0 1,1\n\
+ 1 2,1 2,0 3,0 3,1\n";

const ONE: &str = "points 3 3 1\n\
+ 5 0,3 0,2 1,2 1,1 0,1 0,0 1,0 1,1 2,1 2,0 3,0 3,1 2,1 2,2 3,2 3,3 2,3 2,2 1,2 1,3\n";

const TRIPLE_POLYGON: &str = "polygons 3 1 1\n+ 3 8 3 433: 0 2 5\n";

const ROW: &[u8] = b"P1 40 1 1111111111111111111111111111111111111111";

const ROW_POLYGON: &str = "polygons 40 1 1\n+ 40 82 3 5846: 0 21 42\n";

/// Twelve pixels round a middle.
const TWELVE: &[u8] = b"P1 4 4 0110 1111 1111 0110\n";

const TWELVE_ROUND: &str = "polygons 4 4 1\n+ 12 16 4 1292: 3 7 11 15\n";

const TWELVE_POLYGON: &str = "polygons 4 4 1\n+ 12 16 5 1008: 0 3 7 11 14\n";

const TARGET: &[u8] = b"P1 5 5 11111 10001 10101 10001 11111\n";

const TARGET_POLYGONS: &str = "polygons 5 5 3\n\
+ 25 20 4 0: 0 5 10 15\n\
- 9 12 4 0: 0 3 6 9\n\
+ 1 4 4 0: 0 1 2 3\n";

const LEFT: &str = "-b points -z left -t 0";

/// Two gray pixels of 16 bits, one just below the middle of the levels and one above it.
const GRAYS: &[u8] = b"P5\n2 1\n65535\n\x7f\xff\x80\x00";

const SQUARE: &[u8] = b"P4 8 8\n\xff\xff\xff\xff\xff\xff\xff\xff";

/// The SVG of a page so many pixels wide and high, with these paths.
macro_rules! square_svg {
    ($side:literal, $paths:literal) => {
        concat!(
            "<?xml version=\"1.0\" standalone=\"no\"?>\n<svg version=\"1.0\" xmlns=\"http://www.w3.org/2000/svg\"",
            " width=\"", $side, "pt\" height=\"", $side, "pt\" viewBox=\"0 0 ", $side, "0 ", $side, "0\">\n",
            "<g transform=\"translate(0,", $side, "0) scale(1,-1)\" fill=\"#000000\" stroke=\"none\">\n",
            $paths, "</g>\n</svg>\n"
        )
    };
}

const ROUND_SVG: &str = square_svg!(
    8,
    "<path fill-rule=\"evenodd\" d=\"M40 80 c-40 0 -40 0 -40 -40 c0 -40 0 -40 40 -40 c40 0 40 0 40 40 \
c0 40 0 40 -40 40 z\"/>\n"
);

const SHARP_SVG: &str = square_svg!(
    8,
    "<path fill-rule=\"evenodd\" d=\"M40 80 l-40 0 l0 -40 l0 -40 l40 0 l40 0 l0 40 l0 40 l-40 0 z\"/>\n"
);

const DOT_SVG: &str = square_svg!(
    1,
    "<path fill-rule=\"evenodd\" d=\"M5 10 c-3 0 -5 -2 -5 -5 c0 -3 2 -5 5 -5 c3 0 5 2 5 5 c0 3 -2 5 -5 5 z\"/>\n"
);

const EMPTY_SVG: &str = square_svg!(1, "");

const WHITE_SVG: &str = square_svg!(4, "");

const SHARP_EPS: &str =
    "%!PS-Adobe-3.0 EPSF-3.0\n%%BoundingBox: 0 0 8 8\n%%EndComments\ngsave\n1 10 div dup scale\n\
40 80 moveto\n-40 0 rlineto\n0 -40 rlineto\n0 -40 rlineto\n40 0 rlineto\n40 0 rlineto\n0 40 rlineto\n0 40 rlineto\n\
-40 0 rlineto\nclosepath\neofill\ngrestore\n%%EOF\n";

const TWELVE_SVG: &str = square_svg!(
    4,
    "<path fill-rule=\"evenodd\" d=\"M8 32 l-12 -12 l12 -12 l12 -12 l12 12 l12 12 l-12 12 l-12 12 l-12 -12 z\"/>\n"
);

pub const PAGES: &[Page] = &[
    // Speckles.
    (LEFT, b"P1 1 1 1\n", &[("-", PIXEL)]),
    (LEFT, b"P1 1 1 0", &[("-", WHITE)]),
    ("-b points -z left -t 2", b"P1 1 1 1\n", &[("-", WHITE)]),
    (
        "-b points -z left -t 2",
        b"P1 2 1 11",
        &[("-", "points 2 1 0\n")],
    ),
    ("-b points -z left -t 1", b"P1 2 1 11", &[("-", PAIR)]),
    (
        "-b points -z black -t 007",
        b"P1 2 2 10 01\n",
        &[("-", "points 2 2 0\n")],
    ),
    // Turn policies.
    (LEFT, b"P1 2 2 10 01\n", &[("-", SQUARES)]),
    (
        "-b points -z majority -t 0",
        b"P1 2 2 10 01\n",
        &[("-", SQUARES)],
    ),
    (
        "-b points -z right -t 0",
        b"P1 2 2 10 01\n",
        &[("-", JOINED)],
    ),
    (
        "-b points -z minority -t 0",
        b"P1 2 2 10 01\n",
        &[("-", JOINED)],
    ),
    (LEFT, b"P1 3 3 101 010 101\n", &[("-", FIVE)]),
    (
        "-b points -z right -t 0",
        b"P1 3 3 101 010 101\n",
        &[("-", ONE)],
    ),
    (LEFT, b"P1 3 3 111 101 111\n", &[("-", RING)]),
    // Forms of a page.
    (
        LEFT,
        b"P4\n9 2\n\x00\x7f\x80\x7f",
        &[("-", "points 9 2 1\n+ 1 0,1 0,0 1,0 1,1\n")],
    ),
    (LEFT, b"P1 # c\n2 #d\n1\n1#x\n0", &[("-", LEFT_ALONE)]),
    // Pages of colours: red, and green and blue together; and sums on either side of the middle.
    (
        "-b points -t 0",
        b"P3 2 1 255 255 0 0 0 255 255\n",
        &[("-", LEFT_ALONE)],
    ),
    (
        "-b points -t 0",
        b"P6 1 1 65535\n\x80\x00\x80\x00\x7f\xff",
        &[("-", WHITE)],
    ),
    (
        "-b points -t 0",
        b"P6 1 1 65535\n\x80\x00\x7f\xff\x7f\xff",
        &[("-", PIXEL)],
    ),
    (
        "-b points -t 0",
        b"P4 1 1\n\x80P6 1 1 255\n\xff\xff\xff",
        &[("-", PIXEL), ("-", WHITE)],
    ),
    // Black levels, and pages turned to their negative.
    (LEFT, GRAYS, &[("-", LEFT_ALONE)]),
    ("-b points -z left -t 0 -i", GRAYS, &[("-", RIGHT_ALONE)]),
    (
        "-b points -z left -t 0 -k 0.499992",
        GRAYS,
        &[("-", "points 2 1 0\n")],
    ),
    ("-b points -z left -t 0 -k 0.500008", GRAYS, &[("-", PAIR)]),
    (
        "-b points -z left -t 0 -k 1 -i",
        GRAYS,
        &[("-", "points 2 1 0\n")],
    ),
    (
        "-b points -z left -t 0 -k .2",
        b"P2 2 1 10 2 3",
        &[("-", LEFT_ALONE)],
    ),
    (
        "-b points -z left -t 0 -k 0",
        b"P2 2 1 10 0 1",
        &[("-", LEFT_ALONE)],
    ),
    (
        "-b points -z left -t 0 -k 0",
        b"P1 2 1 10",
        &[("-", LEFT_ALONE)],
    ),
    (
        "-b points -z left -t 0 -i",
        b"P1 2 1 01",
        &[("-", LEFT_ALONE)],
    ),
    ("-i -b points -t 0", b"P1 1 1 0\n", &[("-", PIXEL)]),
    // Polygons.
    (
        "-b polygons -z left -t 0",
        b"P1 1 1 1\n",
        &[("-", PIXEL_POLYGON)],
    ),
    (
        "-b polygons -z minority -t 0",
        b"P1 1 1 1\n",
        &[("-", PIXEL_POLYGON)],
    ),
    (
        "-b polygons -z minority -t 2",
        b"P1 1 1 1\n",
        &[("-", "polygons 1 1 0\n")],
    ),
    (
        "-b polygons -z minority -t 2",
        b"P1 2 1 11",
        &[("-", "polygons 2 1 0\n")],
    ),
    (
        "-b polygons -z white -t 1",
        b"P1 2 1 11",
        &[("-", PAIR_POLYGON)],
    ),
    (
        "-b polygons -z minority -t 1",
        b"P1 2 1 11",
        &[("-", PAIR_POLYGON)],
    ),
    // The lists 0 2 5 and 0 3 5 tie.
    (
        "-b polygons -z left -t 0",
        b"P1 3 1 111",
        &[("-", TRIPLE_POLYGON)],
    ),
    (
        "-b polygons -z minority -t 0",
        b"P1 3 1 111",
        &[("-", TRIPLE_POLYGON)],
    ),
    // A segment from point 0 may lead to point 40, but only from point 42 on may one lead to the end.
    ("-b polygons -z minority -t 2", ROW, &[("-", ROW_POLYGON)]),
    // Polygons over all starting points: none of four segments goes through the first one. The lists 0 2 4 and
    // 1 3 5 tie.
    ("-b polygons --cyclic", TWELVE, &[("-", TWELVE_ROUND)]),
    ("-b polygons", TWELVE, &[("-", TWELVE_POLYGON)]),
    (
        "-b polygons --cyclic -t 1",
        b"P1 2 1 11",
        &[("-", PAIR_POLYGON)],
    ),
    (
        "-b polygons --cyclic -t 0",
        b"P1 1 1 1\n",
        &[("-", PIXEL_POLYGON)],
    ),
    // Lines of slope 1 through the middles of the corners: they meet 0.4 pixels outside of the path.
    ("-b svg --cyclic -a 0", TWELVE, &[("-", TWELVE_SVG)]),
    (
        "-b polygons -z left -t 0",
        TARGET,
        &[("-", TARGET_POLYGONS)],
    ),
    (
        "-b polygons -z minority -t 0",
        TARGET,
        &[("-", TARGET_POLYGONS)],
    ),
    // Outlines. The sharpness of all four vertices of a square is exactly 1.
    (
        "-b svg -z minority -t 2 -a 1.000001 -n --flat",
        SQUARE,
        &[("-", ROUND_SVG)],
    ),
    ("-s -a 1.000001", SQUARE, &[("-", ROUND_SVG)]),
    (
        "-b svg -z minority -t 2 -n --flat",
        SQUARE,
        &[("-", SHARP_SVG)],
    ),
    ("", SQUARE, &[("-", SHARP_EPS)]),
    (
        "-b svg -z minority -t 0 -n --flat",
        b"P1 1 1 1\n",
        &[("-", DOT_SVG)],
    ),
    (
        "-b svg -z minority -t 0 -k 0.4 -i -a 1 -n --flat",
        b"P2 1 1 10 5",
        &[("-", DOT_SVG)],
    ),
    (
        "-b svg -z minority -t 2 -n --flat",
        b"P1 1 1 1\n",
        &[("-", EMPTY_SVG)],
    ),
    ("-s", b"P1 4 4 0000 0000 0000 0000\n", &[("-", WHITE_SVG)]),
    // In a rectangle no two curves may be joined.
    (
        "-b svg -z minority -t 0 --flat",
        b"P1 1 1 1\n",
        &[("-", DOT_SVG)],
    ),
    (
        "-b svg -z minority -t 0 -O 0.5 --flat",
        b"P1 1 1 1\n",
        &[("-", DOT_SVG)],
    ),
];

#[test]
fn worked_pages(rt: HostRuntime) -> Result<(), NoMemory> {
    check_pages(&rt, rt.alloc(), PAGES)
}

const STREAMS: &[Case] = &[
    Case {
        words: LEFT,
        input: b"P1 1 1 1 P1 2 1 11 P1 1 1 0\n",
        documents: &[("-", PIXEL), ("-", PAIR), ("-", WHITE)],
        ..PLAIN
    },
    Case {
        words: LEFT,
        input: b"P4 1 1\n\x80P4 1 1\n\x80xyz",
        documents: &[("-", PIXEL), ("-", PIXEL)],
        said: "potrace: -: trailing bytes after page 2\n",
        ..PLAIN
    },
    Case {
        words: LEFT,
        input: b"P4 1 1\n\x80P4 8 2\n\xff",
        status: 2,
        documents: &[("-", PIXEL)],
        said: "potrace: -: page 2: truncated\n",
        ..PLAIN
    },
];

#[test]
fn pages_of_a_stream(rt: HostRuntime) -> Result<(), NoMemory> {
    check_all(&rt, rt.alloc(), STREAMS)
}
