//! How far outlines are from their boundaries: pages at which the bounds are reached, and thin lines.
//!
//! A program apart from this one, with plain loops and fractions, worked the documents out.

use crate::tests::cases::{Page, check_pages};
use pt_core::NoMemory;

/// Its segment from (2,3) to (2,1) stands for (1,2), which is a whole pixel from the half-line.
///
/// ```text
/// # . . .
/// # # . #
/// . . # .
/// . # # #
/// . . # .
/// ```
const NOT_STRAIGHT: &[u8] = b"P1 4 5 1000 1101 0010 0111 0010\n";

const NOT_STRAIGHT_POLYGON: &str = "polygons 4 5 1\n\
+ 9 24 7 1402: 0 2 4 8 11 17 19\n";

/// The segment of its first path from (3,9) to (2,9) stands for (3,8), and its side runs from (3.5,9.5) to (1.5,9.5):
/// a pixel and a half above that point, from vertices half a pixel off theirs.
///
/// ```text
/// # # . # . . .
/// # . . . # # #
/// # # . # # . #
/// # # # . . . #
/// . . # # # . #
/// # # . . # . .
/// # . . . # . .
/// # . # # . . .
/// . . # # . # #
/// # . . . . . #
/// # . . # # . #
/// ```
const FAR_SIDE: &[u8] =
    b"P1 7 11 1101000 1000111 1101101 1110001 0011101 1100100 1000100 1011000 0011011 1000001 1001101\n";

const FAR_SIDE_POLYGONS: &str = "polygons 7 11 4\n\
+ 30 66 19 3749: 0 4 6 9 12 18 20 24 26 30 33 35 39 44 48 53 57 60 64\n\
+ 4 10 4 280: 0 4 5 8\n\
+ 2 6 3 294: 0 2 4\n\
+ 2 6 3 294: 0 2 4\n";

/// In units of 1/128 pixel.
const FAR_SIDE_CORNERS: &str = "<?xml version=\"1.0\" standalone=\"no\"?>\n\
<svg version=\"1.0\" xmlns=\"http://www.w3.org/2000/svg\" width=\"7pt\" height=\"11pt\" viewBox=\"0 0 896 \
1408\">\n\
<g transform=\"translate(0,1408) scale(1,-1)\" fill=\"#000000\" stroke=\"none\">\n\
<path fill-rule=\"evenodd\" d=\"M128 1408 l-128 0 l0 -256 l0 -256 l160 -10 l160 -10 l-160 -65 l-160 -65 l0 \
-205 l0 -205 l181 248 l181 248 l103 -103 l103 -103 l-184 -114 l-184 -114 l99 -99 l99 -99 l119 188 l119 188 \
l2 160 l2 160 l-160 2 l-160 2 l192 121 l192 121 l87 -219 l87 -219 l9 273 l9 273 l-252 66 l-252 66 l28 -83 \
l28 -83 l-128 0 l-128 0 l32 96 l32 96 l-128 0 z M772 384 l-124 0 l74 -192 l74 -192 l50 0 l50 0 l0 192 l0 \
192 l-124 0 z M85 213 l-85 85 l0 -170 l0 -170 l85 85 l85 85 l-85 85 z M512 128 l-170 0 l85 -85 l85 -85 l85 \
85 l85 85 l-170 0 z\"/>\n\
</g>\n\
</svg>\n";

/// A line of one pixel that ends free, and above a block on its left: six rows below four.
///
/// ```text
/// # # # # # #   (four of these)
/// . . . . . #   (six of these)
/// ```
const SHORT_LINE: &[u8] =
    b"P1 6 10 111111 111111 111111 111111 000001 000001 000001 000001 000001 000001\n";

/// Of the curve at its end the lowest place that is drawn is at 1.451: so much of the line is lost.
const SHORT_LINE_CURVES: &str = "{\"type\":\"FeatureCollection\",\"features\":[\n\
{\"type\":\"Feature\",\"properties\":{},\"geometry\":{\"type\":\"Polygon\",\"coordinates\":[[[3.000,10.000],\
[2.200,9.978],[1.546,9.905],[1.024,9.776],[0.624,9.583],[0.333,9.315],[0.140,8.968],[0.032,8.532],\
[0.000,8.000],[0.031,7.496],[0.131,7.074],[0.304,6.729],[0.554,6.455],[0.888,6.249],[1.309,6.107],\
[1.823,6.025],[2.438,6.000],[3.119,5.969],[3.678,5.866],[4.127,5.674],[4.483,5.374],[4.762,4.949],\
[4.977,4.382],[5.145,3.654],[5.281,2.750],[5.381,2.047],[5.471,1.613],[5.553,1.451],[5.626,1.562],\
[5.691,1.944],[5.749,2.603],[5.800,3.537],[5.844,4.750],[5.888,6.469],[5.882,7.764],[5.795,8.696],\
[5.594,9.325],[5.246,9.710],[4.719,9.910],[3.981,9.987],[3.000,10.000]]]}}\n\
]}\n";

/// The corner there is at -0.500: nothing is lost.
const SHORT_LINE_CORNERS: &str = "{\"type\":\"FeatureCollection\",\"features\":[\n\
{\"type\":\"Feature\",\"properties\":{},\"geometry\":{\"type\":\"Polygon\",\"coordinates\":[[[3.000,10.000],\
[0.000,10.000],[0.000,8.000],[0.000,6.000],[2.438,6.000],[4.875,6.000],[5.281,2.750],[5.688,-0.500],\
[5.844,4.750],[6.000,10.000],[3.000,10.000]]]}}\n\
]}\n";

/// Twenty rows below twelve.
const LONG_LINE: &[u8] =
    b"P1 6 32 111111 111111 111111 111111 111111 111111 111111 111111 111111 111111 111111 111111 000001 000001 000001 000001 000001 000001 000001 000001 000001 000001 000001 000001 000001 000001 000001 000001 000001 000001 000001 000001\n";

/// Of the curve at its end the lowest place that is drawn is at 5.123: so much of the line is lost.
const LONG_LINE_CURVES: &str = "{\"type\":\"FeatureCollection\",\"features\":[\n\
{\"type\":\"Feature\",\"properties\":{},\"geometry\":{\"type\":\"Polygon\",\"coordinates\":[[[3.000,32.000],\
[0.000,32.000],[0.000,26.000],[0.009,24.102],[0.055,22.651],[0.160,21.590],[0.353,20.856],[0.653,20.392],\
[1.091,20.134],[1.688,20.023],[2.469,20.000],[3.276,19.976],[3.891,19.824],[4.341,19.432],[4.660,18.679],\
[4.880,17.451],[5.031,15.631],[5.146,13.103],[5.258,9.750],[5.342,7.328],[5.418,5.780],[5.488,5.123],\
[5.553,5.372],[5.614,6.543],[5.673,8.652],[5.730,11.716],[5.789,15.750],[6.000,32.000],[3.000,32.000]]]}}\n\
]}\n";

/// The corner there is at -0.500: nothing is lost.
const LONG_LINE_CORNERS: &str = "{\"type\":\"FeatureCollection\",\"features\":[\n\
{\"type\":\"Feature\",\"properties\":{},\"geometry\":{\"type\":\"Polygon\",\"coordinates\":[[[3.000,32.000],\
[0.000,32.000],[0.000,26.000],[0.000,20.000],[2.469,20.000],[4.938,20.000],[5.258,9.750],[5.578,-0.500],\
[5.789,15.750],[6.000,32.000],[3.000,32.000]]]}}\n\
]}\n";

const PAGES: &[Page] = &[
    (
        "-b polygons -z black -t 0",
        NOT_STRAIGHT,
        &[("-", NOT_STRAIGHT_POLYGON)],
    ),
    (
        "-b polygons -z black -t 0",
        FAR_SIDE,
        &[("-", FAR_SIDE_POLYGONS)],
    ),
    (
        "-s --flat -u 128 -a 0 -z black -t 0",
        FAR_SIDE,
        &[("-", FAR_SIDE_CORNERS)],
    ),
    ("-b geojson -n", SHORT_LINE, &[("-", SHORT_LINE_CURVES)]),
    ("-b geojson -a 0", SHORT_LINE, &[("-", SHORT_LINE_CORNERS)]),
    ("-b geojson -n", LONG_LINE, &[("-", LONG_LINE_CURVES)]),
    ("-b geojson -a 0", LONG_LINE, &[("-", LONG_LINE_CORNERS)]),
];

#[test]
fn distances(rt: HostRuntime) -> Result<(), NoMemory> {
    check_pages(&rt, rt.alloc(), PAGES)
}
