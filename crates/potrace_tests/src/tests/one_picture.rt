//! One picture in all drawings, with sharp corners alone and a thousand units a pixel: an outline's points are its
//! corners and the middles of its sides, from the middle before the first corner on, in the same order in all four.

use crate::tests::cases::{Page, check_pages};
use pt_core::NoMemory;

// ###
// #.#
// ###
const RING: &[u8] = b"P1 3 3 111 101 111\n";

const RING_SVG: &str = "<?xml version=\"1.0\" standalone=\"no\"?>\n\
<svg version=\"1.0\" xmlns=\"http://www.w3.org/2000/svg\" width=\"3pt\" height=\"3pt\" viewBox=\"0 0 3000 3000\">\n\
<g transform=\"translate(0,3000) scale(1,-1)\" fill=\"#000000\" stroke=\"none\">\n\
<path fill-rule=\"evenodd\" d=\"M1500 3000 l-1500 0 l0 -1500 l0 -1500 l1500 0 l1500 0 l0 1500 l0 1500 l-1500 0 z \
M1500 2000 l-500 0 l0 -500 l0 -500 l500 0 l500 0 l0 500 l0 500 l-500 0 z\"/>\n\
</g>\n</svg>\n";

const RING_EPS: &str =
    "%!PS-Adobe-3.0 EPSF-3.0\n%%BoundingBox: 0 0 3 3\n%%EndComments\ngsave\n1 1000 div dup scale\n\
1500 3000 moveto\n-1500 0 rlineto\n0 -1500 rlineto\n\
0 -1500 rlineto\n1500 0 rlineto\n1500 0 rlineto\n\
0 1500 rlineto\n0 1500 rlineto\n-1500 0 rlineto\nclosepath\n\
1500 2000 moveto\n-500 0 rlineto\n0 -500 rlineto\n\
0 -500 rlineto\n500 0 rlineto\n500 0 rlineto\n\
0 500 rlineto\n0 500 rlineto\n-500 0 rlineto\nclosepath\n\
eofill\n\
grestore\n%%EOF\n";

const RING_DXF: &str = "0\nSECTION\n2\nENTITIES\n0\nPOLYLINE\n8\n0\n66\n1\n70\n1\n\
0\nVERTEX\n8\n0\n10\n1.500\n20\n3.000\n0\nVERTEX\n8\n0\n10\n0.000\n20\n3.000\n\
0\nVERTEX\n8\n0\n10\n0.000\n20\n1.500\n0\nVERTEX\n8\n0\n10\n0.000\n20\n0.000\n\
0\nVERTEX\n8\n0\n10\n1.500\n20\n0.000\n0\nVERTEX\n8\n0\n10\n3.000\n20\n0.000\n\
0\nVERTEX\n8\n0\n10\n3.000\n20\n1.500\n0\nVERTEX\n8\n0\n10\n3.000\n20\n3.000\n\
0\nSEQEND\n0\nPOLYLINE\n8\n0\n66\n1\n70\n1\n\
0\nVERTEX\n8\n0\n10\n1.500\n20\n2.000\n0\nVERTEX\n8\n0\n10\n1.000\n20\n2.000\n\
0\nVERTEX\n8\n0\n10\n1.000\n20\n1.500\n0\nVERTEX\n8\n0\n10\n1.000\n20\n1.000\n\
0\nVERTEX\n8\n0\n10\n1.500\n20\n1.000\n0\nVERTEX\n8\n0\n10\n2.000\n20\n1.000\n\
0\nVERTEX\n8\n0\n10\n2.000\n20\n1.500\n0\nVERTEX\n8\n0\n10\n2.000\n20\n2.000\n\
0\nSEQEND\n0\nENDSEC\n0\nEOF\n";

const RING_GEOJSON: &str = "{\"type\":\"FeatureCollection\",\"features\":[\n\
{\"type\":\"Feature\",\"properties\":{},\"geometry\":{\"type\":\"Polygon\",\"coordinates\":[\
[[1.500,3.000],[0.000,3.000],[0.000,1.500],[0.000,0.000],[1.500,0.000],[3.000,0.000],[3.000,1.500],[3.000,3.000],[1.500,3.000]],\
[[1.500,2.000],[2.000,2.000],[2.000,1.500],[2.000,1.000],[1.500,1.000],[1.000,1.000],[1.000,1.500],[1.000,2.000],[1.500,2.000]]]}}\n\
]}\n";

// #######
// #.....#
// #.###.#
// #.#.#.#
// #.###.#
// #.....#
// #######
const NEST: &[u8] = b"P1 7 7 1111111 1000001 1011101 1010101 1011101 1000001 1111111\n";

const NEST_SVG: &str = "<?xml version=\"1.0\" standalone=\"no\"?>\n\
<svg version=\"1.0\" xmlns=\"http://www.w3.org/2000/svg\" width=\"7pt\" height=\"7pt\" viewBox=\"0 0 7000 7000\">\n\
<g transform=\"translate(0,7000) scale(1,-1)\" fill=\"#000000\" stroke=\"none\">\n\
<path fill-rule=\"evenodd\" d=\"M3500 7000 l-3500 0 l0 -3500 l0 -3500 l3500 0 l3500 0 l0 3500 l0 3500 l-3500 0 z \
M3500 6000 l-2500 0 l0 -2500 l0 -2500 l2500 0 l2500 0 l0 2500 l0 2500 l-2500 0 z\"/>\n\
<path fill-rule=\"evenodd\" d=\"M3500 5000 l-1500 0 l0 -1500 l0 -1500 l1500 0 l1500 0 l0 1500 l0 1500 l-1500 0 z \
M3500 4000 l-500 0 l0 -500 l0 -500 l500 0 l500 0 l0 500 l0 500 l-500 0 z\"/>\n\
</g>\n</svg>\n";

const NEST_EPS: &str =
    "%!PS-Adobe-3.0 EPSF-3.0\n%%BoundingBox: 0 0 7 7\n%%EndComments\ngsave\n1 1000 div dup scale\n\
3500 7000 moveto\n-3500 0 rlineto\n0 -3500 rlineto\n\
0 -3500 rlineto\n3500 0 rlineto\n3500 0 rlineto\n\
0 3500 rlineto\n0 3500 rlineto\n-3500 0 rlineto\nclosepath\n\
3500 6000 moveto\n-2500 0 rlineto\n0 -2500 rlineto\n\
0 -2500 rlineto\n2500 0 rlineto\n2500 0 rlineto\n\
0 2500 rlineto\n0 2500 rlineto\n-2500 0 rlineto\nclosepath\n\
eofill\n\
3500 5000 moveto\n-1500 0 rlineto\n0 -1500 rlineto\n\
0 -1500 rlineto\n1500 0 rlineto\n1500 0 rlineto\n\
0 1500 rlineto\n0 1500 rlineto\n-1500 0 rlineto\nclosepath\n\
3500 4000 moveto\n-500 0 rlineto\n0 -500 rlineto\n\
0 -500 rlineto\n500 0 rlineto\n500 0 rlineto\n\
0 500 rlineto\n0 500 rlineto\n-500 0 rlineto\nclosepath\n\
eofill\n\
grestore\n%%EOF\n";

const NEST_DXF: &str = "0\nSECTION\n2\nENTITIES\n0\nPOLYLINE\n8\n0\n66\n1\n70\n1\n\
0\nVERTEX\n8\n0\n10\n3.500\n20\n7.000\n0\nVERTEX\n8\n0\n10\n0.000\n20\n7.000\n\
0\nVERTEX\n8\n0\n10\n0.000\n20\n3.500\n0\nVERTEX\n8\n0\n10\n0.000\n20\n0.000\n\
0\nVERTEX\n8\n0\n10\n3.500\n20\n0.000\n0\nVERTEX\n8\n0\n10\n7.000\n20\n0.000\n\
0\nVERTEX\n8\n0\n10\n7.000\n20\n3.500\n0\nVERTEX\n8\n0\n10\n7.000\n20\n7.000\n\
0\nSEQEND\n0\nPOLYLINE\n8\n0\n66\n1\n70\n1\n\
0\nVERTEX\n8\n0\n10\n3.500\n20\n6.000\n0\nVERTEX\n8\n0\n10\n1.000\n20\n6.000\n\
0\nVERTEX\n8\n0\n10\n1.000\n20\n3.500\n0\nVERTEX\n8\n0\n10\n1.000\n20\n1.000\n\
0\nVERTEX\n8\n0\n10\n3.500\n20\n1.000\n0\nVERTEX\n8\n0\n10\n6.000\n20\n1.000\n\
0\nVERTEX\n8\n0\n10\n6.000\n20\n3.500\n0\nVERTEX\n8\n0\n10\n6.000\n20\n6.000\n\
0\nSEQEND\n0\nPOLYLINE\n8\n0\n66\n1\n70\n1\n\
0\nVERTEX\n8\n0\n10\n3.500\n20\n5.000\n0\nVERTEX\n8\n0\n10\n2.000\n20\n5.000\n\
0\nVERTEX\n8\n0\n10\n2.000\n20\n3.500\n0\nVERTEX\n8\n0\n10\n2.000\n20\n2.000\n\
0\nVERTEX\n8\n0\n10\n3.500\n20\n2.000\n0\nVERTEX\n8\n0\n10\n5.000\n20\n2.000\n\
0\nVERTEX\n8\n0\n10\n5.000\n20\n3.500\n0\nVERTEX\n8\n0\n10\n5.000\n20\n5.000\n\
0\nSEQEND\n0\nPOLYLINE\n8\n0\n66\n1\n70\n1\n\
0\nVERTEX\n8\n0\n10\n3.500\n20\n4.000\n0\nVERTEX\n8\n0\n10\n3.000\n20\n4.000\n\
0\nVERTEX\n8\n0\n10\n3.000\n20\n3.500\n0\nVERTEX\n8\n0\n10\n3.000\n20\n3.000\n\
0\nVERTEX\n8\n0\n10\n3.500\n20\n3.000\n0\nVERTEX\n8\n0\n10\n4.000\n20\n3.000\n\
0\nVERTEX\n8\n0\n10\n4.000\n20\n3.500\n0\nVERTEX\n8\n0\n10\n4.000\n20\n4.000\n\
0\nSEQEND\n0\nENDSEC\n0\nEOF\n";

const NEST_GEOJSON: &str = "{\"type\":\"FeatureCollection\",\"features\":[\n\
{\"type\":\"Feature\",\"properties\":{},\"geometry\":{\"type\":\"Polygon\",\"coordinates\":[\
[[3.500,7.000],[0.000,7.000],[0.000,3.500],[0.000,0.000],[3.500,0.000],[7.000,0.000],[7.000,3.500],[7.000,7.000],[3.500,7.000]],\
[[3.500,6.000],[6.000,6.000],[6.000,3.500],[6.000,1.000],[3.500,1.000],[1.000,1.000],[1.000,3.500],[1.000,6.000],[3.500,6.000]]]}},\n\
{\"type\":\"Feature\",\"properties\":{},\"geometry\":{\"type\":\"Polygon\",\"coordinates\":[\
[[3.500,5.000],[2.000,5.000],[2.000,3.500],[2.000,2.000],[3.500,2.000],[5.000,2.000],[5.000,3.500],[5.000,5.000],[3.500,5.000]],\
[[3.500,4.000],[4.000,4.000],[4.000,3.500],[4.000,3.000],[3.500,3.000],[3.000,3.000],[3.000,3.500],[3.000,4.000],[3.500,4.000]]]}}\n\
]}\n";

// #######
// #.....#
// #.#.#.#
// #.....#
// #######
const TWO: &[u8] = b"P1 7 5 1111111 1000001 1010101 1000001 1111111\n";

const TWO_SVG: &str = "<?xml version=\"1.0\" standalone=\"no\"?>\n\
<svg version=\"1.0\" xmlns=\"http://www.w3.org/2000/svg\" width=\"7pt\" height=\"5pt\" viewBox=\"0 0 7000 5000\">\n\
<g transform=\"translate(0,5000) scale(1,-1)\" fill=\"#000000\" stroke=\"none\">\n\
<path fill-rule=\"evenodd\" d=\"M3500 5000 l-3500 0 l0 -2500 l0 -2500 l3500 0 l3500 0 l0 2500 l0 2500 l-3500 0 z \
M3500 4000 l-2500 0 l0 -1500 l0 -1500 l2500 0 l2500 0 l0 1500 l0 1500 l-2500 0 z\"/>\n\
<path fill-rule=\"evenodd\" d=\"M2500 3000 l-500 0 l0 -500 l0 -500 l500 0 l500 0 l0 500 l0 500 l-500 0 z\"/>\n\
<path fill-rule=\"evenodd\" d=\"M4500 3000 l-500 0 l0 -500 l0 -500 l500 0 l500 0 l0 500 l0 500 l-500 0 z\"/>\n\
</g>\n</svg>\n";

const TWO_EPS: &str =
    "%!PS-Adobe-3.0 EPSF-3.0\n%%BoundingBox: 0 0 7 5\n%%EndComments\ngsave\n1 1000 div dup scale\n\
3500 5000 moveto\n-3500 0 rlineto\n0 -2500 rlineto\n\
0 -2500 rlineto\n3500 0 rlineto\n3500 0 rlineto\n\
0 2500 rlineto\n0 2500 rlineto\n-3500 0 rlineto\nclosepath\n\
3500 4000 moveto\n-2500 0 rlineto\n0 -1500 rlineto\n\
0 -1500 rlineto\n2500 0 rlineto\n2500 0 rlineto\n\
0 1500 rlineto\n0 1500 rlineto\n-2500 0 rlineto\nclosepath\n\
eofill\n\
2500 3000 moveto\n-500 0 rlineto\n0 -500 rlineto\n\
0 -500 rlineto\n500 0 rlineto\n500 0 rlineto\n\
0 500 rlineto\n0 500 rlineto\n-500 0 rlineto\nclosepath\n\
eofill\n\
4500 3000 moveto\n-500 0 rlineto\n0 -500 rlineto\n\
0 -500 rlineto\n500 0 rlineto\n500 0 rlineto\n\
0 500 rlineto\n0 500 rlineto\n-500 0 rlineto\nclosepath\n\
eofill\n\
grestore\n%%EOF\n";

const TWO_DXF: &str = "0\nSECTION\n2\nENTITIES\n0\nPOLYLINE\n8\n0\n66\n1\n70\n1\n\
0\nVERTEX\n8\n0\n10\n3.500\n20\n5.000\n0\nVERTEX\n8\n0\n10\n0.000\n20\n5.000\n\
0\nVERTEX\n8\n0\n10\n0.000\n20\n2.500\n0\nVERTEX\n8\n0\n10\n0.000\n20\n0.000\n\
0\nVERTEX\n8\n0\n10\n3.500\n20\n0.000\n0\nVERTEX\n8\n0\n10\n7.000\n20\n0.000\n\
0\nVERTEX\n8\n0\n10\n7.000\n20\n2.500\n0\nVERTEX\n8\n0\n10\n7.000\n20\n5.000\n\
0\nSEQEND\n0\nPOLYLINE\n8\n0\n66\n1\n70\n1\n\
0\nVERTEX\n8\n0\n10\n3.500\n20\n4.000\n0\nVERTEX\n8\n0\n10\n1.000\n20\n4.000\n\
0\nVERTEX\n8\n0\n10\n1.000\n20\n2.500\n0\nVERTEX\n8\n0\n10\n1.000\n20\n1.000\n\
0\nVERTEX\n8\n0\n10\n3.500\n20\n1.000\n0\nVERTEX\n8\n0\n10\n6.000\n20\n1.000\n\
0\nVERTEX\n8\n0\n10\n6.000\n20\n2.500\n0\nVERTEX\n8\n0\n10\n6.000\n20\n4.000\n\
0\nSEQEND\n0\nPOLYLINE\n8\n0\n66\n1\n70\n1\n\
0\nVERTEX\n8\n0\n10\n2.500\n20\n3.000\n0\nVERTEX\n8\n0\n10\n2.000\n20\n3.000\n\
0\nVERTEX\n8\n0\n10\n2.000\n20\n2.500\n0\nVERTEX\n8\n0\n10\n2.000\n20\n2.000\n\
0\nVERTEX\n8\n0\n10\n2.500\n20\n2.000\n0\nVERTEX\n8\n0\n10\n3.000\n20\n2.000\n\
0\nVERTEX\n8\n0\n10\n3.000\n20\n2.500\n0\nVERTEX\n8\n0\n10\n3.000\n20\n3.000\n\
0\nSEQEND\n0\nPOLYLINE\n8\n0\n66\n1\n70\n1\n\
0\nVERTEX\n8\n0\n10\n4.500\n20\n3.000\n0\nVERTEX\n8\n0\n10\n4.000\n20\n3.000\n\
0\nVERTEX\n8\n0\n10\n4.000\n20\n2.500\n0\nVERTEX\n8\n0\n10\n4.000\n20\n2.000\n\
0\nVERTEX\n8\n0\n10\n4.500\n20\n2.000\n0\nVERTEX\n8\n0\n10\n5.000\n20\n2.000\n\
0\nVERTEX\n8\n0\n10\n5.000\n20\n2.500\n0\nVERTEX\n8\n0\n10\n5.000\n20\n3.000\n\
0\nSEQEND\n0\nENDSEC\n0\nEOF\n";

const TWO_GEOJSON: &str = "{\"type\":\"FeatureCollection\",\"features\":[\n\
{\"type\":\"Feature\",\"properties\":{},\"geometry\":{\"type\":\"Polygon\",\"coordinates\":[\
[[3.500,5.000],[0.000,5.000],[0.000,2.500],[0.000,0.000],[3.500,0.000],[7.000,0.000],[7.000,2.500],[7.000,5.000],[3.500,5.000]],\
[[3.500,4.000],[6.000,4.000],[6.000,2.500],[6.000,1.000],[3.500,1.000],[1.000,1.000],[1.000,2.500],[1.000,4.000],[3.500,4.000]]]}},\n\
{\"type\":\"Feature\",\"properties\":{},\"geometry\":{\"type\":\"Polygon\",\"coordinates\":[\
[[2.500,3.000],[2.000,3.000],[2.000,2.500],[2.000,2.000],[2.500,2.000],[3.000,2.000],[3.000,2.500],[3.000,3.000],[2.500,3.000]]]}},\n\
{\"type\":\"Feature\",\"properties\":{},\"geometry\":{\"type\":\"Polygon\",\"coordinates\":[\
[[4.500,3.000],[4.000,3.000],[4.000,2.500],[4.000,2.000],[4.500,2.000],[5.000,2.000],[5.000,2.500],[5.000,3.000],[4.500,3.000]]]}}\n\
]}\n";

// #####
// #...#
// #.#.#
// #..##
// #####
const CORNER: &[u8] = b"P1 5 5 11111 10001 10101 10011 11111\n";

const CORNER_SVG: &str = "<?xml version=\"1.0\" standalone=\"no\"?>\n\
<svg version=\"1.0\" xmlns=\"http://www.w3.org/2000/svg\" width=\"5pt\" height=\"5pt\" viewBox=\"0 0 5000 5000\">\n\
<g transform=\"translate(0,5000) scale(1,-1)\" fill=\"#000000\" stroke=\"none\">\n\
<path fill-rule=\"evenodd\" d=\"M2500 5000 l-2500 0 l0 -2500 l0 -2500 l2500 0 l2500 0 l0 2500 l0 2500 l-2500 0 z \
M2586 4000 l-1586 0 l0 -1586 l0 -1586 l1188 399 l1187 398 l398 1188 l399 1187 l-1586 0 z\"/>\n\
<path fill-rule=\"evenodd\" d=\"M2500 3000 l-500 0 l0 -500 l0 -500 l500 0 l500 0 l0 500 l0 500 l-500 0 z\"/>\n\
</g>\n</svg>\n";

const CORNER_EPS: &str =
    "%!PS-Adobe-3.0 EPSF-3.0\n%%BoundingBox: 0 0 5 5\n%%EndComments\ngsave\n1 1000 div dup scale\n\
2500 5000 moveto\n-2500 0 rlineto\n0 -2500 rlineto\n\
0 -2500 rlineto\n2500 0 rlineto\n2500 0 rlineto\n\
0 2500 rlineto\n0 2500 rlineto\n-2500 0 rlineto\nclosepath\n\
2586 4000 moveto\n-1586 0 rlineto\n0 -1586 rlineto\n\
0 -1586 rlineto\n1188 399 rlineto\n1187 398 rlineto\n\
398 1188 rlineto\n399 1187 rlineto\n-1586 0 rlineto\nclosepath\n\
eofill\n\
2500 3000 moveto\n-500 0 rlineto\n0 -500 rlineto\n\
0 -500 rlineto\n500 0 rlineto\n500 0 rlineto\n\
0 500 rlineto\n0 500 rlineto\n-500 0 rlineto\nclosepath\n\
eofill\n\
grestore\n%%EOF\n";

const CORNER_DXF: &str = "0\nSECTION\n2\nENTITIES\n0\nPOLYLINE\n8\n0\n66\n1\n70\n1\n\
0\nVERTEX\n8\n0\n10\n2.500\n20\n5.000\n0\nVERTEX\n8\n0\n10\n0.000\n20\n5.000\n\
0\nVERTEX\n8\n0\n10\n0.000\n20\n2.500\n0\nVERTEX\n8\n0\n10\n0.000\n20\n0.000\n\
0\nVERTEX\n8\n0\n10\n2.500\n20\n0.000\n0\nVERTEX\n8\n0\n10\n5.000\n20\n0.000\n\
0\nVERTEX\n8\n0\n10\n5.000\n20\n2.500\n0\nVERTEX\n8\n0\n10\n5.000\n20\n5.000\n\
0\nSEQEND\n0\nPOLYLINE\n8\n0\n66\n1\n70\n1\n\
0\nVERTEX\n8\n0\n10\n2.586\n20\n4.000\n0\nVERTEX\n8\n0\n10\n1.000\n20\n4.000\n\
0\nVERTEX\n8\n0\n10\n1.000\n20\n2.414\n0\nVERTEX\n8\n0\n10\n1.000\n20\n0.828\n\
0\nVERTEX\n8\n0\n10\n2.188\n20\n1.227\n0\nVERTEX\n8\n0\n10\n3.375\n20\n1.625\n\
0\nVERTEX\n8\n0\n10\n3.773\n20\n2.813\n0\nVERTEX\n8\n0\n10\n4.172\n20\n4.000\n\
0\nSEQEND\n0\nPOLYLINE\n8\n0\n66\n1\n70\n1\n\
0\nVERTEX\n8\n0\n10\n2.500\n20\n3.000\n0\nVERTEX\n8\n0\n10\n2.000\n20\n3.000\n\
0\nVERTEX\n8\n0\n10\n2.000\n20\n2.500\n0\nVERTEX\n8\n0\n10\n2.000\n20\n2.000\n\
0\nVERTEX\n8\n0\n10\n2.500\n20\n2.000\n0\nVERTEX\n8\n0\n10\n3.000\n20\n2.000\n\
0\nVERTEX\n8\n0\n10\n3.000\n20\n2.500\n0\nVERTEX\n8\n0\n10\n3.000\n20\n3.000\n\
0\nSEQEND\n0\nENDSEC\n0\nEOF\n";

const CORNER_GEOJSON: &str = "{\"type\":\"FeatureCollection\",\"features\":[\n\
{\"type\":\"Feature\",\"properties\":{},\"geometry\":{\"type\":\"Polygon\",\"coordinates\":[\
[[2.500,5.000],[0.000,5.000],[0.000,2.500],[0.000,0.000],[2.500,0.000],[5.000,0.000],[5.000,2.500],[5.000,5.000],[2.500,5.000]],\
[[2.586,4.000],[4.172,4.000],[3.773,2.813],[3.375,1.625],[2.188,1.227],[1.000,0.828],[1.000,2.414],[1.000,4.000],[2.586,4.000]]]}},\n\
{\"type\":\"Feature\",\"properties\":{},\"geometry\":{\"type\":\"Polygon\",\"coordinates\":[\
[[2.500,3.000],[2.000,3.000],[2.000,2.500],[2.000,2.000],[2.500,2.000],[3.000,2.000],[3.000,2.500],[3.000,3.000],[2.500,3.000]]]}}\n\
]}\n";

const SVG: &str = "-b svg -t 0 -a 0 -n -u 1000";

const EPS: &str = "-b eps -t 0 -a 0 -n -u 1000";

const DXF: &str = "-b dxf -t 0 -a 0 -n -u 1000";

const GEOJSON: &str = "-b geojson -t 0 -a 0 -n -u 1000";

/// A ring; a hole in a hole; two shapes in a hole; and a shape at its hole's corner.
const PAGES: &[Page] = &[
    (SVG, RING, &[("-", RING_SVG)]),
    (EPS, RING, &[("-", RING_EPS)]),
    (DXF, RING, &[("-", RING_DXF)]),
    (GEOJSON, RING, &[("-", RING_GEOJSON)]),
    (SVG, NEST, &[("-", NEST_SVG)]),
    (EPS, NEST, &[("-", NEST_EPS)]),
    (DXF, NEST, &[("-", NEST_DXF)]),
    (GEOJSON, NEST, &[("-", NEST_GEOJSON)]),
    (SVG, TWO, &[("-", TWO_SVG)]),
    (EPS, TWO, &[("-", TWO_EPS)]),
    (DXF, TWO, &[("-", TWO_DXF)]),
    (GEOJSON, TWO, &[("-", TWO_GEOJSON)]),
    (SVG, CORNER, &[("-", CORNER_SVG)]),
    (EPS, CORNER, &[("-", CORNER_EPS)]),
    (DXF, CORNER, &[("-", CORNER_DXF)]),
    (GEOJSON, CORNER, &[("-", CORNER_GEOJSON)]),
];

#[test]
fn one_picture_in_all_drawings(rt: HostRuntime) -> Result<(), NoMemory> {
    check_pages(&rt, rt.alloc(), PAGES)
}
