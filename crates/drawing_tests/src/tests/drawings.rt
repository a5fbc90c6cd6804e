//! DXF and GeoJSON documents. The points of the curve come from exact fractions.

use super::samples::{CURVE, MIDDLE, NINE, PIXEL, Row, trace_of};
use dxf_geojson::{dxf, geojson};
use std::test::Fail;

const ROUND_A_PIXEL: &str = "0\nSECTION\n2\nENTITIES\n0\nPOLYLINE\n8\n0\n66\n1\n70\n1\n\
0\nVERTEX\n8\n0\n10\n0.500\n20\n1.000\n\
0\nVERTEX\n8\n0\n10\n0.000\n20\n1.000\n\
0\nVERTEX\n8\n0\n10\n0.000\n20\n0.500\n\
0\nVERTEX\n8\n0\n10\n0.000\n20\n0.000\n\
0\nVERTEX\n8\n0\n10\n0.500\n20\n0.000\n\
0\nVERTEX\n8\n0\n10\n1.000\n20\n0.000\n\
0\nVERTEX\n8\n0\n10\n1.000\n20\n0.500\n\
0\nVERTEX\n8\n0\n10\n1.000\n20\n1.000\n\
0\nSEQEND\n0\nENDSEC\n0\nEOF\n";

const CHORDS: &str = "0\nSECTION\n2\nENTITIES\n0\nPOLYLINE\n8\n0\n66\n1\n70\n1\n\
0\nVERTEX\n8\n0\n10\n-0.101\n20\n2.000\n\
0\nVERTEX\n8\n0\n10\n-0.080\n20\n1.428\n\
0\nVERTEX\n8\n0\n10\n-0.085\n20\n0.999\n\
0\nVERTEX\n8\n0\n10\n-0.107\n20\n0.724\n\
0\nVERTEX\n8\n0\n10\n-0.135\n20\n0.611\n\
0\nVERTEX\n8\n0\n10\n-0.159\n20\n0.673\n\
0\nVERTEX\n8\n0\n10\n-0.168\n20\n0.918\n\
0\nVERTEX\n8\n0\n10\n-0.152\n20\n1.356\n\
0\nSEQEND\n0\nENDSEC\n0\nEOF\n";

#[test]
fn polylines(rt: HostRuntime) -> Result<(), Fail> {
    for (outline, text) in [(PIXEL, ROUND_A_PIXEL), (CURVE, CHORDS)] {
        let trace = trace_of(rt.alloc(), (3, 3), &[outline], &[(0, &[])])?;
        let drawn = dxf(rt.alloc(), &trace)?;
        assert_eq!(rt; drawn.as_slice(), text.as_bytes());
    }
    Ok(())
}

/// A square around a pixel that is apart from the others.
const FAR: &[Row] = &[
    ((4096, 5120), (4096, 5120), (4096, 4608), 0),
    ((4096, 4096), (4096, 4096), (4608, 4096), 0),
    ((5120, 4096), (5120, 4096), (5120, 4608), 0),
    ((5120, 5120), (5120, 5120), (4608, 5120), 0),
];

const RING: &str = "{\"type\":\"FeatureCollection\",\"features\":[\n\
{\"type\":\"Feature\",\"properties\":{},\"geometry\":{\"type\":\"Polygon\",\"coordinates\":[\
[[1.500,3.000],[0.000,3.000],[0.000,1.500],[0.000,0.000],[1.500,0.000],[3.000,0.000],\
[3.000,1.500],[3.000,3.000],[1.500,3.000]],\
[[1.500,2.000],[2.000,2.000],[2.000,1.500],[2.000,1.000],[1.500,1.000],[1.000,1.000],\
[1.000,1.500],[1.000,2.000],[1.500,2.000]]]}},\n\
{\"type\":\"Feature\",\"properties\":{},\"geometry\":{\"type\":\"Polygon\",\"coordinates\":[\
[[4.500,5.000],[4.000,5.000],[4.000,4.500],[4.000,4.000],[4.500,4.000],[5.000,4.000],\
[5.000,4.500],[5.000,5.000],[4.500,5.000]]]}}\n\
]}\n";

const NO_SHAPES: &str = "{\"type\":\"FeatureCollection\",\"features\":[\n]}\n";

const DOCUMENTS: [(&[&[Row]], &[(u32, &[u32])], &str); 2] = [
    (&[NINE, MIDDLE, FAR], &[(0, &[1]), (2, &[])], RING),
    (&[], &[], NO_SHAPES),
];

#[test]
fn rings_of_shapes_and_holes(rt: HostRuntime) -> Result<(), Fail> {
    for (outlines, shapes, text) in DOCUMENTS {
        let trace = trace_of(rt.alloc(), (5, 5), outlines, shapes)?;
        let drawn = geojson(rt.alloc(), &trace)?;
        assert_eq!(rt; drawn.as_slice(), text.as_bytes());
    }
    Ok(())
}
