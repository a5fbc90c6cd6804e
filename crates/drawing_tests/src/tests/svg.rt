//! SVG documents that were written by hand.

use super::samples::{CURVE, MIDDLE, NINE, Row, settings, trace_of};
use std::test::Fail;
use svg_backend::svg;

const A_PATH_FOR_EACH_SHAPE: &str = "<?xml version=\"1.0\" standalone=\"no\"?>\n\
<svg version=\"1.0\" xmlns=\"http://www.w3.org/2000/svg\" width=\"4pt\" height=\"3pt\" viewBox=\"0 0 40 30\">\n\
<g transform=\"translate(0,30) scale(1,-1)\" fill=\"#000000\" stroke=\"none\">\n\
<path fill-rule=\"evenodd\" d=\"M15 30 l-15 0 l0 -15 l0 -15 l15 0 l15 0 l0 15 l0 15 l-15 0 z \
M15 20 l-5 0 l0 -5 l0 -5 l5 0 l5 0 l0 5 l0 5 l-5 0 z\"/>\n\
<path fill-rule=\"evenodd\" d=\"M-1 20 c1 -17 -2 -20 0 0 z\"/>\n\
</g>\n</svg>\n";

const ONE_PATH: &str = "<?xml version=\"1.0\" standalone=\"no\"?>\n\
<svg version=\"1.0\" xmlns=\"http://www.w3.org/2000/svg\" width=\"4pt\" height=\"3pt\" viewBox=\"0 0 40 30\">\n\
<g transform=\"translate(0,30) scale(1,-1)\" fill=\"#000000\" stroke=\"none\">\n\
<path fill-rule=\"evenodd\" d=\"M15 30 l-15 0 l0 -15 l0 -15 l15 0 l15 0 l0 15 l0 15 l-15 0 z \
M15 20 l-5 0 l0 -5 l0 -5 l5 0 l5 0 l0 5 l0 5 l-5 0 z \
M-1 20 c1 -17 -2 -20 0 0 z\"/>\n\
</g>\n</svg>\n";

/// Whether all outlines are in one path, and the text.
const DOCUMENTS: [(bool, &str); 2] = [(false, A_PATH_FOR_EACH_SHAPE), (true, ONE_PATH)];

const OUTLINES: &[&[Row]] = &[NINE, MIDDLE, CURVE];

const SHAPES: &[(u32, &[u32])] = &[(0, &[1]), (2, &[])];

#[test]
fn paths_of_shapes_or_one_of_all(rt: HostRuntime) -> Result<(), Fail> {
    let trace = trace_of(rt.alloc(), (4, 3), OUTLINES, SHAPES)?;
    for (flat, text) in DOCUMENTS {
        let drawn = svg(rt.alloc(), &trace, &settings(flat))?;
        assert_eq!(rt; drawn.as_slice(), text.as_bytes());
    }
    Ok(())
}
