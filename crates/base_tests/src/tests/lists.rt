//! Texts of lists.

use pt_base::{points, polygons};
use pt_core::{NoMemory, Path, Point, Polygon, Sequence, Sign, Trace};
use std::alloc::Global;
use std::test::Fail;

/// The outline of one pixel.
fn one_pixel(alloc: Global) -> Result<Path, NoMemory> {
    let mut items = Vec::new(alloc);
    for (x, y) in [(0, 1), (0, 0), (1, 0), (1, 1)] {
        items.push(Point { x, y })?;
    }
    Ok(Path {
        sign: Sign::Minus,
        area: 1,
        points: Sequence::from_vec(items),
    })
}

/// The trace of a page of 16 by 2 pixels, with one pixel's outline and a polygon along it.
fn one_polygon(alloc: Global) -> Result<Trace, NoMemory> {
    let polygon = Polygon {
        at: Sequence::from_vec(Vec::from_slice(alloc, &[0, 2])?),
        cost: 294,
    };
    Ok(Trace {
        width: 16,
        height: 2,
        paths: Sequence::from_vec(vec![in alloc; one_pixel(alloc)?]?),
        polygons: Sequence::from_vec(vec![in alloc; polygon]?),
        vertices: Sequence::from_vec(Vec::new(alloc)),
        outlines: Sequence::from_vec(Vec::new(alloc)),
        groups: Sequence::from_vec(Vec::new(alloc)),
    })
}

#[test]
fn points_text(rt: HostRuntime) -> Result<(), Fail> {
    let text = points(rt.alloc(), 16, 2, &[one_pixel(rt.alloc())?])?;
    let wanted = b"points 16 2 1\n- 1 0,1 0,0 1,0 1,1\n";
    assert_eq!(rt; text.as_slice(), wanted.as_slice());
    Ok(())
}

#[test]
fn polygons_text(rt: HostRuntime) -> Result<(), Fail> {
    let trace = one_polygon(rt.alloc())?;
    assert!(rt; trace.paths.as_slice().len() == trace.polygons.as_slice().len());
    let text = polygons(rt.alloc(), &trace)?;
    let wanted = b"polygons 16 2 1\n- 1 4 2 294: 0 2\n";
    assert_eq!(rt; text.as_slice(), wanted.as_slice());
    Ok(())
}
