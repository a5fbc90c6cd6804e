//! The longest segment that fits on a page.

use page_samples::hooked_stairs;
use pt_base::is_closed_walk;
use std::alloc::Global;
use std::test::Fail;
use straight_paths::Reach;

/// A point, the number of steps of the longest segment from there, the end of a segment from there, and whether that
/// segment is possible.
const SEGMENTS: &[(u32, u32, u32, bool)] = &[
    (0, 1, 65534, false),
    (1, 65534, 65535, true),
    (1, 65534, 65536, false),
    (2, 65533, 65535, true),
];

#[test]
fn segments_along_stairs(rt: HostRuntime) -> Result<(), Fail> {
    for &(i, far, j, possible) in SEGMENTS {
        let found = segment(rt.alloc(), i, j)?;
        assert_eq!(rt; found, (far, possible), "{i} to {j}");
    }
    Ok(())
}

/// The number of steps of the longest segment from a point, and whether this segment is possible. The path goes up
/// stairs of 65,534 steps, from point 1 to point 65535, and back.
fn segment(alloc: Global, i: u32, j: u32) -> Result<(u32, bool), Fail> {
    let points = hooked_stairs(alloc, 32767)?;
    if !is_closed_walk(&points) || points.len() <= i as usize || j <= i {
        return Err(Fail::from("no such segment"));
    }
    let reach = Reach::of(alloc, &points)?;
    Ok((reach.far(i), reach.possible(i, j)))
}
