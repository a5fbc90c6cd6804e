//! Penalties of the longest segment. Another program computed them.

use page_samples::triangle;
use prefix_moments::Moments;
use pt_base::is_closed_walk;
use pt_core::{MOST_STEPS, Point};
use std::alloc::Global;
use std::test::Fail;

/// The number of steps of the longest segment: up stairs, all the way through the greatest page.
const STEPS: u32 = 65534;

/// A limit, and the penalty of the longest segment if it is below the limit.
const LIMITS: &[(u64, Option<u64>)] = &[
    (1 << 56, Some(5931415)),
    (5931415, None),
    (5931416, Some(5931415)),
];

#[test]
fn penalties_below_limits(rt: HostRuntime) -> Result<(), Fail> {
    let points = triangle(rt.alloc(), 32767)?;
    for &(limit, wanted) in LIMITS {
        let found = below(rt.alloc(), &points, limit)?;
        assert_eq!(rt; found, Some(wanted), "below {limit}");
    }
    Ok(())
}

/// The penalty of the stairs, if it is below the limit; `None` for points that have no such stairs.
fn below(alloc: Global, points: &[Point], limit: u64) -> Result<Option<Option<u64>>, Fail> {
    if !is_closed_walk(points) || points.len() < STEPS as usize || MOST_STEPS < STEPS {
        return Ok(None);
    }
    let moments = Moments::of(alloc, points)?;
    Ok(Some(moments.penalty_below(0, STEPS, limit.min(1 << 56))))
}
