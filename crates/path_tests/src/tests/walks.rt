//! The possible segments of all short walks, compared with the criterion over all triples.
ghost use Rattle.std.specs.Prelude.{◌≡◌, ◌<◌, length};

use page_samples::{draw, is_possible};
use pt_base::is_closed_walk;
use pt_core::Point;
use std::alloc::Global;
use std::test::Fail;
use straight_paths::Reach;

/// The number of steps of a walk, and the number of ways to choose their directions.
const WALKS: &[(usize, u32)] = &[
    (4, 256),
    (6, 4096),
    (8, 65536),
    (10, 1 << 20),
    (12, 1 << 24),
];

#[test]
fn all_walks_of_twelve_steps(rt: HostRuntime) -> Result<(), Fail> {
    let mut found = 0u32;
    for &(size, codes) in WALKS {
        for code in 0..codes {
            if let Some(alike) = compared(rt.alloc(), size, code)? {
                assert!(rt; alike, "{size} steps of {code}");
                found = found.wrapping_add(1);
            }
        }
    }
    assert_eq!(rt; found, 13848);
    Ok(())
}

/// If the walk is closed, whether its segments are possible exactly if the criterion says so.
fn compared(alloc: Global, size: usize, code: u32) -> Result<Option<bool>, Fail> {
    let mut points = [Point { x: 0, y: 0 }; 12];
    let Some(points) = points.get_mut(..size) else {
        return Ok(None);
    };
    if !draw(code, points) || !is_closed_walk(points) {
        return Ok(None);
    }
    let reach = Reach::of(alloc, points)?;
    let mut alike = true;
    for i in 0..12 {
        alike = alike && is_alike_from(points, &reach, i);
    }
    Ok(Some(alike))
}

/// Whether the segments from point i agree with the criterion, if there is a point i.
fn is_alike_from(points: &[Point], reach: &Reach, i: u32) -> bool
    requires { reach.now ≡ points.now }
{
    if points.len() <= i as usize {
        return true;
    }
    for steps in 1..points.len().min(12) as u32 {
        let j = i.saturating_add(steps);
        if i < j && reach.possible(i, j) != is_possible(points, i as usize, j as usize) {
            return false;
        }
    }
    true
}
