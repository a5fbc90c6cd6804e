//! The plain program: a path's best polygon, found by trying each point with each one that its segments reach.
ghost use Rattle.std.specs.Prelude.{◌≡◌, ◌+◌, ◌<◌, ◌≤◌, length};
ghost use Rattle.pt_core.specs.ClosedWalk.{IsClosedWalk};
ghost use Rattle.pt_core.specs.OnPage.{AreOnPage};

use prefix_moments::Moments;
use pt_core::{MOST_STEPS, NoMemory, Point};
use std::alloc::Global;
use straight_paths::Reach;

/// The best way from a point to the end.
#[derive(Clone, Copy)]
struct Best {
    count: u32,
    cost: u64,
    next: usize,
}

/// The vertices of the best polygon, and its penalty.
pub(super) fn plain_polygon(alloc: Global, points: &[Point]) -> Result<(Vec<u32>, u64), NoMemory>
    requires closed { IsClosedWalk points.now }
    requires on_page { AreOnPage points.now }
{
    let reach = Reach::of(alloc, points)?;
    let moments = Moments::of(alloc, points)?;
    let size = points.len();
    let none = Best {
        count: 0,
        cost: 0,
        next: size,
    };
    let mut best = vec![in alloc; none; size + 1]?;
    for from in (0..size).rev() {
        let far = reach.far(from as u32) as usize;
        best[from] = onward(&moments, from as u32, size.min(from + far) as u32, &best);
    }
    let mut at = Vec::new(alloc);
    let mut from = 0;
    for _ in 0..size {
        if from < size {
            at.push(from as u32)?;
            from = best[from].next;
        }
    }
    Ok((at, best[0].cost))
}

/// The best way on from a point, if those from each later point up to `last` are known.
fn onward(moments: &Moments, from: u32, last: u32, best: &[Best]) -> Best
    requires point { from < length moments.now }
    requires within { last ≤ length moments.now }
{
    let mut found = Best {
        count: u32::MAX,
        cost: u64::MAX,
        next: last as usize,
    };
    for to in from..last.saturating_add(1) {
        if from < to && to <= last && to - from <= MOST_STEPS {
            if let Some(rest) = best.get(to as usize) {
                let way = onto(moments.penalty(from, to), to, *rest);
                if is_better(way, found) {
                    found = way;
                }
            }
        }
    }
    found
}

/// The way that begins with a segment to this point and continues with `rest`.
fn onto(penalty: u64, to: u32, rest: Best) -> Best {
    Best {
        count: rest.count.saturating_add(1),
        cost: rest.cost.saturating_add(penalty),
        next: to as usize,
    }
}

fn is_better(way: Best, other: Best) -> bool {
    way.count < other.count || way.count == other.count && way.cost < other.cost
}
