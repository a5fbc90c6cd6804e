//! Windows after points: the points up to where the longest segment from there leads.
//!
//! Each cyclic polygon has a vertex in each window, so any of them would do. Which one is taken decides the time alone.
ghost use Rattle.std.specs.Prelude.{◌≡◌, ℕ, ◌+◌, ◌<◌, length, IfOk};
ghost use Rattle.straight_paths.specs.Straight.{IsPossible};

use crate::sides::WalkSegments;
use pt_core::NoMemory;
use std::alloc::Global;

/// A point from which no segment leads past the path's end, and of these one whose longest segment is shortest.
pub(crate) fn narrowest(sides: &WalkSegments) -> usize
    ensures point { result < length sides.now.moments.now }
    ensures within { (j : ℕ) → IsPossible sides.now.moments.now result j
        → j < length sides.now.moments.now }
{
    let mut narrowest = 0;
    let mut width = sides.last(0);
    for k in 1..sides.size {
        let last = sides.last(k);
        if last < sides.size && last - k < width {
            width = last - k;
            narrowest = k;
        }
    }
    narrowest
}

/// Such a point, and of these one after which polygons of fewest segments can begin at fewest points; or `point`.
//
// A polygon of fewest segments begins at a point just where a segment from there leads to `nexts` or farther.
pub(crate) fn sparsest(
    alloc: Global,
    sides: &WalkSegments,
    nexts: &[usize],
    point: usize,
) -> Result<usize, NoMemory>
    requires places { length nexts.now ≡ length sides.now.moments.now }
    requires point { point < length sides.now.moments.now }
    requires within { (j : ℕ) → IsPossible sides.now.moments.now point j
        → j < length sides.now.moments.now }
    ensures point { IfOk result (λ point. point < length sides.now.moments.now) }
    ensures within { IfOk result (λ point. (j : ℕ) → IsPossible sides.now.moments.now point j
        → j < length sides.now.moments.now) }
{
    let before = begins(alloc, sides, nexts)?;
    let mut sparsest = point;
    let mut fewest = u32::MAX;
    for k in 0..sides.size {
        let last = sides.last(k);
        if last < sides.size && before[last + 1].saturating_sub(before[k + 1]) < fewest {
            fewest = before[last + 1].saturating_sub(before[k + 1]);
            sparsest = k;
        }
    }
    Ok(sparsest)
}

/// At how many of the first points polygons of fewest segments can begin: of none, of one, and so on to all of them.
fn begins(alloc: Global, sides: &WalkSegments, nexts: &[usize]) -> Result<Vec<u32>, NoMemory>
    requires places { length nexts.now ≡ length sides.now.moments.now }
    ensures places { IfOk result
        (λ begins. length begins.items ≡ length sides.now.moments.now + 1) }
{
    let mut begins = Vec::with_capacity(alloc, sides.size + 1)?;
    let mut count = 0u32;
    for i in 0..sides.size {
        begins.push(count)?;
        if nexts[i] <= sides.last(i) {
            count = count.saturating_add(1);
        }
    }
    begins.push(count)?;
    Ok(begins)
}
