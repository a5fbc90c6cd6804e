//! Where longest segments lead, many of them in a row.
//!
//! These numbers choose a window. So they decide the time alone, and nothing is proved of them but how many they are.
ghost use Rattle.std.specs.Prelude.{◌≡◌, ◌+◌, ◌<◌, ◌≤◌, ◌^◌, length, IfOk};

use crate::sides::WalkSegments;
use pt_core::NoMemory;
use std::alloc::Global;

/// How many points so many longest segments in a row lead on, from each point; or a lap, where that is less.
//
// Twice as many lead on by as much, and from there by as much as from there. So it takes two passes for each
// binary digit of their number.
pub(crate) fn all_leaps(
    alloc: Global,
    sides: &WalkSegments,
    count: usize,
) -> Result<Vec<u32>, NoMemory>
    ensures { IfOk result (λ leaps. length leaps.items ≡ length sides.now.moments.now) }
{
    let mut leaps = vec![in alloc; 0u32; sides.size]?;
    let mut power = single(alloc, sides)?;
    let mut left = count;
    while left > 0 {
        if left % 2 == 1 {
            leaps = joined(alloc, &leaps, &power)?;
        }
        power = joined(alloc, &power, &power)?;
        left /= 2;
    }
    Ok(leaps)
}

/// How many points the longest segment leads on, from each point.
fn single(alloc: Global, sides: &WalkSegments) -> Result<Vec<u32>, NoMemory>
    ensures { IfOk result (λ leaps. length leaps.items ≡ length sides.now.moments.now) }
{
    let mut leaps = Vec::with_capacity(alloc, sides.size)?;
    for i in 0..sides.size {
        leaps.push((sides.last(i) - i) as u32)?;
    }
    Ok(leaps)
}

/// How many points first the ones and then the others lead on, from each point; or a lap, where that is less.
fn joined(alloc: Global, first: &[u32], then: &[u32]) -> Result<Vec<u32>, NoMemory>
    requires places { length then.now ≡ length first.now }
    requires few { length first.now ≤ 2 ^ 31 }
    ensures { IfOk result (λ joined. length joined.items ≡ length first.now) }
{
    let size = first.len();
    let mut joined = Vec::with_capacity(alloc, size)?;
    for i in 0..size {
        let middle = (i + first[i] as usize) % size;
        joined.push(first[i].saturating_add(then[middle]).min(size as u32))?;
    }
    Ok(joined)
}

/// For each point, the nearest one from which the leaps lead to it a lap on; or the point a lap on itself.
pub(crate) fn nexts(alloc: Global, leaps: &[u32]) -> Result<Vec<usize>, NoMemory>
    requires { length leaps.now ≤ 2 ^ 31 }
    ensures { IfOk result (λ nexts. length nexts.items ≡ length leaps.now) }
{
    let mut nexts = Vec::with_capacity(alloc, leaps.len())?;
    let mut next = 0;
    for i in 0..leaps.len() {
        next = next_from(leaps, next.max(i + 1), i + leaps.len());
        nexts.push(next)?;
    }
    Ok(nexts)
}

/// The first point from `from` on from which the leaps lead to `goal` or beyond; or `goal`, or `from`.
fn next_from(leaps: &[u32], from: usize, goal: usize) -> usize
    requires some { 1 ≤ length leaps.now }
    requires goal { goal < 2 ^ 32 }
{
    let mut next = from;
    while next < goal && next + (leaps[next % leaps.len()] as usize) < goal {
        next += 1;
    }
    next
}
