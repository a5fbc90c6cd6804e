//! What one start's fronts tell of another start's.
//!
//! Ways to two ends a lap on mostly go through the same points from a few segments before these on. So their fronts
//! differ by a constant there, and in all earlier fronts too.
ghost use Rattle.std.specs.Prelude.{◌≡◌, ℕ, ◌+◌, ◌-◌, ◌*◌, ◌<◌, ◌≤◌, ◌^◌, All, IfOk, true, length, slice_index};
ghost use Rattle.straight_paths.specs.Straight.{IsPossible};
ghost use Rattle.cyclic_optimal.specs.Inner.Fronts.{IsFrontOf, IsMoved, IsMovedTo};

use crate::fronts::{Front, MOST, NONE, earlier};
use crate::sides::WalkSegments;
use pt_core::NoMemory;
use std::alloc::Global;

/// The front before this one, up to `top`, by the kept fronts, or found anew where these don't tell it.
//
// Where each way from this front counts as much more or less than from the kept one, so do those from the front before.
pub(crate) fn earlier_by(
    alloc: Global,
    sides: &WalkSegments,
    top: usize,
    later: &Front,
    kept: &[Front],
) -> Result<Front, NoMemory>
    requires top { top < 2 * length sides.now.moments.now }
    requires end { later.now.end < 2 ^ 33 }
    requires left { later.now.left < 2 ^ 31 }
    requires few { later.now.low + length later.now.least.items ≤ 2 ^ 33 }
    requires front { IsFrontOf sides.now.moments.now later.now }
    requires reached { (i j : ℕ) → i ≤ top → IsPossible sides.now.moments.now i j → j ≤ later.now.end
        → j < later.now.low + length later.now.least.items }
    requires before { top < later.now.end }
    requires kept { All (IsFrontOf sides.now.moments.now) kept.now }
    ensures front { IfOk result (IsFrontOf sides.now.moments.now) }
    ensures end { IfOk result (λ front. front.end ≡ later.now.end) }
    ensures left { IfOk result (λ front. front.left ≡ later.now.left + 1) }
    ensures top { IfOk result (λ front. front.low + length front.least.items ≡ top + 1) }
{
    if later.left + 1 < kept.len() {
        let other = &kept[later.left];
        let before = &kept[later.left + 1];
        if is_before(before, other, top) && is_moved(later, other) {
            return moved(alloc, later, other, before, top);
        }
    }
    earlier(alloc, sides, top, later)
}

/// Whether it is the front before the other one, and has points up to `top`.
fn is_before(before: &Front, other: &Front, top: usize) -> bool
    ensures end { result ≡ true → before.now.end ≡ other.now.end }
    ensures left { result ≡ true → before.now.left ≡ other.now.left + 1 }
    ensures low { result ≡ true → before.now.low ≤ top }
    ensures top { result ≡ true → top < before.now.low + length before.now.least.items }
{
    before.end == other.end
        && before.left > other.left
        && before.left - other.left == 1
        && before.low <= top
        && top - before.low < before.least.len()
}

/// Whether the front has the first points of the other one, and each of them counts as much more or less.
fn is_moved(front: &Front, other: &Front) -> bool
    ensures { result ≡ true → IsMoved front.now other.now }
{
    if front.left != other.left
        || front.low != other.low
        || front.least.is_empty()
        || front.least.len() > other.least.len()
    {
        return false;
    }
    for k in 0..front.least.len() {
        if !is_apart(front, other, k) {
            return false;
        }
    }
    true
}

/// Whether the point at this place counts as much more or less than the other front's as the first point does.
fn is_apart(front: &Front, other: &Front, k: usize) -> bool
    requires place { k < length front.now.least.items }
    requires other { k < length other.now.least.items }
    ensures most { result ≡ true → slice_index front.now.least.items k < MOST }
    ensures most_other { result ≡ true → slice_index other.now.least.items k < MOST }
    ensures same { result ≡ true → slice_index front.now.least.items k + slice_index other.now.least.items 0
        ≡ slice_index other.now.least.items k + slice_index front.now.least.items 0 }
{
    let (here, there) = (front.least[k], other.least[k]);
    let (first, other_first) = (front.least[0], other.least[0]);
    here < MOST
        && there < MOST
        && first < MOST
        && other_first < MOST
        && here + other_first == there + first
}

/// The points of the front before the other one up to `top`, each of which counts as much more or less as this front's
/// do.
fn moved(
    alloc: Global,
    later: &Front,
    other: &Front,
    before: &Front,
    top: usize,
) -> Result<Front, NoMemory>
    requires some { 1 ≤ length later.now.least.items }
    requires some_other { 1 ≤ length other.now.least.items }
    requires most { slice_index later.now.least.items 0 < MOST }
    requires left { later.now.left < 2 ^ 31 }
    requires low { before.now.low ≤ top }
    requires top { top < before.now.low + length before.now.least.items }
    ensures end { IfOk result (λ front. front.end ≡ later.now.end) }
    ensures left { IfOk result (λ front. front.left ≡ later.now.left + 1) }
    ensures low { IfOk result (λ front. front.low ≡ before.now.low) }
    ensures top { IfOk result (λ front. front.low + length front.least.items ≡ top + 1) }
    ensures each { IfOk result (λ front. (k : ℕ) → k < length front.least.items
        → IsMovedTo (slice_index later.now.least.items 0) (slice_index other.now.least.items 0)
        (slice_index before.now.least.items k) (slice_index front.least.items k)) }
{
    let (more, less) = (later.least[0], other.least[0]);
    let size = top - before.low + 1;
    let mut least = Vec::with_capacity(alloc, size)?;
    for k in 0..size {
        least.push(moved_to(before.least[k], more, less))?;
    }
    Ok(Front {
        end: later.end,
        left: later.left + 1,
        low: before.low,
        least,
    })
}

/// What the least way counts that counts so much more and so much less than this; or `NONE`, where there is no way.
fn moved_to(least: u128, more: u128, less: u128) -> u128
    requires { more < MOST }
    ensures { IsMovedTo more less least result }
{
    if least < 2 * MOST {
        (least + more).saturating_sub(less)
    } else {
        NONE
    }
}
