//! The best polygon through a point: the lowest list of the least ways once round.
//!
//! Of several least ways the one that is lowest from the start on is the lowest list from the first point after the
//! path's end on too: what comes before that point and what comes after it can be chosen by themselves.
ghost use Rattle.std.specs.Prelude.{◌≡◌, ◌≢◌, ℕ, ◌+◌, ◌-◌, ◌*◌, ◌<◌, ◌≤◌, ◌^◌, ◌++◌, All, IfOk, List, true, false, cond, nat_lt, drop, take, map, length, slice_index};
ghost use Rattle.straight_paths.specs.Straight.{IsPossible};
ghost use Rattle.cyclic_optimal.specs.Inner.Fronts.{AreFrontsOf, IsBestFrom, IsFirstOnward, IsFirstWay, IsFrontOf, IsInLap, IsLeastBy, lap_of, worth_of};

use crate::fronts::{Front, NONE, Onward};
use crate::sides::WalkSegments;
use prefix_moments::Growing;
use pt_core::NoMemory;
use std::alloc::Global;

/// A way once round, as a polygon.
#[derive(Drop)]
pub(crate) struct Best {
    /// Its number of segments.
    pub count: usize,
    /// What they count: 2^32 times their penalties together, and the number of the first of its points after the path's
    /// end.
    pub worth: u128,
    /// Its points, from that one on.
    pub at: Vec<u32>,
}

/// The best way once round from this point, by its fronts.
pub(crate) fn best_round(
    alloc: Global,
    sides: &WalkSegments,
    start: usize,
    fronts: &[Front],
) -> Result<Best, NoMemory>
    requires start { start < length sides.now.moments.now }
    requires fronts { AreFrontsOf sides.now.moments.now start (start + length sides.now.moments.now) fronts.now }
    ensures { IfOk result (IsBestFrom sides.now.moments.now start) }
{
    let count = fronts.len() - 1;
    let whole = &fronts[count];
    let worth = whole.least[start - whole.low];
    let way = first_way(alloc, sides, start, fronts, worth)?;
    let at = polygon_of(alloc, &way, sides.size)?;
    Ok(Best { count, worth, at })
}

/// The lowest list of the ways once round from this point that count so much.
fn first_way(
    alloc: Global,
    sides: &WalkSegments,
    start: usize,
    fronts: &[Front],
    worth: u128,
) -> Result<Vec<usize>, NoMemory>
    requires start { start < length sides.now.moments.now }
    requires fronts { AreFrontsOf sides.now.moments.now start (start + length sides.now.moments.now) fronts.now }
    requires worth { IsLeastBy sides.now.moments.now (start + length sides.now.moments.now) (length fronts.now - 1)
        start worth }
    requires some { worth < NONE }
    ensures { IfOk result (λ way. IsFirstWay sides.now.moments.now (start + length sides.now.moments.now)
        (length fronts.now - 1) start worth way.items) }
{
    let count = fronts.len() - 1;
    let mut way = Vec::with_capacity(alloc, count)?;
    let mut at = start;
    let mut rest = worth;
    for left in (0..count).rev() {
        let onward = first_onward(sides, at, &fronts[left], rest);
        way.push(onward.next)?;
        at = onward.next;
        rest = onward.least;
    }
    Ok(way)
}

/// The shortest segment from this point to the next front by which a way counts so much.
fn first_onward(sides: &WalkSegments, i: usize, later: &Front, rest: u128) -> Onward
    requires point { i < 2 * length sides.now.moments.now }
    requires few { later.now.low + length later.now.least.items ≤ 2 ^ 33 }
    requires front { IsFrontOf sides.now.moments.now later.now }
    requires reached { (j : ℕ) → IsPossible sides.now.moments.now i j → j ≤ later.now.end
        → j < later.now.low + length later.now.least.items }
    requires rest { IsLeastBy sides.now.moments.now later.now.end (later.now.left + 1) i rest }
    requires some { rest < NONE }
    ensures { IsFirstOnward sides.now.moments.now later.now.end later.now.left i rest result }
{
    let begin = later.low.max(i + 1);
    let beyond = (sides.last(i) + 1).min(later.low + later.least.len());
    let mut segment = sides.segment(i, begin);
    for next in begin..beyond - 1 {
        let least = later.least[next - later.low];
        if leads_on(sides, &segment, i, next, least, rest) {
            return Onward { least, next };
        }
        segment = segment.longer();
    }
    let next = beyond - 1;
    let least = later.least[next - later.low];
    Onward { least, next }
}

/// Whether a way by the segment from point `i` to point `j`, from where the least one counts so much, counts `rest`.
fn leads_on(
    sides: &WalkSegments,
    segment: &Growing,
    i: usize,
    j: usize,
    least: u128,
    rest: u128,
) -> bool
    requires point { i < 2 * length sides.now.moments.now }
    requires possible { IsPossible sides.now.moments.now i j }
    requires moments { segment.now.moments.now ≡ sides.now.moments.now }
    requires from { IsInLap (length sides.now.moments.now) i segment.now.from }
    requires to { segment.now.to + i ≡ j + segment.now.from }
    requires some { rest < NONE }
    ensures so { result ≡ true → worth_of sides.now.moments.now i j + least ≡ rest }
    ensures not { result ≡ false → worth_of sides.now.moments.now i j + least ≢ rest }
{
    if rest < least {
        return false;
    }
    match sides.worth_below(segment, i, j, rest - least + 1) {
        Some(worth) => worth == rest - least,
        None => false,
    }
}

/// The polygon that a way once round is, from its first point after the path's end on.
fn polygon_of(alloc: Global, way: &[usize], size: usize) -> Result<Vec<u32>, NoMemory>
    requires { All (λ j. j < 2 ^ 32) way.now }
    ensures { IfOk result (λ at. (before behind : List ℕ) → way.now ≡ before ++ map (λ k. k + size) behind
        → All (λ k. k < size) before → at.items ≡ behind ++ before) }
{
    let numbers = numbers_of(alloc, way, size)?;
    let at = turned(alloc, &numbers, crossing(way, size))?;
    Ok(at)
}

/// The numbers of these points in the first lap.
fn numbers_of(alloc: Global, way: &[usize], size: usize) -> Result<Vec<u32>, NoMemory>
    requires { All (λ j. j < 2 ^ 32) way.now }
    ensures { IfOk result (λ numbers. numbers.items ≡ map (λ j. lap_of size j) way.now) }
{
    let mut numbers = Vec::with_capacity(alloc, way.len())?;
    for place in 0..way.len() {
        numbers.push(in_lap(way[place], size))?;
    }
    Ok(numbers)
}

/// The number of this point in the first lap.
fn in_lap(point: usize, size: usize) -> u32
    requires { point < 2 ^ 32 }
    ensures { result ≡ lap_of size point }
{
    if point < size {
        point as u32
    } else {
        (point - size) as u32
    }
}

/// At which place of a way the first point after the path's end stands.
fn crossing(way: &[usize], size: usize) -> usize
    ensures most { result ≤ length way.now }
    ensures before { (k : ℕ) → k < result → slice_index way.now k < size }
    ensures here { result < length way.now → size ≤ slice_index way.now result }
{
    let mut place = 0;
    while place < way.len() && way[place] < size {
        place += 1;
    }
    place
}

/// The numbers from this place on, and then those before it.
fn turned(alloc: Global, numbers: &[u32], place: usize) -> Result<Vec<u32>, NoMemory>
    requires { place ≤ length numbers.now }
    ensures { IfOk result (λ turned. turned.items ≡ drop place numbers.now ++ take place numbers.now) }
{
    let mut turned = Vec::with_capacity(alloc, numbers.len())?;
    turned.extend_from_slice(&numbers[place..])?;
    turned.extend_from_slice(&numbers[..place])?;
    Ok(turned)
}
