//! The cheapest way once round from a point.
//!
//! ```text
//!     s     [3 .. 7]     [12 .. 15]     s + n     Fronts: where a way that closes after so many segments
//!                                                 can stand after each. A front ends with the farthest
//!                                                 point from s, and begins with the farthest backwards.
//! ```
ghost use Rattle.std.specs.Prelude.{◌≡◌, ℕ, ◌+◌, ◌-◌, ◌*◌, ◌<◌, ◌≤◌, ◌^◌, All, length, IfOk, IfSome};
ghost use Rattle.straight_paths.specs.Straight.{IsPossible};
ghost use Rattle.least_walk.specs.Inner.Suffix.{IsFewestFrom};
ghost use Rattle.cyclic_optimal.specs.Inner.Fronts.{AreFrontsOf, AreTops, IsFrontOf, IsInLap, IsLeastBy, IsLeastVia, worth_of};

use crate::merged::earlier_by;
use crate::sides::WalkSegments;
use prefix_moments::Growing;
use pt_core::NoMemory;
use std::alloc::Global;

/// What no way counts.
pub(crate) const NONE: u128 = u128::MAX;

/// More than any way counts.
pub(crate) const MOST: u128 = 1 << 120;

/// To so many points at most the segments from another one are tried in their order; among more, a guess comes first.
const FEW: usize = 3;

/// A segment to go on by.
#[derive(Clone, Copy)]
pub(crate) struct Onward {
    /// What the least way by it counts, or `NONE`.
    pub least: u128,
    /// Where it leads.
    pub next: usize,
}

/// Points in a row, and what the least way of so many segments from each of them to the end counts.
#[derive(Drop)]
pub(crate) struct Front {
    /// The point at which the ways end.
    pub end: usize,
    /// Their number of segments.
    pub left: usize,
    /// The first of the points.
    pub low: usize,
    /// `NONE` where there is no such way.
    pub least: Vec<u128>,
}

/// The farthest points from `start` after no segment, after one, and so on to the same point a lap on.
pub(crate) fn tops(
    alloc: Global,
    sides: &WalkSegments,
    start: usize,
) -> Result<Vec<usize>, NoMemory>
    requires { start < length sides.now.moments.now }
    ensures some { IfOk result (λ tops. 1 ≤ length tops.items) }
    ensures tops { IfOk result (λ tops. AreTops sides.now.moments.now start
        (start + length sides.now.moments.now) (length tops.items - 1) tops.items) }
    ensures fewest { IfOk result (λ tops. IsFewestFrom (start + length sides.now.moments.now)
        (IsPossible sides.now.moments.now) start (length tops.items - 1)) }
{
    let end = start + sides.size;
    let mut tops = Vec::new(alloc);
    let mut at = start;
    while at < end {
        tops.push(at)?;
        at = end.min(sides.last(at));
    }
    tops.push(at)?;
    Ok(tops)
}

/// The fronts of all ways once round from this point, from their end back to it, by those of a later one.
//
// From the last front back to the first: for each point the least of all segments to the next front.
pub(crate) fn fronts_by(
    alloc: Global,
    sides: &WalkSegments,
    start: usize,
    tops: &[usize],
    kept: &[Front],
) -> Result<Vec<Front>, NoMemory>
    requires start { start < length sides.now.moments.now }
    requires some { 1 ≤ length tops.now }
    requires tops { AreTops sides.now.moments.now start (start + length sides.now.moments.now)
        (length tops.now - 1) tops.now }
    requires fewest { IsFewestFrom (start + length sides.now.moments.now)
        (IsPossible sides.now.moments.now) start (length tops.now - 1) }
    requires kept { All (IsFrontOf sides.now.moments.now) kept.now }
    ensures { IfOk result (λ fronts. AreFrontsOf sides.now.moments.now start
        (start + length sides.now.moments.now) fronts.items) }
{
    let count = tops.len() - 1;
    let end = start + sides.size;
    let mut fronts = Vec::with_capacity(alloc, tops.len())?;
    let mut front = Front {
        end,
        left: 0,
        low: end,
        least: vec![in alloc; 0u128; 1]?,
    };
    for c in (0..count).rev() {
        let next = earlier_by(alloc, sides, tops[c], &front, kept)?;
        fronts.push(front)?;
        front = next;
    }
    fronts.push(front)?;
    Ok(fronts)
}

/// The front before this one, up to `top`.
pub(crate) fn earlier(
    alloc: Global,
    sides: &WalkSegments,
    top: usize,
    later: &Front,
) -> Result<Front, NoMemory>
    requires top { top < 2 * length sides.now.moments.now }
    requires end { later.now.end < 2 ^ 33 }
    requires left { later.now.left < 2 ^ 31 }
    requires few { later.now.low + length later.now.least.items ≤ 2 ^ 33 }
    requires front { IsFrontOf sides.now.moments.now later.now }
    requires reached { (i j : ℕ) → i ≤ top → IsPossible sides.now.moments.now i j → j ≤ later.now.end
        → j < later.now.low + length later.now.least.items }
    ensures front { IfOk result (IsFrontOf sides.now.moments.now) }
    ensures end { IfOk result (λ front. front.end ≡ later.now.end) }
    ensures left { IfOk result (λ front. front.left ≡ later.now.left + 1) }
    ensures top { IfOk result (λ front. front.low + length front.least.items ≡ top + 1) }
{
    let low = lowest(sides, top, later.low);
    let mut least = Vec::with_capacity(alloc, top + 1 - low)?;
    let mut guess = later.low;
    for i in low..top + 1 {
        let onward = cheapest(sides, i, later, guess);
        guess = onward.next;
        least.push(onward.least)?;
    }
    Ok(Front {
        end: later.end,
        left: later.left + 1,
        low,
        least,
    })
}

/// The first point, or the one after `top`, from which on segments lead to `goal` and beyond.
fn lowest(sides: &WalkSegments, top: usize, goal: usize) -> usize
    requires top { top < 2 * length sides.now.moments.now }
    ensures most { result ≤ top + 1 }
    ensures short { (i j : ℕ) → i < result → IsPossible sides.now.moments.now i j → j < goal }
{
    let mut low = top + 1;
    while low > 0 && sides.last(low - 1) >= goal {
        low -= 1;
    }
    low
}

/// The segment by which the least way from this point goes on to the next front.
//
// Where it leads is a guess for the next point, of which nothing is proved.
fn cheapest(sides: &WalkSegments, i: usize, later: &Front, guess: usize) -> Onward
    requires point { i < 2 * length sides.now.moments.now }
    requires end { later.now.end < 2 ^ 33 }
    requires left { later.now.left < 2 ^ 31 }
    requires few { later.now.low + length later.now.least.items ≤ 2 ^ 33 }
    requires front { IsFrontOf sides.now.moments.now later.now }
    requires reached { (j : ℕ) → IsPossible sides.now.moments.now i j → j ≤ later.now.end
        → j < later.now.low + length later.now.least.items }
    ensures { IsLeastBy sides.now.moments.now later.now.end (later.now.left + 1) i result.least }
{
    let begin = later.low.max(i + 1);
    let beyond = (sides.last(i) + 1).min(later.low + later.least.len());
    if beyond <= begin {
        return Onward {
            least: NONE,
            next: guess,
        };
    }
    let tried = tried(sides, i, later, begin, beyond, guess);
    cheaper_in(sides, i, later, begin, beyond, tried)
}

/// The segment to about this point, from `begin` to before `beyond`; or none, where there are few of them.
//
// The segment to where the best one from the point before leads is mostly the best here too, or nearly. So hardly any
// of the others is better, and they are refused without a root.
fn tried(
    sides: &WalkSegments,
    i: usize,
    later: &Front,
    begin: usize,
    beyond: usize,
    guess: usize,
) -> Onward
    requires point { i < 2 * length sides.now.moments.now }
    requires end { later.now.end < 2 ^ 33 }
    requires left { later.now.left < 2 ^ 31 }
    requires front { IsFrontOf sides.now.moments.now later.now }
    requires low { later.now.low ≤ begin }
    requires onwards { i < begin }
    requires some { begin < beyond }
    requires high { beyond ≤ later.now.low + length later.now.least.items }
    requires possible { (j : ℕ) → i < j → j < beyond → IsPossible sides.now.moments.now i j }
    requires first { (j : ℕ) → i < j → j < begin → j < later.now.low }
    ensures least { IsLeastVia sides.now.moments.now later.now.end later.now.left i begin result.least }
    ensures most { result.least ≤ NONE }
{
    let to = guess.max(begin).min(beyond - 1);
    let none = Onward {
        least: NONE,
        next: to,
    };
    if beyond - begin <= FEW {
        return none;
    }
    let segment = sides.segment(i, to);
    lower(sides, &segment, i, to, later.least[to - later.low], none)
}

/// The cheapest of the segments to the points from `begin` to before `beyond`; or `best`, where none is cheaper.
fn cheaper_in(
    sides: &WalkSegments,
    i: usize,
    later: &Front,
    begin: usize,
    beyond: usize,
    best: Onward,
) -> Onward
    requires point { i < 2 * length sides.now.moments.now }
    requires end { later.now.end < 2 ^ 33 }
    requires left { later.now.left < 2 ^ 31 }
    requires front { IsFrontOf sides.now.moments.now later.now }
    requires low { later.now.low ≤ begin }
    requires onwards { i < begin }
    requires some { begin < beyond }
    requires high { beyond ≤ later.now.low + length later.now.least.items }
    requires possible { (j : ℕ) → i < j → j < beyond → IsPossible sides.now.moments.now i j }
    requires least { IsLeastVia sides.now.moments.now later.now.end later.now.left i begin best.least }
    requires most { best.least ≤ NONE }
    ensures { IsLeastVia sides.now.moments.now later.now.end later.now.left i beyond result.least }
{
    let mut segment = sides.segment(i, begin);
    let first = later.least[begin - later.low];
    let mut cheapest = lower(sides, &segment, i, begin, first, best);
    for j in begin + 1..beyond {
        segment = segment.longer();
        cheapest = lower(sides, &segment, i, j, later.least[j - later.low], cheapest);
    }
    cheapest
}

/// The segment from point `i` to point `j`, where the rest counts so much; or `best`, where it is no cheaper.
#[inline(always)]
fn lower(
    sides: &WalkSegments,
    segment: &Growing,
    i: usize,
    j: usize,
    rest: u128,
    best: Onward,
) -> Onward
    requires point { i < 2 * length sides.now.moments.now }
    requires possible { IsPossible sides.now.moments.now i j }
    requires moments { segment.now.moments.now ≡ sides.now.moments.now }
    requires from { IsInLap (length sides.now.moments.now) i segment.now.from }
    requires to { segment.now.to + i ≡ j + segment.now.from }
    requires most { rest < best.least → rest ≤ 2 ^ 120 }
    ensures lower { worth_of sides.now.moments.now i j + rest < best.least
        → result.least ≡ worth_of sides.now.moments.now i j + rest }
    ensures same { best.least ≤ worth_of sides.now.moments.now i j + rest → result.least ≡ best.least }
{
    if best.least <= rest {
        return best;
    }
    let Some(worth) = sides.worth_below(segment, i, j, best.least - rest) else {
        return best;
    };
    if worth + rest < best.least {
        Onward {
            least: worth + rest,
            next: j,
        }
    } else {
        best
    }
}
