//! How far what is straight from each point reaches, by the walk taken backwards.
ghost use Rattle.std.specs.Prelude.{◌≡◌, ◌⊎◌, ◌+◌, ◌<◌, ◌≤◌, length, IfOk, IfSome, None, Some};
ghost use Rattle.pt_core.specs.ClosedWalk.{point_at};
ghost use Rattle.path_cones.specs.Inner.Cones.{IsClear};
ghost use Rattle.path_cones.specs.Straight.{path_from, vector_of};
ghost use Rattle.straight_paths.specs.Inner.Sweeps.{AreEndsFrom, IsEnough, IsSeen, IsSweep, IsTold};
ghost use Rattle.straight_paths.specs.Inner.Tables.{IsWordTable};
ghost use Rattle.path_cones.specs.Inner.Tails.{AreStraight, both_back_of, last_of, limit_of};

use crate::sweep::{Seen, Sweep};
use crate::table::Table;
use crate::word::direction;
use path_cones::{Lane, Strip, Tail, Track, Vector, clear_steps, point_of_lap};
use pt_core::NoMemory;
use std::alloc::Global;
use std::cmp::min;

/// So many steps of the second lap mostly matter. They are fewer than a word may have, so that the table tells of them.
const NEAR: usize = 16;

/// For each point, how many steps from there on are straight.
pub(crate) fn straight_of(
    alloc: Global,
    track: &Track,
    table: &mut Table,
) -> Result<Vec<u32>, NoMemory>
    requires table { IsWordTable table.old }
    ensures table { IsWordTable table.new }
    ensures straight { IfOk result (λ steps. AreStraight track.now steps.items) }
{
    let mut steps = vec![in alloc; 0; track.size()]?;
    fill_straight(track, &mut steps, table);
    Ok(steps)
}

/// Writes down how many steps are straight from each point on.
fn fill_straight(track: &Track, steps: &mut [u32], table: &mut Table)
    requires places { length steps.old ≡ length track.now }
    requires table { IsWordTable table.old }
    ensures table { IsWordTable table.new }
    ensures straight { AreStraight track.now steps.new }
{
    let near = near_steps(track);
    let last = track.size() + near;
    let sweep = from_beyond(track, last, steps, table);
    if near == track.limit() || sweep.count(track, track.size(), last, table) < near {
        return fill_from(track, last, sweep, steps, table);
    }
    let last = track.size() + steps_beyond(track);
    let sweep = from_beyond(track, last, steps, table);
    fill_from(track, last, sweep, steps, table);
}

/// How many steps of the second lap are looked at first.
fn near_steps(track: &Track) -> usize
    ensures { result ≤ limit_of track.now }
{
    min(track.limit(), NEAR)
}

/// What is straight from the first index of the second lap on, up to a last index.
//
// What is written down on the way is written anew in the first lap.
fn from_beyond(track: &Track, last: usize, steps: &mut [u32], table: &mut Table) -> Sweep
    requires places { length steps.old ≡ length track.now }
    requires lap { length track.now ≤ last }
    requires last { last ≤ last_of track.now }
    requires table { IsWordTable table.old }
    ensures places { length steps.new ≡ length steps.old }
    ensures sweep { IsSweep table.new track.now last (length track.now) result }
{
    let sweep = Sweep::at_last(track, table, last);
    fill_lap(track, last, track.size(), last, sweep, steps, table)
}

/// Writes down how many steps are straight from each point on, by what is straight from the second lap on.
fn fill_from(track: &Track, last: usize, start: Sweep, steps: &mut [u32], table: &mut Table)
    requires places { length steps.old ≡ length track.now }
    requires enough { IsEnough track.now last }
    requires sweep { IsSweep table.old track.now last (length track.now) start }
    ensures table { IsWordTable table.new }
    ensures straight { AreStraight track.now steps.new }
{
    fill_lap(track, last, 0, track.size(), start, steps, table);
}

/// Writes down how many steps are straight from each index of the lap that begins at `lap`, from an index on down, as far
/// as a last index lets one see. What is straight from the lap's beginning is the answer.
fn fill_lap(
    track: &Track,
    last: usize,
    lap: usize,
    from: usize,
    start: Sweep,
    steps: &mut [u32],
    table: &mut Table,
) -> Sweep
    requires sweep { IsSweep table.old track.now last from start }
    requires ends { AreEndsFrom track.now last lap from steps.old }
    ensures sweep { IsSweep table.new track.now last lap result }
    ensures ends { AreEndsFrom track.now last lap lap steps.new }
{
    let mut sweep = start;
    let mut index = from;
    while index > lap {
        let led = led_on(track, last, lap, index, sweep, steps, table);
        if led.index == lap {
            return led.sweep;
        }
        index = led.index - 1;
        sweep = led.sweep.earlier(track, index, last, table);
        steps[index - lap] = sweep.count(track, index, last, table) as u32;
    }
    sweep
}

/// How far what was found before led.
#[derive(Clone, Copy)]
struct Led {
    index: usize,
    sweep: Sweep,
}

/// Writes down how many steps are straight, as far as the table tells without a search.
fn led_on(
    track: &Track,
    last: usize,
    lap: usize,
    from: usize,
    sweep: Sweep,
    steps: &mut [u32],
    table: &Table,
) -> Led
    requires sweep { IsSweep table.now track.now last from sweep }
    requires ends { AreEndsFrom track.now last lap from steps.old }
    ensures index { result.index ≤ from }
    ensures sweep { IsSweep table.now track.now last result.index result.sweep }
    ensures ends { AreEndsFrom track.now last lap result.index steps.new }
{
    match sweep {
        Sweep::Told(node) => {
            let told = told_on(track, last, lap, from, node, steps, table);
            Led {
                index: told.index,
                sweep: Sweep::Told(told.node),
            }
        }
        Sweep::Held(seen) => {
            let held = held_on(track, last, lap, from, seen, steps, table);
            Led {
                index: held.index,
                sweep: Sweep::Held(held.seen),
            }
        }
    }
}

/// A word of the table, and the index that it is found at.
#[derive(Clone, Copy)]
struct At {
    index: usize,
    node: u32,
}

/// Writes down how many steps are straight, from a word of the table on, as far as the table tells.
fn told_on(
    track: &Track,
    last: usize,
    lap: usize,
    from: usize,
    node: u32,
    steps: &mut [u32],
    table: &Table,
) -> At
    requires told { IsTold table.now track.now last from node }
    requires ends { AreEndsFrom track.now last lap from steps.old }
    ensures index { result.index ≤ from }
    ensures told { IsTold table.now track.now last result.index result.node }
    ensures ends { AreEndsFrom track.now last lap result.index steps.new }
{
    let limit = track.limit() as u32;
    let mut at = At { index: from, node };
    // Each point is looked up once: the later one of a step is the earlier one of the step before.
    let mut there = track.point(from);
    while at.index > lap {
        let index = at.index - 1;
        let here = track.point(index);
        let next = table.told(at.node, direction(Vector::between(here, there)));
        if next == 0 {
            return at;
        }
        steps[index - lap] = min(table.count(next), limit);
        at = At { index, node: next };
        there = here;
    }
    at
}

/// A strip, and the index that it is seen from.
#[derive(Clone, Copy)]
struct Hold {
    index: usize,
    seen: Seen,
}

/// Writes down how many steps are straight, from a strip on, as far as it holds the points; to the lap's beginning where no
/// table is kept.
//
// What is straight is kept beside the loops here, and not in a sweep that is made anew for each point: to move that
// took longer than all that is asked of a strip.
fn held_on(
    track: &Track,
    last: usize,
    lap: usize,
    from: usize,
    seen: Seen,
    steps: &mut [u32],
    table: &Table,
) -> Hold
    requires seen { IsSeen track.now last from seen }
    requires ends { AreEndsFrom track.now last lap from steps.old }
    ensures index { result.index ≤ from }
    ensures seen { IsSeen track.now last result.index result.seen }
    ensures ends { AreEndsFrom track.now last lap result.index steps.new }
{
    let mut hold = Hold { index: from, seen };
    // One place asks for the strip, so that all of it is a part of this loop and no strip is handed on through memory.
    loop {
        hold = held_by_strip(track, last, lap, hold, steps);
        if hold.index == lap || table.used > 0 {
            return hold;
        }
        hold = held_by_scan(track, last, lap, hold, steps);
    }
}

/// Writes down how many steps are straight from one index earlier, by the cones from there.
#[inline(always)]
fn held_by_scan(track: &Track, last: usize, lap: usize, hold: Hold, steps: &mut [u32]) -> Hold
    requires more { lap < hold.index }
    requires seen { IsSeen track.now last hold.index hold.seen }
    requires ends { AreEndsFrom track.now last lap hold.index steps.old }
    ensures index { result.index + 1 ≡ hold.index }
    ensures seen { IsSeen track.now last result.index result.seen }
    ensures ends { AreEndsFrom track.now last lap result.index steps.new }
{
    let index = hold.index - 1;
    let seen = hold.seen.scanned(track, index, last);
    steps[index - lap] = (seen.tail.end - index) as u32;
    Hold { index, seen }
}

/// Writes down how many steps are straight, from a strip on, as far as it holds the points.
#[inline(always)]
fn held_by_strip(track: &Track, last: usize, lap: usize, start: Hold, steps: &mut [u32]) -> Hold
    requires seen { IsSeen track.now last start.index start.seen }
    requires ends { AreEndsFrom track.now last lap start.index steps.old }
    ensures index { result.index ≤ start.index }
    ensures seen { IsSeen track.now last result.index result.seen }
    ensures ends { AreEndsFrom track.now last lap result.index steps.new }
{
    let Some(strip) = start.seen.strip else {
        return start;
    };
    let tail = start.seen.tail;
    if !strip.back.is_nowhere() || tail.ahead.behind(strip.quarter) < tail.end {
        return held_by_steps(track, last, lap, start, steps);
    }
    let (hold, may_go_on) = onward_back(track, last, lap, start.index, tail, strip, steps);
    // A step onward that isn't held isn't asked for twice.
    if !may_go_on {
        return hold;
    }
    held_by_steps(track, last, lap, hold, steps)
}

/// The same by one step at a time.
#[inline(always)]
fn held_by_steps(track: &Track, last: usize, lap: usize, start: Hold, steps: &mut [u32]) -> Hold
    requires seen { IsSeen track.now last start.index start.seen }
    requires ends { AreEndsFrom track.now last lap start.index steps.old }
    ensures index { result.index ≤ start.index }
    ensures seen { IsSeen track.now last result.index result.seen }
    ensures ends { AreEndsFrom track.now last lap result.index steps.new }
{
    let mut hold = start;
    while hold.index > lap {
        let Some(earlier) = held_back(track, last, lap, hold, steps) else {
            return hold;
        };
        hold = earlier;
    }
    hold
}

/// The same as long as no step goes back, for a strip with no point behind, where one of the directions that go back isn't
/// taken before the tail's end; and whether the strip may hold points from there on too.
//
// Along such steps the two directions that go back are taken as late as before. So nothing ends sooner but by the limit, and
// what is behind isn't asked. From where the limit binds, each step is taken by itself.
//
// A step goes onward exactly where its start is less far into the quarter than its end. How far two points are apart across the
// way is the difference of their numbers too. So each point is asked for two numbers, and no step is told by a jump.
//
// Each point is looked up once: the later one of a step is the earlier one of the step before. All of them are in one lap,
// so that the lookups ask for none.
#[inline(always)]
fn onward_back(
    track: &Track,
    last: usize,
    lap: usize,
    from: usize,
    tail: Tail,
    start: Strip,
    steps: &mut [u32],
) -> (Hold, bool)
    requires behind { tail.end ≤ both_back_of start.quarter tail.ahead }
    requires seen { IsSeen track.now last from (record { tail = tail; strip = Some start }) }
    requires ends { AreEndsFrom track.now last lap from steps.old }
    ensures index { result.0.index ≤ from }
    ensures seen { IsSeen track.now last result.0.index result.0.seen }
    ensures ends { AreEndsFrom track.now last lap result.0.index steps.new }
{
    let limit = track.limit();
    let points = track.points();
    let begin = track.lap_before(from);
    let low = later_of(later_of(lap, begin), tail.end.saturating_sub(limit));
    let side = start.way.to_left();
    let diagonal = start.quarter.diagonal();
    let mut index = from;
    let mut there = track.point(from);
    let mut far = diagonal.rise(there);
    let mut lane = Lane::of(start.across, side.rise(there));
    let mut onward = tail.ahead.onward(start.quarter);
    let mut may_go_on = true;
    while index > low {
        let here = point_of_lap(points, begin, index - 1);
        let next = diagonal.rise(here);
        if far <= next {
            break;
        }
        let Some(wider) = lane.before(side.rise(here), start.breadth) else {
            may_go_on = false;
            break;
        };
        index -= 1;
        far = next;
        lane = wider;
        onward = onward.sooner(Vector::between(here, there), index);
        there = here;
        steps[index - lap] = (tail.end - index) as u32;
    }
    let hold = Hold {
        index,
        seen: Seen {
            tail: Tail {
                end: tail.end,
                ahead: tail.ahead.with_onward(start.quarter, onward),
            },
            strip: Some(start.with_across(lane.seen())),
        },
    };
    (hold, may_go_on)
}

/// The later of two indices.
#[inline(always)]
fn later_of(one: usize, other: usize) -> usize
    ensures first { one ≤ result }
    ensures second { other ≤ result }
{
    if one < other { other } else { one }
}

/// Writes down how many steps are straight from one index earlier, if the strip holds that point too.
#[inline(always)]
fn held_back(track: &Track, last: usize, lap: usize, hold: Hold, steps: &mut [u32]) -> Option<Hold>
    requires more { lap < hold.index }
    requires seen { IsSeen track.now last hold.index hold.seen }
    requires ends { AreEndsFrom track.now last lap hold.index steps.old }
    ensures index { IfSome result (λ earlier. earlier.index + 1 ≡ hold.index) }
    ensures seen { IfSome result (λ earlier. IsSeen track.now last earlier.index earlier.seen) }
    ensures ends { IfSome result (λ earlier. AreEndsFrom track.now last lap earlier.index steps.new) }
    ensures none { (result ≡ None) → steps.new ≡ steps.old }
{
    let index = hold.index - 1;
    let seen = hold.seen.by_strip(track, index, last, track.step(index))?;
    steps[index - lap] = (seen.tail.end - index) as u32;
    Some(Hold { index, seen })
}

/// How many steps of the second lap matter: no straight subpath from its first point is so long, or they are as
/// many as the limit.
//
// A straight subpath from the first point ends before that, and none from a point before it ends later, so nothing
// from further on is asked for.
fn steps_beyond(track: &Track) -> usize
    ensures most { result ≤ limit_of track.now }
    ensures enough { (result ≡ limit_of track.now) ⊎ ¬ IsClear (path_from track.now 0) result }
{
    let limit = track.limit();
    limit.min(clear_steps(track, 0, limit).steps + 1)
}
