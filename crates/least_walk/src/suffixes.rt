//! The least way to go on from each index, from the last index down to the first.
ghost use Rattle.std.specs.Prelude.{◌≡◌, ◌+◌, ◌<◌, length};
ghost use Rattle.least_walk.specs.Inner.Suffix.{HasFewest, HasCosts, HasNexts, IsFewestFrom, IsLeastCost, IsLeastNext};
ghost use Rattle.least_walk.specs.Inner.MarkedPlaces.{HasMarks, IsPlace};

use crate::steps::Steps;

/// A step to go on by.
#[derive(Clone, Copy)]
struct Onward {
    /// What the walk costs from this step on to the end.
    cost: u128,
    /// Where the step leads.
    next: u32,
}

/// Writes down the fewest steps from each index to the end.
pub(crate) fn fill_counts<S: Steps>(steps: &S, counts: &mut [u32])
    requires { length counts.old ≡ S.size_of steps.now + 1 }
    ensures { HasFewest (S.size_of steps.now) (S.is_allowed steps.now) 0 counts.new }
{
    let size = steps.size();
    counts[size as usize] = 0;
    for from in (0..size).rev() {
        counts[from as usize] = fewest_from(steps, from, counts);
    }
}

/// The fewest steps from this index to the end, by those from each later one.
//
// The farthest index comes first: from there the fewest steps are left in most cases, and then the
// nearer ones are out by their counts alone.
fn fewest_from<S: Steps>(steps: &S, from: u32, counts: &[u32]) -> u32
    requires from { from < S.size_of steps.now }
    requires places { length counts.now ≡ S.size_of steps.now + 1 }
    requires later { HasFewest (S.size_of steps.now) (S.is_allowed steps.now)
        (from + 1) counts.now }
    ensures { IsFewestFrom (S.size_of steps.now) (S.is_allowed steps.now) from result }
{
    let mut fewest = counts[from as usize + 1] + 1;
    for to in (from + 2..steps.last(from) + 1).rev() {
        let count = counts[to as usize] + 1;
        if count < fewest && steps.allowed(from, to) {
            fewest = count;
        }
    }
    fewest
}

/// Writes down, for each index that walks of fewest steps go through, what the least walk from there to
/// the end costs, and where it goes first.
pub(crate) fn fill_costs<S: Steps>(
    steps: &S,
    counts: &[u32],
    marks: &[bool],
    costs: &mut [u128],
    nexts: &mut [u32],
)
    requires count_places { length counts.now ≡ S.size_of steps.now + 1 }
    requires mark_places { length marks.now ≡ S.size_of steps.now + 1 }
    requires cost_places { length costs.old ≡ S.size_of steps.now + 1 }
    requires next_places { length nexts.old ≡ S.size_of steps.now + 1 }
    requires fewest { HasFewest (S.size_of steps.now) (S.is_allowed steps.now) 0 counts.now }
    requires marks { HasMarks (S.size_of steps.now) (S.is_allowed steps.now) marks.now }
    ensures costs { HasCosts (S.size_of steps.now) (S.is_allowed steps.now) (S.cost_of steps.now)
        0 costs.new }
    ensures nexts { HasNexts (S.size_of steps.now) (S.is_allowed steps.now) (S.cost_of steps.now)
        0 nexts.new }
{
    let size = steps.size();
    costs[size as usize] = 0;
    for from in (0..size).rev() {
        if marks[from as usize] {
            let onward = cheapest_from(steps, from, counts, costs);
            costs[from as usize] = onward.cost;
            nexts[from as usize] = onward.next;
        }
    }
}

/// The cheapest of the steps from this index that keep to the fewest, and of several the shortest.
fn cheapest_from<S: Steps>(steps: &S, from: u32, counts: &[u32], costs: &[u128]) -> Onward
    requires from { from < S.size_of steps.now }
    requires count_places { length counts.now ≡ S.size_of steps.now + 1 }
    requires cost_places { length costs.now ≡ S.size_of steps.now + 1 }
    requires fewest { HasFewest (S.size_of steps.now) (S.is_allowed steps.now) 0 counts.now }
    requires place { IsPlace (S.size_of steps.now) (S.is_allowed steps.now) from }
    requires later { HasCosts (S.size_of steps.now) (S.is_allowed steps.now) (S.cost_of steps.now)
        (from + 1) costs.now }
    ensures cost { IsLeastCost (S.size_of steps.now) (S.is_allowed steps.now) (S.cost_of steps.now)
        from result.cost }
    ensures next { IsLeastNext (S.size_of steps.now) (S.is_allowed steps.now) (S.cost_of steps.now)
        from result.next }
{
    let count = counts[from as usize];
    // Until a step is found, the cost is above that of any walk.
    let mut cheapest = Onward {
        cost: u128::MAX,
        next: from,
    };
    for to in from + 1..steps.last(from) + 1 {
        let rest = costs[to as usize];
        // What is dearer without the step already is out before the step is looked at.
        if counts[to as usize] + 1 == count && rest < cheapest.cost && steps.allowed(from, to) {
            let cost = u128::from(steps.cost(from, to)) + rest;
            if cost < cheapest.cost {
                cheapest = Onward { cost, next: to };
            }
        }
    }
    cheapest
}
