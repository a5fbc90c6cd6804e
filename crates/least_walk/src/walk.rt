//! The least walk.
ghost use Rattle.std.specs.Prelude.{◌≡◌, ◌+◌, length, IfOk};
ghost use Rattle.least_walk.specs.LeastWalk.{IsLeast, walk_from, step_count, total_cost};
ghost use Rattle.least_walk.specs.Inner.Suffix.{HasFewest, HasCosts, HasNexts};

use crate::marks::fill_marks;
use crate::steps::Steps;
use crate::suffixes::{fill_costs, fill_counts};
use pt_core::{NoMemory, Sequence};
use std::alloc::Global;

/// A walk from 0 to the size of its `Steps`.
#[derive(Debug, Drop)]
pub struct Walk {
    /// Where each step begins: all of the walk but the size, at which it ends.
    pub at: Sequence<u32>,
    /// The number of steps.
    pub count: u32,
    /// What the steps cost together.
    pub cost: u128,
}

/// The walk of fewest steps; of several the cheapest, and of those the lexicographically least.
//
// The least walk from an index goes by one step to a later index, and on from there by the least
// walk from that one. So `counts`, `costs` and `nexts` are filled from their ends down.
//
// 1. `counts`: the fewest steps from each index to the end.
// 2. `marks`: from 0 up, the indices that walks of fewest steps go through. Nothing else is looked at
//    from here on.
// 3. `costs` and `nexts`: the cheapest of the steps that keep to the fewest, and of several the
//    shortest.
// 4. The walk goes from 0 on by `nexts`.
//
// In one pass each step that improves the count so far would have to be priced; in two only those are that keep to
// the fewest from their index. The price: a step that ties in its count may be tested twice.
pub fn least<S: Steps>(alloc: Global, steps: &S) -> Result<Walk, NoMemory>
    ensures least { IfOk result (λ walk. IsLeast (S.size_of steps.now) (S.is_allowed steps.now)
        (S.cost_of steps.now) (walk_from walk.at (S.size_of steps.now))) }
    ensures starts { IfOk result (λ walk. walk.count ≡ length walk.at) }
    ensures count { IfOk result (λ walk. walk.count
        ≡ step_count (walk_from walk.at (S.size_of steps.now))) }
    ensures cost { IfOk result (λ walk. walk.cost
        ≡ total_cost (S.cost_of steps.now) (walk_from walk.at (S.size_of steps.now))) }
{
    let places = steps.size() as usize + 1;
    let mut counts = vec![in alloc; 0u32; places]?;
    let mut marks = vec![in alloc; false; places]?;
    let mut costs = vec![in alloc; 0u128; places]?;
    let mut nexts = vec![in alloc; 0u32; places]?;
    fill_counts(steps, &mut counts);
    fill_marks(steps, &counts, &mut marks);
    fill_costs(steps, &counts, &marks, &mut costs, &mut nexts);
    walk_by(alloc, steps, &counts, &costs, &nexts)
}

/// The least walk, by what is known of each index that walks of fewest steps go through.
///
/// For those who know more of their steps than `Steps` says, and find this faster than `least` does.
pub fn walk_by<S: Steps>(
    alloc: Global,
    steps: &S,
    counts: &[u32],
    costs: &[u128],
    nexts: &[u32],
) -> Result<Walk, NoMemory>
    requires count_places { length counts.now ≡ S.size_of steps.now + 1 }
    requires cost_places { length costs.now ≡ S.size_of steps.now + 1 }
    requires next_places { length nexts.now ≡ S.size_of steps.now + 1 }
    requires counts { HasFewest (S.size_of steps.now) (S.is_allowed steps.now) 0 counts.now }
    requires costs { HasCosts (S.size_of steps.now) (S.is_allowed steps.now) (S.cost_of steps.now)
        0 costs.now }
    requires nexts { HasNexts (S.size_of steps.now) (S.is_allowed steps.now) (S.cost_of steps.now)
        0 nexts.now }
    ensures least { IfOk result (λ walk. IsLeast (S.size_of steps.now) (S.is_allowed steps.now)
        (S.cost_of steps.now) (walk_from walk.at (S.size_of steps.now))) }
    ensures starts { IfOk result (λ walk. walk.count ≡ length walk.at) }
    ensures count { IfOk result (λ walk. walk.count
        ≡ step_count (walk_from walk.at (S.size_of steps.now))) }
    ensures cost { IfOk result (λ walk. walk.cost
        ≡ total_cost (S.cost_of steps.now) (walk_from walk.at (S.size_of steps.now))) }
{
    let size = steps.size();
    let count = counts[0];
    let mut at = Vec::with_capacity(alloc, count as usize)?;
    let mut from = 0;
    while from < size {
        at.push(from)?;
        from = nexts[from as usize];
    }
    Ok(Walk {
        at: Sequence::from_vec(at),
        count,
        cost: costs[0],
    })
}
