//! The starts of paths that have no holder yet.
ghost use Rattle.std.specs.Prelude.{◌≡◌, ◌+◌, ◌<◌, ◌≤◌, ◌^◌, ℕ, Bool, true, IfOk, length};
ghost use Rattle.std.specs.List.{range_with_len};
ghost use Rattle.path_tree.specs.Inner.Free.{AreSkips, LeadPast};

use pt_core::NoMemory;
use std::alloc::Global;

/// The pointers of a union-find structure for `count` starts, and one for the end of the list. Each points to
/// itself, because no path has a holder yet.
pub(crate) fn all_free(alloc: Global, count: usize) -> Result<Vec<u32>, NoMemory>
    requires { count < 2 ^ 32 }
    ensures { IfOk result (λ skips. skips.items ≡ range_with_len 0 (count + 1)) }
{
    let mut skips = Vec::with_capacity(alloc, count + 1)?;
    for at in 0..count + 1 {
        skips.push(at as u32)?;
    }
    Ok(skips)
}

/// The first index at or after `from` that points to itself. All starts from `from` up to it belong to paths
/// with holders.
//
// This is the search of a union-find structure. Each pointer on the way is moved to the one after the next
// (path halving), so that the next search is shorter.
pub(crate) fn next_free(skips: &mut [u32], from: usize) -> usize
    requires skips { AreSkips skips.old }
    requires from { from < length skips.old }
    ensures skips { AreSkips skips.new }
    ensures length { length skips.new ≡ length skips.old }
    ensures past { (held : ℕ → Bool) → LeadPast held skips.old → LeadPast held skips.new }
    ensures from { from ≤ result }
    ensures place { result < length skips.new }
    ensures passed { (held : ℕ → Bool) → LeadPast held skips.old
        → (k : ℕ) → from ≤ k → k < result → held k ≡ true }
{
    let mut at = from;
    'places: while skips[at] as usize != at {
        let next = skips[at] as usize;
        let after = skips[next];
        skips[at] = after;
        at = after as usize;
    }
    at
}
