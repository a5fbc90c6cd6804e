//! The indices that walks of fewest steps go through.
ghost use Rattle.std.specs.Prelude.{◌≡◌, ◌+◌, ◌<◌, ◌≤◌, ◌↔◌, ◌⊎◌, ℕ, length, IsTrue};
ghost use Rattle.least_walk.specs.Inner.Suffix.{HasFewest};
ghost use Rattle.least_walk.specs.Inner.MarkedPlaces.{AreMarkedPlaces, AreUnmarked, HasMarks, IsMarked, IsPlace, KeepsToFewest, MarksOnward};

use crate::steps::Steps;

/// Marks the indices that walks of fewest steps go through.
//
// The other way to know them is to find the fewest steps to each index as well as from it; with a table that tells
// only where a step may lead at most, that would try steps from indices that no such walk goes through. The price is
// a byte for each index, and tests of steps that a search from the end alone wouldn't make.
pub(crate) fn fill_marks<S: Steps>(steps: &S, counts: &[u32], marks: &mut [bool])
    requires count_places { length counts.now ≡ S.size_of steps.now + 1 }
    requires mark_places { length marks.old ≡ S.size_of steps.now + 1 }
    requires fewest { HasFewest (S.size_of steps.now) (S.is_allowed steps.now) 0 counts.now }
    requires unmarked { AreUnmarked marks.old }
    ensures { HasMarks (S.size_of steps.now) (S.is_allowed steps.now) marks.new }
{
    marks[0] = true;
    for from in 0..steps.size() {
        if marks[from as usize] {
            mark_onward(steps, from, counts, marks);
        }
    }
}

/// Marks where walks of fewest steps that stand here may stand after one step more.
fn mark_onward<S: Steps>(steps: &S, from: u32, counts: &[u32], marks: &mut [bool])
    requires from { from < S.size_of steps.now }
    requires count_places { length counts.now ≡ S.size_of steps.now + 1 }
    requires mark_places { length marks.old ≡ S.size_of steps.now + 1 }
    requires fewest { HasFewest (S.size_of steps.now) (S.is_allowed steps.now) 0 counts.now }
    requires place { IsPlace (S.size_of steps.now) (S.is_allowed steps.now) from }
    requires places { AreMarkedPlaces (S.size_of steps.now) (S.is_allowed steps.now) marks.old }
    ensures mark_places { length marks.new ≡ length marks.old }
    ensures places { AreMarkedPlaces (S.size_of steps.now) (S.is_allowed steps.now) marks.new }
    ensures kept { (k : ℕ) → IsMarked marks.old k → IsMarked marks.new k }
    ensures earlier { (k : ℕ) → k ≤ from → IsMarked marks.new k → IsMarked marks.old k }
    ensures onward { MarksOnward (S.size_of steps.now) (S.is_allowed steps.now) counts.now from
        marks.new }
{
    for to in from + 1..steps.last(from) + 1 {
        marks[to as usize] = is_reached(steps, from, to, counts, marks);
    }
}

/// Whether an index is marked, or a step from this one that keeps to the fewest leads there.
fn is_reached<S: Steps>(steps: &S, from: u32, to: u32, counts: &[u32], marks: &[bool]) -> bool
    requires onwards { from < to }
    requires within { to ≤ S.size_of steps.now }
    requires count_places { length counts.now ≡ S.size_of steps.now + 1 }
    requires mark_places { length marks.now ≡ S.size_of steps.now + 1 }
    requires fewest { HasFewest (S.size_of steps.now) (S.is_allowed steps.now) 0 counts.now }
    ensures { IsTrue result ↔ (IsMarked marks.now to
        ⊎ KeepsToFewest (S.is_allowed steps.now) counts.now from to) }
{
    if marks[to as usize] {
        return true;
    }
    counts[to as usize] + 1 == counts[from as usize] && steps.allowed(from, to)
}
