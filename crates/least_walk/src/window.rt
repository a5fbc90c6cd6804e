//! Where walks of fewest steps stand.
ghost use Rattle.std.specs.Prelude.{◌≡◌, ◌+◌, length, min, max, slice_index, IfOk};
ghost use Rattle.least_walk.specs.Inner.Suffix.{HasFewest};
ghost use Rattle.least_walk.specs.Inner.Windows.{AreNone};
ghost use Rattle.least_walk.specs.Windows.{AreWindows};
ghost use Rattle.least_walk.specs.Inner.MarkedPlaces.{HasMarks};

use crate::marks::fill_marks;
use crate::steps::Steps;
use crate::suffixes::fill_counts;
use pt_core::NoMemory;
use std::alloc::Global;

/// From where to where walks of fewest steps stand, after some number of steps.
#[derive(Clone, Copy, Debug, PartialEq, Eq)]
pub struct Window {
    /// The least index at which one of them stands.
    pub least: u32,
    /// The greatest one.
    pub greatest: u32,
}

impl Window {
    /// The window that holds one index more.
    fn with(self, index: u32) -> Window
        ensures least { result.least ≡ min self.least index }
        ensures greatest { result.greatest ≡ max self.greatest index }
    {
        Window {
            least: self.least.min(index),
            greatest: self.greatest.max(index),
        }
    }
}

/// The windows after no step, after one, and so on up to the fewest number of steps.
//
// `least` doesn't go by them: a window has its ends alone, and in a table of any steps an index between them need not
// be on a walk of fewest steps. Where the steps are segments of a path each is, and the search of polygons does so.
pub fn windows<S: Steps>(alloc: Global, steps: &S) -> Result<Vec<Window>, NoMemory>
    ensures { IfOk result
        (λ windows. AreWindows (S.size_of steps.now) (S.is_allowed steps.now) windows.items) }
{
    let size = steps.size();
    let places = size as usize + 1;
    let mut counts = vec![in alloc; 0u32; places]?;
    let mut marks = vec![in alloc; false; places]?;
    fill_counts(steps, &mut counts);
    fill_marks(steps, &counts, &mut marks);
    // No index stands in this one.
    let none = Window {
        least: size,
        greatest: 0,
    };
    let mut windows = vec![in alloc; none; counts[0] as usize + 1]?;
    fill_windows(steps, &counts, &marks, &mut windows);
    Ok(windows)
}

/// Brings each marked index into its window.
fn fill_windows<S: Steps>(steps: &S, counts: &[u32], marks: &[bool], windows: &mut [Window])
    requires count_places { length counts.now ≡ S.size_of steps.now + 1 }
    requires mark_places { length marks.now ≡ S.size_of steps.now + 1 }
    requires fewest { HasFewest (S.size_of steps.now) (S.is_allowed steps.now) 0 counts.now }
    requires marks { HasMarks (S.size_of steps.now) (S.is_allowed steps.now) marks.now }
    requires none { AreNone (S.size_of steps.now) windows.old }
    requires one_each { length windows.old ≡ slice_index counts.now 0 + 1 }
    ensures { AreWindows (S.size_of steps.now) (S.is_allowed steps.now) windows.new }
{
    for index in 0..steps.size() + 1 {
        if marks[index as usize] {
            let steps_to = (counts[0] - counts[index as usize]) as usize;
            windows[steps_to] = windows[steps_to].with(index);
        }
    }
}
