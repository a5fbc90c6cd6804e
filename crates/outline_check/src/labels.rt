//! The right labels of a path.
ghost use Rattle.std.specs.Prelude.{◌≡◌, ℕ, ◌+◌, length, IfOk};
ghost use Rattle.pt_core.specs.ClosedWalk.{IsClosedWalk};
ghost use Rattle.pt_core.specs.OnPage.{AreOnPage};
ghost use Rattle.polygon_search.specs.Inner.Lasts.{IsUpToLast};
ghost use Rattle.polygon_search.specs.Polygon.{penalty_of};
ghost use Rattle.outline_check.specs.Certificate.{AreRightLabels};
ghost use Rattle.outline_check.specs.Labels.{no_label, label_at};
ghost use Rattle.outline_check.specs.Inner.Known.{AreRightDownTo};

use crate::label::Label;
use crate::onward::Stage;
use crate::segments::CheckedSegments;
use pt_core::{NoMemory, Point};
use std::alloc::Global;

/// The right label of each point of a closed walk on a page, and of its end.
pub fn labels(alloc: Global, points: &[Point]) -> Result<Vec<Label>, NoMemory>
    requires closed { IsClosedWalk points.now }
    requires on_page { AreOnPage points.now }
    ensures { IfOk result (λ labels. AreRightLabels points.now labels.items) }
{
    let segments = CheckedSegments::of(alloc, points)?;
    let nothing = Label { count: 0, cost: 0 };
    let mut labels = vec![in alloc; nothing; points.len() + 1]?;
    fill(&segments, &mut labels);
    Ok(labels)
}

/// Writes down the right labels, from the end down.
fn fill(segments: &CheckedSegments, labels: &mut [Label])
    requires places { length labels.old ≡ length segments.now.moments + 1 }
    requires last { label_at labels.old (length segments.now.moments) ≡ no_label }
    ensures { AreRightDownTo (length segments.now.moments)
        (IsUpToLast segments.now.lasts.items) (penalty_of segments.now.moments) 0 labels.new }
{
    let size = segments.size();
    let mut stage = Stage::at_end(size as u32);
    for from in (0..size as u32).rev() {
        stage = stage.before(segments, labels, from);
        labels[from as usize] = stage.label;
    }
}
