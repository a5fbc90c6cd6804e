//! What the two halves of a segment add to its penalty at least.
//!
//! A segment is cut behind one point of its path. There is a number for each point before the cut, and one for each
//! behind it, and a segment's penalty is at least the sum of those of its two ends. So a search leaves out all segments
//! whose two numbers are together too large, and never looks at them.
//!
//! ```text
//!                            .--' end
//!                     .--'--'
//!              .--' middle             before(begin) + behind(end) ≤ penalty
//!     begin --'                        of the segment from begin to end
//! ```
//!
//! A half's number tells how far its points lie at least from a line through its outer end, whichever line that is. Where
//! the path takes but two of the four directions, a segment's chord is as long, along rows and columns together, as the
//! segment has steps. So the distances of the two halves, each from its own best line, add up to no more than those from
//! the one chord.
#![tactic(auto)]

mod bound;
pub mod halves;
pub mod laws;
mod products;

pub use halves::Halves;
