//! Sums over the points of a segment of a path, and the segment's penalty, in constant time.
//!
//! A path is a closed walk, and its points are numbered round it: after the last one comes
//! the first again. A segment from point number i to point number j runs along the path.
#![tactic(auto)]

pub mod growing;
pub mod moments;
mod prefix;
mod raw;
pub mod receding;
pub mod room;
pub mod roots;
pub mod start;
pub mod sums;

pub use growing::Growing;
pub use moments::Moments;
pub use receding::Receding;
pub use room::MomentsRoom;
pub use roots::Roots;
pub use start::Start;
pub use sums::Sums;
