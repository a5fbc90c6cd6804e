//! The search for the best polygon of a path, by how far its segments reach.
//!
//! What calls it stands above, in `polygon_optimal`. Here are the segments of a path as steps (`segments`), and the windows
//! in which vertices stand (`windows`). Two searches go through these from the end. One looks at all segments between
//! windows (`search`). The other stays within a limit (`within`): it leaves out vertices by bounds (`bounds`), and segments
//! by blocks of a window (`blocks`).
#![tactic(auto)]

mod blocks;
mod bounds;
mod limit;
pub mod room;
pub mod search;
pub mod segments;
mod windows;
mod within;

pub use room::SearchRoom;
pub use search::least_by_windows;
pub use segments::{Segments, lasts};
