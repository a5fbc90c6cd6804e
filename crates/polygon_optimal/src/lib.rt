//! The best polygon of a path: fewest segments, then least penalty, then the lowest list of vertices.
//!
//! A polygon goes through the path's first point, and each of its segments stands for a straight run
//! of the path.
//!
//! ```text
//!      ______            __--\         Round two pixels in a row, four segments follow the path
//!     |      |        __/     \        exactly, and three are enough: two of them cut a corner.
//!     |______|       /_________\
//! ```
//!
//! The rule is that of Selinger, "Potrace: a polygon-based tracing algorithm", 2003, sections 2.2.2 (polygons), 2.2.3
//! (penalties) and 2.2.4 (the optimal polygon), with four differences:
//!
//! 1. The polygon goes through the path's first point, where the paper looks for it over all starting points.
//!    `cyclic_optimal` does as the paper does.
//! 2. A penalty is a whole number of 1/256. The paper's is the segment's length times the root of the mean squared
//!    distance of its points; here the length is multiplied in first, and the mean and its root are rounded down.
//! 3. Of polygons with as many segments and the same penalty, the one with the lexicographically lowest list is taken.
//!    The paper leaves that open.
//! 4. What a possible segment is has the differences that `straight_paths` names.
//!
//! ```rust
//! use polygon_optimal::polygon;
//! use pt_core::Point;
//!
//! // The path round the two pixels, down from the upper left corner.
//! let points = [
//!     Point { x: 0, y: 1 },
//!     Point { x: 0, y: 0 },
//!     Point { x: 1, y: 0 },
//!     Point { x: 2, y: 0 },
//!     Point { x: 2, y: 1 },
//!     Point { x: 1, y: 1 },
//! ];
//! let best = polygon(alloc, &points)?;
//! assert_eq!(rt; best.at.as_slice(), [0, 2, 4].as_slice());
//! ```
#![tactic(auto)]

pub mod laws;
pub mod memo;
pub mod optimal;

pub use memo::PolygonMemo;
pub use optimal::{polygon, polygon_by, polygon_with_moments};
pub use polygon_search::lasts;
