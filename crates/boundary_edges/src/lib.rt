//! The boundary edges that are left of a page, as bits: made from its pixels, followed from corner to corner, taken away along paths.
//!
//! A boundary edge has a black pixel on one side and a white one on the other, so the edges tell the image. Where those
//! along a path are taken away, the image is inverted inside the path, at the cost of the path's length.
//!
//! ```text
//!     +---+      Each corner has a bit for an edge that goes down from it, and one for an edge that goes
//!     | # |      left. Here one goes down from the upper left corner of a black pixel, one goes down and
//!     +---+      one left from its upper right corner, and one goes left from its lower right corner.
//! ```
//!
//! ```rust
//! use boundary_edges::Edges;
//!
//! // Each path takes its edges away, until all is white.
//! let mut rest = Edges::of(alloc, &page)?;
//! while let Some((x, y)) = rest.first_black(page.height() - 1) {
//!     rest.take_away(&path_from(&rest, x, y)?);
//! }
//! ```
//!
//! `edges` makes the edges of a page, finds its first black pixel and takes paths away. `layout` looks at the edges of a
//! corner, and goes on to the next one by the place where they stand (`strips`).
#![tactic(auto)]

mod blocks;
pub mod edges;
pub mod layout;
mod square;
pub mod strips;
mod taking;

pub use edges::Edges;
pub use layout::Layout;
pub use strips::Spot;
