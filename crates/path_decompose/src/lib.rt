//! Splits a page into boundary paths: closed walks along pixel edges, black on the left.
//!
//! A path starts at the leftmost black pixel of the uppermost row that has one, goes down that
//! pixel's left side, and follows the edges between black and white pixels until it comes to its
//! first edge again. The pixels inside are then inverted, and the next path starts from what is
//! black now, until the page is white. Nothing is inverted pixel by pixel: what is left is held as
//! the edges between black and white pixels (`boundary_edges`), and each path takes its own away.
//!
//! ```rust
//! use path_decompose::decompose_above;
//! use pt_core::Policy;
//!
//! // The paths of a page, but for those with two pixels inside or less.
//! for path in decompose_above(alloc, &page, Policy::Minority, 2)? {
//!     let (sign, area, points) = (path.sign, path.area, path.points.as_slice());
//! }
//! ```
#![tactic(auto)]

mod corner;
pub mod decomposition;
pub mod interior;
pub mod laws;
pub mod line;
pub mod speckle;
mod trail;
mod walk;

pub use decomposition::{decompose, decompose_above};
pub use interior::inside;
pub use line::upright_between;
pub use speckle::keep;
