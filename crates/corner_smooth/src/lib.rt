//! Corners and curves at the vertices of an outline.
//!
//! An outline has a piece for each vertex of its polygon, from the middle of the side before the vertex
//! to the middle of the side after it. It is a curve inside the triangle of the vertex and the two middles
//! or, where the vertex is sharp, the two straight lines.
#![tactic(auto)]

mod corner;
pub mod outline;
mod triangle;
mod vertex;

pub use outline::smooth;
