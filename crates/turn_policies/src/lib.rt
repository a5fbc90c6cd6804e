//! Which way a boundary path turns at a corner between four pixels.
//!
//! A path runs along pixel edges with black on its left. At each corner it looks at the two pixels ahead and
//! goes straight on, left or right.
#![tactic(auto)]

mod around;
pub mod edge;
pub mod heading;
pub mod laws;
pub mod majority;
pub mod rule;

pub use edge::Edge;
pub use heading::Dir;
pub use majority::{major, major_in};
pub use rule::{asks_majority, goes_right, turn, turned_at};
