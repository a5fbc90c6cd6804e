//! The least walk through a table of steps: fewest steps, then least cost, then the
//! lexicographically least list.
//!
//! A walk leads from 0 up to the table's size, by steps that the table allows and prices.
//!
//! ```text
//!     0 ----- 1 ----- 2 ----- 3     The steps of one are always allowed, and here the one from 0
//!      \_____________/              to 2 is too. Of the two walks, 0 1 2 3 and 0 2 3, the second
//!                                   is the least, since it has fewer steps.
//! ```
//!
//! No step is priced that no walk of fewest steps takes.
#![tactic(auto)]

pub mod laws;
mod marks;
pub mod steps;
mod suffixes;
pub mod walk;
pub mod window;

pub use steps::Steps;
pub use walk::{Walk, least, walk_by};
pub use window::{Window, windows};
