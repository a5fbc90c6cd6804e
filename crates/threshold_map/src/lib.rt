//! Which gray values and colours are black at a given black level (the potrace manual page, option
//! `--blacklevel`).
//!
//! A level is a fraction of full white, from 0 to 1. A pixel is black if its brightness, as a fraction of full
//! white, is at most the level. Nothing is rounded.
//!
//! ```text
//!     black |###########################|                            | white
//!           0                         level                          1
//! ```
#![tactic(auto)]

pub mod level;

pub use level::{GREATEST_SAMPLE, Level};
