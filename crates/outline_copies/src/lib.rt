//! Proves that a copy of a path has the same outline, moved by the same displacement.
//!
//! A letter that occurs twice on a page is such a pair. Each point of one path is the corresponding point of the other
//! one, moved by the same number of whole pixels to the right and up. Then the same holds for each point of its
//! outline.
#![tactic(auto)]

pub mod laws;
