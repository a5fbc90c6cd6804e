//! Writes a page's outlines as Scalable Vector Graphics.
//!
//! A path begins at the end of its last piece. Lines (`l`) are relative to the point before, and curves (`c`) relative
//! to their own start.
//!
//! ```text
//! <path fill-rule="evenodd" d="M5 10 c-3 0 -5 -2 -5 -5 c0 -3 2 -5 5 -5 .. z"/>
//! ```
#![tactic(auto)]

mod pen;
pub mod svg_text;

pub use svg_text::svg;
