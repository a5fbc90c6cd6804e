//! Writes a page's outlines as Encapsulated PostScript.
//!
//! A path begins at the end of its last piece. Lines (`rlineto`) are relative to the point before, and curves
//! (`rcurveto`) relative to their own start. A shape and its holes are filled together.
//!
//! ```text
//! 40 80 moveto
//! -40 0 rlineto
//! ..
//! closepath
//! eofill
//! ```
#![tactic(auto)]

pub mod eps_text;
mod pen;

pub use eps_text::{eps, ps_body};
