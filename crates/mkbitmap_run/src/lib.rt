//! The run of `mkbitmap`: it reads a gray page from standard input and writes it, sharper and larger, to standard
//! output as a bitmap.
//!
//! The page is read row by row. A row of the result is written as soon as the rows that it depends on were read:
//!
//! ```text
//!     standard input --> reader --> filter --> standard output
//! ```
#![tactic(auto)]

mod fault;
pub mod laws;
mod page;
pub mod program;
mod say;
mod work;

pub use program::mk_run;
pub use say::{BAD_WORDS, NAME};
