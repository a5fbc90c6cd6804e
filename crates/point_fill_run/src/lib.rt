//! The run of `point_fill`: it reads a points text from standard input and writes its page to standard output.
#![tactic(auto)]

pub mod program;

pub use program::fill_run;
