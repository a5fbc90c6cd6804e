//! The run of `outline_check`: it checks whether the polygons of a drawing are the best ones.
//!
//! It reads a text of certificates and says whether all are right, or which is the first that isn't. If you believe
//! this check, you needn't trust the program that traced the page, or the machine on which it ran.
#![tactic(auto)]

pub mod program;
pub mod task;

pub use program::check_run;
