//! The frame of a program that reads all of standard input and writes one document to standard output.
//!
//! The program takes no command-line arguments. It reads standard input to its end, has a task make a reply from the
//! bytes, and writes the reply's text as the document `-`, or reports why there is no document. This crate defines
//! once, for every such program, what a run does and which exit status it has. A program adds its name and its task.
#![tactic(auto)]

pub mod input;
pub mod program;
pub mod task;

pub use program::{BAD_WORDS, run};
pub use task::{Replies, Reply};
