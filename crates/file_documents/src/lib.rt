//! The files of a run: reads their pages, writes a text of each under the names of their documents, and reports what
//! went wrong.
//!
//! A job decides which text belongs to a page; nothing else is known of it here. A run is a list of items: documents
//! to write and messages to report, in order. What a file adds to that list follows from its bytes, and from the
//! documents of the files before it, because names are numbered. `files` has the call that does all of this; what it
//! holds between two files is private.
#![tactic(auto)]

mod file;
pub mod files;
pub mod laws;
mod pages;
pub mod task;

pub use files::convert_files;
pub use task::Task;
