//! Parses the command-line arguments of `potrace`, by `clap`.
//!
//! The arguments come without the program's name. The result is a plain record of texts, flags and file names. Callers
//! of this crate see neither a command of `clap` nor one of its errors.
#![tactic(auto)]

mod command;
pub mod given;
pub mod parsed;

pub use given::Given;
pub use parsed::{Parsed, parse};
