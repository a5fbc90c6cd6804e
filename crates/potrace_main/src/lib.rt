//! The run of `potrace`: all that the program does.
#![tactic(auto)]

pub mod demo;
mod job;
pub mod laws;
mod line;
pub mod top;
pub mod usage;

pub use top::run;
