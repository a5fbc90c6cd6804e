//! What the command line of `mkbitmap` asks for: a description of its use, or a page to be filtered.
#![tactic(auto)]

pub mod ask;
mod command;
pub mod laws;
pub mod setup;

pub use ask::{AskFault, FilterAsk, filter_ask_of};
pub use setup::Setup;
