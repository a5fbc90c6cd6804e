//! What the command line of `potrace` asks for: made-up pages or files, and the settings to trace them under.
#![tactic(auto)]

pub mod ask;
pub mod asking;
mod numbers;
mod settings_given;
pub mod words;

pub use ask::{Ask, WordFault};
pub use words::settings_of;
