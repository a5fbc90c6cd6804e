//! What no clause says: the real adapters, texts, and that calls that allocate succeed.

mod levels;
mod lists;
mod memory;
mod numbers;
mod real;
mod words;
