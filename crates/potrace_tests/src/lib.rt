//! Tests of whole pages and whole runs, over files and documents in memory.
#![tactic(auto)]

#[cfg(test)]
mod tests;
