//! Tests of gray pages that are filtered, and of whole runs of `mkbitmap` over files in memory.
#![tactic(auto)]

#[cfg(test)]
mod tests;
