//! Tests of the foundation: decimal numbers and list texts, the outside, pages and levels.
#![tactic(auto)]

#[cfg(test)]
mod tests;
