//! Tests of points texts that are filled, and of whole runs of `point_fill` over files in memory.
#![tactic(auto)]

#[cfg(test)]
mod tests;
