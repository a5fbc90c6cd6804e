//! Tests of outlines and their texts: vertices, corners and curves, joined curves, shapes with their holes, and the
//! documents that draw them.
#![tactic(auto)]

#[cfg(test)]
mod tests;
