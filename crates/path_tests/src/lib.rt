//! Tests of paths and polygons: turns, decompositions, possible segments, penalties, least walks.
#![tactic(auto)]

#[cfg(test)]
mod tests;
