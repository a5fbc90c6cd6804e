//! Tests of the page reader: whole files, and what a person reads in them.
#![tactic(auto)]

#[cfg(test)]
mod tests;
