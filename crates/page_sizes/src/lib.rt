//! How large a page's document can be: laws on the numbers of its points, pieces and bytes.
#![tactic(auto)]

pub mod laws;
