//! Pages, walks, plain programs and runs in memory, from which the tests are made.
#![tactic(auto)]

pub mod gates;
pub mod pages;
pub mod plain;
pub mod plain_cones;
pub mod plain_page;
pub mod runs;
pub mod shapes;
pub mod walks;

pub use gates::HoldsFirst;
pub use pages::{checkered, drawn, noise, numbered};
pub use plain::is_possible;
pub use plain_cones::{next_corner, reaches};
pub use plain_page::PlainPage;
pub use runs::{first_of, listed, named, split};
pub use shapes::{Shape, shaped};
pub use walks::{draw, hooked_stairs, round, triangle};
