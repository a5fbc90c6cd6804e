//! Cones of half-lines that come near points of a closed walk, and strips that hold what is straight from a point on.
//!
//! Both belong to one point of the walk, and to the steps that it takes from there. A cone has the half-lines from the point
//! that come within 1 of each point so far: the walk goes on straight, seen from there, as long as the next point lies in it.
//! A strip lies between two parallel lines, as far apart as a line drawn in pixels is broad. What is straight from the point
//! on stays in it, and mostly the point before does too.
//!
//! ```text
//!             . '   ___|           a cone, seen from the lower left end of the path
//!         . '  ____|   . '
//!     . ' ____|    . '
//!     ___|     . '
//!
//!     - - - - -_______- - - -      a strip along a row, and a path that stays in it
//!     ________|- - - -|______
//! ```
//!
//! The walk's points are numbered on into a second lap, so that no number wraps round.
#![tactic(auto)]

pub mod cone;
mod corners;
mod division;
pub mod first;
mod funnel;
mod landing;
pub mod laps;
pub mod quarter;
mod slopes;
pub mod strip;
mod swing;
pub mod tail;
pub mod track;
pub mod trial;
pub mod vector;

pub use cone::Cone;
pub use first::{Scan, clear_steps};
pub use laps::point_of_lap;
pub use quarter::Quarter;
pub use strip::{Lane, Span, Strip};
pub use tail::{Ahead, NextOnward, Tail};
pub use track::Track;
pub use trial::strip_from;
pub use vector::Vector;
