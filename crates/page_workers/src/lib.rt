//! Pages that several workers trace, each drawing the next one when it is done.
//!
//! The pages of a batch are numbered, and a counter holds the next number. Each worker has a seat,
//! with which it draws a number by one atomic step, makes the text of that page, and draws again,
//! until the counter has run past the pages. However the workers' steps fall between one another,
//! each page is drawn once; so what comes out is what one worker alone would make.
//!
//! ```text
//!     counter   0  1  2  3  4  5          drawn, one step after another
//!     seat A    0     2  3     5          5 and 4 are past the four pages 0 to 3
//!     seat B       1        4
//! ```
#![tactic(auto)]

pub mod claims;
mod hand;
pub mod job;
pub mod laws;
mod place;
pub mod seat;
mod share;
pub mod trace;
pub mod worker;

pub use claims::Claims;
pub use job::{Done, PageJob};
pub use seat::ClaimSeat;
pub use trace::trace_all;
pub use worker::work;
