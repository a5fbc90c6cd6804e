//! Makes the pages of the demo from a number alone.
//!
//! A generator starts from the number of pages. Each page is made from its next numbers: 40 rectangles and then 4
//! slanted bars. Each rectangle and each bar inverts its pixels.
//!
//! ```text
//!                                                                # #
//!                    # # # #                                 # # # #
//!     a rectangle    # # # #        part of a bar of run 2   # # # #
//!                    # # # #                                 # #
//! ```
#![tactic(auto)]

mod bar;
pub mod generator;
pub mod page;
mod rectangle;

pub use generator::Generator;
pub use page::{BARS, RECTANGLES, next_pages};
