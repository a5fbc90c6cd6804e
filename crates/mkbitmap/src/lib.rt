//! Makes a gray page sharper and larger, as a bitmap, row by row.
//!
//! Each sample is compared with the mean of the box around it, so that slow changes of brightness across the page no
//! longer matter. The difference is the sample's relief. A pixel of the larger page lies between the centres of four
//! pixels. Their reliefs are mixed, and the pixel is black if the mixture is dark enough.
//!
//! ```text
//!     the page's rows --> sums of columns --> reliefs of two rows --> rows of the larger page
//! ```
//!
//! A box's sum is computed from the previous one by adding one column and subtracting another. So a pixel costs the
//! same for boxes of any size. No more rows are held than a box has.
#![tactic(auto)]

mod enlarge;
pub mod filter;
pub mod laws;
pub mod limits;
mod relief;
mod sums;

pub use filter::{Filter, limit};
pub use limits::{GREATEST_LEVEL, GREATEST_RADIUS, GREATEST_TIMES};
