//! The greatest size of boxes, and how much larger a page can be made.

/// The greatest radius of a box: how many pixels it reaches from the pixel in its centre.
pub const GREATEST_RADIUS: usize = 64;

/// The greatest number of pixels of the result for one pixel of the page, along a side.
pub const GREATEST_TIMES: u32 = 8;

/// The greatest level, in millionths of white.
pub const GREATEST_LEVEL: u32 = 1_000_000;

/// The greatest sample that can mean white.
pub(crate) const GREATEST_MAXVAL: u32 = 65_535;

/// The greatest number of rows and columns of a box.
pub(crate) const LONGEST_BOX: u32 = 2 * GREATEST_RADIUS as u32 + 1;

/// The greatest number of pixels of a box.
pub(crate) const LARGEST_BOX: u32 = LONGEST_BOX * LONGEST_BOX;

/// The greatest sum of a column's samples over the rows of a box.
pub(crate) const GREATEST_SUM: u32 = LONGEST_BOX * GREATEST_MAXVAL;

/// The greatest raised relief of a sample.
pub(crate) const GREATEST_RELIEF: u32 = 512 * GREATEST_MAXVAL;
