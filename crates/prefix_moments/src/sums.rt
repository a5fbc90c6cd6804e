//! The sums of a segment.

/// The number of a segment's points, and the sums of their offsets from its first point.
#[derive(Clone, Copy, Debug, PartialEq, Eq)]
pub struct Sums {
    pub count: u32,
    /// The offsets to the right.
    pub x: i64,
    /// The offsets upwards.
    pub y: i64,
    pub xx: i64,
    pub xy: i64,
    pub yy: i64,
}
