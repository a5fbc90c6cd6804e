//! The sums over a half that a bound is worked out from.

/// The sums of the squares and of the products of some points' offsets from one point.
#[derive(Clone, Copy)]
pub(crate) struct Products {
    /// Of the offsets to the right.
    pub(crate) xx: i64,
    /// Of these and those upwards.
    pub(crate) xy: i64,
    pub(crate) yy: i64,
}
