//! Sums over the points before one, as much of them as their differences need.
ghost use Rattle.std.specs.Prelude.{◌≡◌, ◌+◌, ◌-◌, ◌*◌, ◌%◌, ◌<◌, ◌≤◌, ◌^◌, ℕ, pos, unsigned_abs};
ghost use Rattle.pt_core.specs.OnPage.{IsOnPage};
ghost use Rattle.prefix_moments.specs.Inner.Table.{no_prefix, both_of, less_of};

use crate::raw::RawSums;
use pt_core::{LONGEST_SIDE, Point};

/// The sums of some points' coordinates modulo 2^32, and of their squares and products modulo 2^64.
#[derive(Clone, Copy, Debug)]
pub(crate) struct Prefix {
    x: u32,
    y: u32,
    xx: u64,
    xy: u64,
    yy: u64,
}

impl Prefix {
    /// The sums of no points.
    pub(crate) fn none() -> Prefix
        ensures { result ≡ no_prefix }
    {
        Prefix {
            x: 0,
            y: 0,
            xx: 0,
            xy: 0,
            yy: 0,
        }
    }

    /// The sums with one more point.
    pub(crate) fn with(self, at: Point) -> Prefix
        requires { IsOnPage at }
        ensures x { result.x ≡ (self.x + unsigned_abs at.x) % 2 ^ 32 }
        ensures y { result.y ≡ (self.y + unsigned_abs at.y) % 2 ^ 32 }
        ensures xx { result.xx ≡ (self.xx + unsigned_abs at.x * unsigned_abs at.x) % 2 ^ 64 }
        ensures xy { result.xy ≡ (self.xy + unsigned_abs at.x * unsigned_abs at.y) % 2 ^ 64 }
        ensures yy { result.yy ≡ (self.yy + unsigned_abs at.y * unsigned_abs at.y) % 2 ^ 64 }
    {
        let x = at.x as u32;
        let y = at.y as u32;
        Prefix {
            x: self.x.wrapping_add(x),
            y: self.y.wrapping_add(y),
            xx: self.xx.wrapping_add(product(x, x)),
            xy: self.xy.wrapping_add(product(x, y)),
            yy: self.yy.wrapping_add(product(y, y)),
        }
    }

    /// The sums of these points and of more.
    pub(crate) fn plus(self, more: Prefix) -> Prefix
        ensures { result ≡ both_of self more }
    {
        Prefix {
            x: self.x.wrapping_add(more.x),
            y: self.y.wrapping_add(more.y),
            xx: self.xx.wrapping_add(more.xx),
            xy: self.xy.wrapping_add(more.xy),
            yy: self.yy.wrapping_add(more.yy),
        }
    }

    /// The sums of these points without the first of them.
    pub(crate) fn minus(self, first: Prefix) -> Prefix
        ensures { result ≡ less_of self first }
    {
        Prefix {
            x: self.x.wrapping_sub(first.x),
            y: self.y.wrapping_sub(first.y),
            xx: self.xx.wrapping_sub(first.xx),
            xy: self.xy.wrapping_sub(first.xy),
            yy: self.yy.wrapping_sub(first.yy),
        }
    }

    /// The same sums, where they are small.
    pub(crate) fn raw(self) -> RawSums
        ensures x { result.x ≡ pos self.x }
        ensures y { result.y ≡ pos self.y }
        ensures xx { self.xx < 2 ^ 63 → result.xx ≡ pos self.xx }
        ensures xy { self.xy < 2 ^ 63 → result.xy ≡ pos self.xy }
        ensures yy { self.yy < 2 ^ 63 → result.yy ≡ pos self.yy }
    {
        RawSums {
            x: i64::from(self.x),
            y: i64::from(self.y),
            xx: self.xx.cast_signed(),
            xy: self.xy.cast_signed(),
            yy: self.yy.cast_signed(),
        }
    }
}

/// The product of two coordinates.
fn product(a: u32, b: u32) -> u64
    requires a { a ≤ LONGEST_SIDE }
    requires b { b ≤ LONGEST_SIDE }
    ensures { result ≡ a * b }
{
    u64::from(a * b)
}
