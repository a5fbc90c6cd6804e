//! Pseudo-random lines and points.

use super::plain::moved;
use pt_core::Point;
use vertex_adjust::Line;

/// Pseudo-random numbers, the same ones in each run (xorshift).
#[derive(Drop)]
pub(super) struct Lot {
    state: u64,
}

impl Lot {
    pub(super) fn new() -> Lot {
        Lot {
            state: 88_172_645_463_325_252,
        }
    }

    fn next(&mut self) -> u64 {
        self.state ^= self.state << 13;
        self.state ^= self.state >> 7;
        self.state ^= self.state << 17;
        self.state
    }

    /// A number from `-most` to `most`.
    fn within(&mut self, most: u32) -> i64 {
        let span = 2 * u64::from(most) + 1;
        (self.next() % span) as i64 - i64::from(most)
    }

    /// A coordinate from 0 to `most`.
    fn coordinate(&mut self, most: u16) -> i32 {
        (self.next() % (u64::from(most) + 1)) as i32
    }

    /// A point with coordinates from 0 to `most`.
    pub(super) fn point(&mut self, most: u16) -> Point {
        let x = self.coordinate(most);
        let y = self.coordinate(most);
        Point { x, y }
    }

    /// A line with numbers of at most `normal` in its normal, and a centre within `spread` of `v`.
    pub(super) fn line(&mut self, v: Point, normal: u32, spread: u32) -> Line {
        let nx = self.within(normal);
        let ny = self.within(normal);
        let cx = moved(v.x, 0).wrapping_add(self.within(spread));
        let cy = moved(v.y, 0).wrapping_add(self.within(spread));
        Line { nx, ny, cx, cy }
    }
}
