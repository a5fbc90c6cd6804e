//! The entries of a line.
ghost use Rattle.std.specs.Prelude.{ℕ, ◌≤◌, List, IfNone, IfSome, drop, length};

use crate::byte::read_byte;
use crate::number::read_number;
use crate::pair::read_pair;
use pt_core::Point;

/// A value, and the index at which its text ends.
#[derive(Drop)]
pub struct At<T> {
    pub value: T,
    pub end: usize,
}

/// A kind of entries. All entries of a line are of one kind.
pub trait Entries {
    ghost use Rattle.list_reader.specs.Inner.LineEntries.{IsEntry};
    ghost use Rattle.list_reader.specs.Inner.TextParts.{EndsBehind};

    type Value: Drop;

    /// The text of a value.
    ghost text_of: { Self.Value → List ℕ };

    /// The values that an entry may have.
    ghost IsIn: { Self → Self.Value → Type 0 };

    /// The bounds that this kind has to meet before it can read.
    ghost IsBounded: { Self → Type 0 };

    /// Reads a space and a value, starting at index `at`.
    fn read(&self, text: &[u8], at: usize) -> Option<At<Self::Value>>
        requires at { at ≤ length text.now }
        requires bounded { IsBounded self.now }
        ensures some { IfSome result (λ e. IsEntry text_of (IsIn self.now)
            (drop at text.now) e.value (drop e.end text.now)) }
        ensures ends { IfSome result (λ e. EndsBehind at text.now e.end) }
        ensures none { IfNone result ((x : Self.Value) (rest : List ℕ)
            → IsEntry text_of (IsIn self.now) (drop at text.now) x rest → ⊥) };
}

/// The points of a page with these sides, in pixels.
#[derive(Clone, Copy, Debug)]
pub struct PointsOf {
    pub width: u32,
    pub height: u32,
}

impl Entries for PointsOf {
    ghost use Rattle.pt_base.specs.PointsText.{point_text};
    ghost use Rattle.pt_core.specs.declared.limits.TheConstants.{LONGEST_SIDE};
    ghost use Rattle.list_reader.specs.PagePoints.{IsInPage};

    type Value = Point;

    ghost text_of = { point_text };

    ghost IsIn = { λ page. IsInPage page.width page.height };

    ghost IsBounded = { λ page. (page.width ≤ LONGEST_SIDE) × (page.height ≤ LONGEST_SIDE) };

    fn read(&self, text: &[u8], at: usize) -> Option<At<Point>> {
        let pair = read_pair(
            text,
            at,
            b',',
            u64::from(self.width),
            u64::from(self.height),
        )?;
        Some(At {
            value: Point {
                x: pair.first as i32,
                y: pair.second as i32,
            },
            end: pair.end,
        })
    }
}

/// Indices of points, of 32 bits.
#[derive(Clone, Copy, Debug)]
pub struct Indices;

impl Entries for Indices {
    ghost use Rattle.pt_base.specs.PolygonsText.{index_text};
    ghost use Rattle.list_reader.specs.PagePoints.{IsIndex};

    type Value = u32;

    ghost text_of = { index_text };

    ghost IsIn = { λ _. IsIndex };

    ghost IsBounded = { λ _. Unit {0} };

    fn read(&self, text: &[u8], at: usize) -> Option<At<u32>> {
        let spaced = read_byte(text, at, b' ')?;
        let number = read_number(text, spaced, u64::from(u32::MAX))?;
        Some(At {
            value: number.value as u32,
            end: number.end,
        })
    }
}
