//! Turns and majorities at the corners of small pages.
ghost use Rattle.turn_policies.specs.PixelCorner.{IsCorner};

use page_samples::drawn;
use pt_core::{Point, Policy, Sign};
use std::test::Fail;
use turn_policies::{Dir, major, turn};

/// A corner of the widest page.
fn corner(x: i32, y: i32) -> Point
    ensures { IsCorner result }
{
    Point {
        x: x.max(0).min(32767),
        y: y.max(0).min(32767),
    }
}

/// A corner, the heading with which a path arrives there, the turn policy, the sign of the path, and the heading with
/// which it leaves.
const TURNS: &[(i32, i32, Dir, Policy, Sign, Dir)] = &[
    // A corner at which two black pixels meet.
    (1, 1, Dir::East, Policy::Left, Sign::Plus, Dir::North),
    (1, 1, Dir::East, Policy::Right, Sign::Plus, Dir::South),
    (1, 1, Dir::East, Policy::Black, Sign::Plus, Dir::South),
    (1, 1, Dir::East, Policy::Black, Sign::Minus, Dir::North),
    (1, 1, Dir::East, Policy::White, Sign::Plus, Dir::North),
    (1, 1, Dir::East, Policy::White, Sign::Minus, Dir::South),
    (1, 1, Dir::East, Policy::Majority, Sign::Plus, Dir::North),
    (1, 1, Dir::East, Policy::Minority, Sign::Minus, Dir::South),
    // At the edge of the page and beyond.
    (0, 2, Dir::West, Policy::Minority, Sign::Plus, Dir::South),
    (0, 1, Dir::South, Policy::Minority, Sign::Plus, Dir::East),
    (2, 0, Dir::East, Policy::Minority, Sign::Plus, Dir::North),
    (2, 1, Dir::North, Policy::Minority, Sign::Plus, Dir::West),
    (
        32767,
        32767,
        Dir::North,
        Policy::Minority,
        Sign::Plus,
        Dir::West,
    ),
];

#[test]
fn turns_on_a_small_page(rt: HostRuntime) -> Result<(), Fail> {
    let page = drawn(rt.alloc(), &["#.", ".#"])?;
    for &(x, y, from, policy, sign, to) in TURNS {
        let found = turn(&page, corner(x, y), from, policy, sign);
        assert_eq!(rt; found, to, "at {x}, {y}: {policy:?}, {sign:?}");
    }
    Ok(())
}

const QUARTERS: [&str; 8] = [
    "####....", "####....", "####....", "####....", "....####", "....####", "....####", "....####",
];

// At the centre of four quarters all rings tie. Around the centre of one quarter black has the majority, and at a
// corner of the page white has it.
const MAJORITIES: &[(i32, i32, bool)] = &[
    (4, 4, false),
    (6, 2, true),
    (2, 6, true),
    (2, 2, false),
    (8, 8, false),
    (0, 8, false),
    (12, 4, false),
    (32767, 32767, false),
];

#[test]
fn majorities_of_quarters(rt: HostRuntime) -> Result<(), Fail> {
    let page = drawn(rt.alloc(), &QUARTERS)?;
    for &(x, y, black) in MAJORITIES {
        assert_eq!(rt; major(&page, corner(x, y)), black, "at {x}, {y}");
    }
    Ok(())
}
