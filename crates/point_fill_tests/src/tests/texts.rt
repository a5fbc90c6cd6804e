//! Texts that are filled, and texts that are refused.

use crate::tests::cases::{Case, DIAGONAL, DIAGONAL_PAGE, PLAIN};
use std::test::Fail;

/// Texts and their pages.
const FILLED: &[(&[u8], &[u8])] = &[
    (DIAGONAL, DIAGONAL_PAGE),
    // One path that touches itself at a corner makes the same page.
    (
        b"points 2 2 1\n+ 2 0,2 0,1 1,1 1,0 2,0 2,1 1,1 1,2\n",
        DIAGONAL_PAGE,
    ),
    // A page without a path is white, and so is one with a loop that turns back.
    (b"points 1 1 0\n", b"P4\n1 1\n\x00"),
    (b"points 1 1 1\n+ 1 0,0 0,1 0,0 0,1\n", b"P4\n1 1\n\x00"),
    // Signs and areas aren't compared, not even the greatest area.
    (
        b"points 1 1 1\n- 18446744073709551615 0,1 0,0 1,0 1,1\n",
        b"P4\n1 1\n\x80",
    ),
    // A ring: its hole is inside two paths.
    (
        b"points 3 3 2\n+ 9 0,3 0,2 0,1 0,0 1,0 2,0 3,0 3,1 3,2 3,3 2,3 1,3\n- 1 1,2 2,2 2,1 1,1\n",
        b"P4\n3 3\n\xe0\xa0\xe0",
    ),
    // One path, given twice.
    (
        b"points 1 1 2\n+ 1 0,1 0,0 1,0 1,1\n+ 1 0,1 0,0 1,0 1,1\n",
        b"P4\n1 1\n\x00",
    ),
];

/// Texts that don't describe paths on a page.
const REFUSED: &[&[u8]] = &[
    b"",
    b"points 1 1 0",
    b"points 1 1 00\n",
    b"points 01 1 0\n",
    b"points 0 1 0\n",
    b"points 1 0 0\n",
    b"points 32768 1 0\n",
    b"points 1 1 4294967296\n",
    b"points 1 1 0\n\n",
    b"points  1 1 0\n",
    b"polygons 1 1 0\n",
    b"Points 1 1 0\n",
    // Three points, and a loop that isn't closed.
    b"points 1 1 1\n+ 1 0,1 0,0 1,0\n",
    b"points 2 1 1\n+ 1 0,0 1,0 2,0 2,1\n",
    // A step of two pixels, and a diagonal step.
    b"points 2 2 1\n+ 1 0,2 0,0 1,0 1,1\n",
    b"points 2 2 1\n+ 1 0,0 1,1 1,0 0,1\n",
    // A point that isn't on the page.
    b"points 1 1 1\n+ 1 1,1 1,0 2,0 2,1\n",
    b"points 1 1 1\n+ 1 -1,1 -1,0 0,0 0,1\n",
    b"points 1 1 1\n+ 18446744073709551616 0,1 0,0 1,0 1,1\n",
    b"points 1 1 1\n+ 1 0,1 0,0 1,00 1,1\n",
    b"points 1 1 1\n* 1 0,1 0,0 1,0 1,1\n",
    b"points 1 1 1\n+ 1 0,1 0,0 1,0 1,1",
    b"points 1 1 1\n+ 1 0,1 0,0 1,0 1,1 \n",
    b"points 1 1 2\n+ 1 0,1 0,0 1,0 1,1\n",
    b"points 1 1 0\n+ 1 0,1 0,0 1,0 1,1\n",
];

#[test]
fn filled(rt: HostRuntime) -> Result<(), Fail> {
    for (input, page) in FILLED {
        Case {
            input,
            document: Some((page, true)),
            ..PLAIN
        }
        .check(&rt, rt.alloc())?;
    }
    Ok(())
}

#[test]
fn refused(rt: HostRuntime) -> Result<(), Fail> {
    for input in REFUSED {
        Case {
            input,
            status: 2,
            said: "point_fill: -: bad points\n",
            ..PLAIN
        }
        .check(&rt, rt.alloc())?;
    }
    Ok(())
}

/// A row of 65 pixels takes two words, and a bar from the first to the second of them is black in both.
#[test]
fn wide(rt: HostRuntime) -> Result<(), Fail> {
    let alloc = rt.alloc();
    let mut text = format!(in alloc; "points 65 1 1\n+ 62")?;
    for x in 3..66 {
        text.push_str(&format!(in alloc; " {x},0")?)?;
    }
    for x in (3..66).rev() {
        text.push_str(&format!(in alloc; " {x},1")?)?;
    }
    text.push_str("\n")?;
    Case {
        input: text.as_bytes(),
        document: Some((b"P4\n65 1\n\x1f\xff\xff\xff\xff\xff\xff\xff\x80", true)),
        ..PLAIN
    }
    .check(&rt, alloc)
}
