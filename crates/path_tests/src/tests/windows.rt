//! Windows that were found by hand.

use crate::tests::table::{Listed, Table};
use least_walk::{Window, windows};
use std::test::Fail;

/// A case, the size, the steps, and each window.
const CASES: &[(&str, u32, &[Listed], &[(u32, u32)])] = &[
    ("size one", 1, &[], &[(0, 0), (1, 1)]),
    ("steps of one", 2, &[], &[(0, 0), (1, 1), (2, 2)]),
    (
        "steps of two",
        3,
        &[(0, 2, 1), (1, 3, 1)],
        &[(0, 0), (1, 2), (3, 3)],
    ),
    (
        "two ways",
        6,
        &[(0, 4, 1), (1, 6, 1), (4, 6, 1)],
        &[(0, 0), (1, 4), (6, 6)],
    ),
    // From index 3 two steps are left.
    (
        "too far",
        5,
        &[(0, 2, 1), (0, 3, 1), (2, 5, 1)],
        &[(0, 0), (2, 2), (5, 5)],
    ),
];

#[test]
fn windows_of_tables(rt: HostRuntime) -> Result<(), Fail> {
    for &(case, size, listed, wanted) in CASES {
        assert!(rt; 1 <= size && size <= 6);
        let found = windows(rt.alloc(), &Table::new(size, listed))?;
        assert!(rt; are_ends(&found, wanted), "{case}");
    }
    Ok(())
}

/// Whether the windows have these ends.
fn are_ends(windows: &[Window], ends: &[(u32, u32)]) -> bool {
    let mut same = windows.len() == ends.len();
    for (window, (least, greatest)) in windows.iter().zip(ends) {
        same = same && window.least == *least && window.greatest == *greatest;
    }
    same
}
