//! Least walks that were found by hand.

use crate::tests::chain::Chain;
use crate::tests::table::{Listed, Table};
use least_walk::least;
use std::test::Fail;

/// A case, the size, the steps, the least walk, and its cost.
const CASES: &[(&str, u32, &[Listed], &[u32], u128)] = &[
    ("size one", 1, &[], &[0], 0),
    ("size one, at a price", 1, &[(0, 1, 7)], &[0], 7),
    ("size two", 2, &[], &[0, 1], 0),
    (
        "fewer steps at any cost",
        2,
        &[(0, 1, 1), (1, 2, 1), (0, 2, 900)],
        &[0],
        900,
    ),
    (
        "cheaper, and not lower",
        3,
        &[(0, 1, 3), (1, 3, 3), (0, 2, 4), (2, 3, 1)],
        &[0, 2],
        5,
    ),
    (
        "as cheap, and lower",
        3,
        &[(0, 1, 1), (1, 3, 4), (0, 2, 4), (2, 3, 1)],
        &[0, 1],
        5,
    ),
    (
        "as cheap, and later lower",
        5,
        &[(0, 2, 9), (2, 4, 2), (4, 5, 2), (2, 3, 2), (3, 5, 2)],
        &[0, 2, 3],
        13,
    ),
    (
        "not by the farthest step",
        5,
        &[(0, 3, 0), (0, 2, 0), (2, 5, 0)],
        &[0, 2],
        0,
    ),
    ("past a gap", 4, &[(0, 2, 1), (0, 4, 5)], &[0], 5),
];

#[test]
fn fewest_then_cheapest_then_lowest(rt: HostRuntime) -> Result<(), Fail> {
    for &(case, size, listed, at, cost) in CASES {
        assert!(rt; 1 <= size && size <= 5);
        let walk = least(rt.alloc(), &Table::new(size, listed))?;
        assert_eq!(rt; (walk.at.as_slice(), walk.cost), (at, cost), "{case}");
    }
    Ok(())
}

/// The size of a chain, and the cost of all its steps.
const CHAINS: &[(u32, u128)] = &[
    (1, 72_057_594_037_927_935),
    (2, 144_115_188_075_855_870),
    (100_000, 7_205_759_403_792_793_500_000),
];

#[test]
fn a_chain_has_one_walk(rt: HostRuntime) -> Result<(), Fail> {
    for &(size, cost) in CHAINS {
        assert!(rt; 1 <= size && size <= 100_000);
        let walk = least(rt.alloc(), &Chain::new(size))?;
        assert_eq!(rt; (walk.count, walk.cost), (size, cost), "of {size}");
    }
    Ok(())
}
