//! Numbers as people write them, and roots.

use pt_base::{BadDecimal, read_micro, read_whole};
use pt_core::{isqrt, quotient_root};

#[test]
fn decimals_in_millionths(rt: HostRuntime) {
    let table = [
        ("0.2", Ok(200_000)),
        (".5", Ok(500_000)),
        ("5.", Ok(5_000_000)),
        ("1.000001", Ok(1_000_001)),
        ("000000000001.334", Ok(1_334_000)),
        ("1000", Ok(1_000_000_000)),
        ("1000.000001", Err(BadDecimal)),
        ("1.0000001", Err(BadDecimal)),
        ("0000000000001.334", Err(BadDecimal)),
        (".", Err(BadDecimal)),
        ("", Err(BadDecimal)),
        ("1.2.3", Err(BadDecimal)),
        ("-1", Err(BadDecimal)),
    ];
    for (text, value) in table {
        assert_eq!(rt; read_micro(text), value, "{text}");
    }
}

#[test]
fn whole_numbers(rt: HostRuntime) {
    let table = [
        ("0", Ok(0)),
        ("007", Ok(7)),
        ("1000000000", Ok(1_000_000_000)),
        ("1000000001", Err(BadDecimal)),
        ("00000000001", Err(BadDecimal)),
        ("", Err(BadDecimal)),
        ("+1", Err(BadDecimal)),
        ("1x", Err(BadDecimal)),
    ];
    for (text, number) in table {
        assert_eq!(rt; read_whole(text, 0, 1_000_000_000), number, "{text:?}");
    }
}

#[test]
fn roots(rt: HostRuntime) {
    let table = [
        (0, 0),
        (1, 1),
        (3, 1),
        (4, 2),
        (21845, 147),
        (21904, 148),
        (18446744065119617024, 4294967294),
        (18446744065119617025, 4294967295),
        (18446744073709551615, 4294967295),
        (18446744073709551616, 4294967296),
        (18446744082299486208, 4294967296),
        (18446744082299486209, 4294967297),
        (u128::MAX, u64::MAX),
    ];
    for (n, root) in table {
        assert_eq!(rt; isqrt(n), root, "{n}");
    }
}

// A guess is farthest off at these quotients. If it were too far off, the test would take longer than it may.
#[test]
fn roots_of_quotients(rt: HostRuntime) {
    let roots = (
        quotient_root(0, 864_691_128_455_135_232),
        quotient_root(1, 864_691_128_455_135_232),
        quotient_root(2, 1),
        quotient_root(3_458_764_513_820_540_927, 864_691_128_455_135_232),
        quotient_root(3_458_764_513_820_540_928, 864_691_128_455_135_232),
    );
    assert_eq!(rt; roots, (0, 0, 92_681, 131_071, 131_072));
}
