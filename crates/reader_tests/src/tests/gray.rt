//! Gray pages, levels and inversion.
use crate::tests::answers::{tells, tells_at};
use crate::tests::tables::{Failing, check_failing, check_files};
use std::test::Fail;

/// The results for a picture of two rows, `#.#` above `.#.`.
const CHECKERS: &str = "#.#/.#./ end";

const PICTURES: [&[u8]; 7] = [
    b"P1 3 2 101 010",
    b"P2 3 2 1 0 1 0 1 0 1",
    b"P2 3 2 255 0 255 0 255 0 255",
    b"P2#gray\n3 2\n65535 # white\n0 65535 #\n000 65535\r0\x0b65535\n",
    b"P5 3 2 1\n\x00\x01\x00\x01\x00\x01",
    b"P5\n3 2 # white\n255\t\x00\xff\x00\xff\x00\xff",
    b"P5 3 2 65535\n\x00\x00\xff\xff\x00\x00\xff\xff\x00\x00\xff\xff",
];

#[test]
fn one_picture_in_each_format(rt: HostRuntime) -> Result<(), Fail> {
    for bytes in PICTURES {
        let same = tells(rt.alloc(), bytes, CHECKERS)?;
        assert!(rt; same, "{bytes:?}");
    }
    Ok(())
}

/// A page, the level in millionths, and the results.
const SAMPLES: [(&[u8], u32, &str); 13] = [
    (b"P5\n2 1\n65535\n\x7f\xff\x80\x00", 500000, "#./ end"),
    (b"P2 2 1 65535 32767 32768", 500000, "#./ end"),
    (b"P5 2 1 255\n\x7f\x80", 500000, "#./ end"),
    (b"P5 2 1 256\n\x00\x80\x00\x81", 500000, "#./ end"),
    (b"P5 2 1 256\n\x01\x00\x00\x01", 500000, ".#/ end"),
    (b"P2 3 1 4 1 2 3", 500000, "##./ end"),
    (b"P2 3 1 4 0 1 4", 0, "#../ end"),
    (b"P2 3 1 4 0 3 4", 1000000, "###/ end"),
    (b"P2 3 1 1000000 1", 500000, "bad header"),
    // A sample greater than white is read as it is.
    (b"P5 2 1 10\n\x0a\x0b", 1000000, "#./ end"),
    (b"P5 1 1 300\n\xff\xff", 1000000, "./ end"),
    (b"P2 2 1 10 11 10", 1000000, ".#/ end"),
    (
        b"P2 2 1 65535 4294967296 18446744073709551616",
        1000000,
        "../ end",
    ),
];

#[test]
fn samples_at_the_level(rt: HostRuntime) -> Result<(), Fail> {
    for (bytes, micro, text) in SAMPLES {
        let same = tells_at(rt.alloc(), bytes, micro, false, text)?;
        assert!(rt; same, "{bytes:?} at {micro}");
    }
    Ok(())
}

/// A page, and the results if pixels are inverted.
const INVERTED: [(&[u8], &str); 6] = [
    (b"P1 1 1 0\n", "#/ end"),
    (b"P1 3 1 010", "#.#/ end"),
    (b"P4\n9 2\n\x00\x7f\x80\x7f", "#########/.########/ end"),
    (b"P4\n16 1\n\xff\x0f", "........####..../ end"),
    (b"P2 3 1 4 1 2 3", "..#/ end"),
    (b"P5 2 1 65535\n\x7f\xff\x80\x00", ".#/ end"),
];

#[test]
fn inverted_pages(rt: HostRuntime) -> Result<(), Fail> {
    for (bytes, text) in INVERTED {
        let same = tells_at(rt.alloc(), bytes, 500000, true, text)?;
        assert!(rt; same, "{bytes:?}");
    }
    Ok(())
}

/// A page, and why it is refused.
const REFUSED: [(&[u8], &str); 22] = [
    (b"P5 1 1 0\n", "bad header"),
    (b"P2 1 1 65536 0", "bad header"),
    (b"P5 1 1 255x", "bad header"),
    (b"P5 1 1 255#\n\x00", "bad header"),
    (b"P5 1 1 x", "bad header"),
    (b"P5 1 1", "truncated"),
    (b"P5 1 1 ", "truncated"),
    (b"P5 1 1 255", "truncated"),
    (b"P5 1 1 255 ", "truncated"),
    (b"P5 2 1 255\n\x00", "truncated"),
    (b"P5 1 1 256\n\x00", "truncated"),
    (b"P5 0 32768 0\n", "zero side"),
    (b"P2 32768 1 0\n", "side too large"),
    (b"P2 1 1 255x", "bad raster"),
    (b"P2 1 1 255 x", "bad raster"),
    (b"P2 2 1 255 0x", "bad raster"),
    (b"P2 2 1 255 0,0", "bad raster"),
    (b"P2 1 1 255", "truncated"),
    (b"P2 1 1 255 ", "truncated"),
    (b"P2 2 1 255 0", "truncated"),
    (b"P2 2 1 255 0 #0", "truncated"),
    (b"P2 1 1 255 0x", "#/ trailing"),
];

#[test]
fn refused_gray_pages(rt: HostRuntime) -> Result<(), Fail> {
    check_files(&rt, rt.alloc(), &REFUSED)
}

// The last sample of a plain page ends with the byte after it, or with the end of the file. The last sample of
// a raw page ends with its own last byte.
const FAILING: [Failing; 6] = [
    (b"P2 1 1 255 0", 12, 12, "read fault"),
    (b"P2 1 1 255 0", 13, 13, "read fault"),
    (b"P2 1 1 255 0", 14, 14, "#/ end"),
    (b"P2 1 1 255 0\n", 14, 14, "#/ read fault"),
    (b"P5 1 1 255 \x00", 12, 12, "read fault"),
    (b"P5 1 1 255 \x00", 13, 13, "#/ read fault"),
];

#[test]
fn failing_reads_of_gray_pages(rt: HostRuntime) -> Result<(), Fail> {
    check_failing(&rt, rt.alloc(), &FAILING)
}

#[test]
fn long_samples(rt: HostRuntime) -> Result<(), Fail> {
    for (n, text) in [(1048576usize, "#/ end"), (1048577, "gap too long")] {
        let mut bytes = Vec::from_slice(rt.alloc(), b"P2 1 1 9 ")?;
        bytes.resize(n.wrapping_add(9), b'0')?;
        let same = tells_at(rt.alloc(), &bytes, 500000, false, text)?;
        assert!(rt; same, "{n} digits");
    }
    Ok(())
}
