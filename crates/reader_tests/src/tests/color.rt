//! Pages of colours, with three samples per pixel.
use crate::tests::answers::{tells, tells_at};
use crate::tests::tables::{Cut, Failing, check_cuts, check_failing, check_files};
use std::test::Fail;

/// The results for a picture of two rows, `#.#` above `.#.`.
const CHECKERS: &str = "#.#/.#./ end";

const PICTURES: [&[u8]; 6] = [
    b"P3 3 2 1 0 0 0 1 1 1 0 0 0 1 1 1 0 0 0 1 1 1",
    b"P3 3 2 255 255 0 0 255 0 255 0 255 0 0 255 255 0 0 255 255 255 0",
    b"P3#color\n3 2\n9 # white\n9 0 0 #\n000 9\r09\x0b0 0 9 9 9 9 0 0 3 09 9 0",
    b"P6 3 2 1\n\x01\x00\x00\x01\x01\x00\x00\x01\x00\x00\x01\x01\x00\x00\x01\x01\x00\x01",
    b"P6\n3 2 # white\n255\t\x00\xff\x00\xff\x00\xff\xff\x00\x00\xff\xff\xff\x00\x00\x00\x00\xff\xff",
    b"P6 3 2 256\n\x00\xff\x00\x00\x00\x00\x01\x00\x01\x00\x00\x00\x00\x00\x01\x00\x00\x00\x00\xff\x00\xff\x00\x00\x00\x80\x00\x80\x00\x80\x00\x81\x00\x80\x00\x80",
];

#[test]
fn one_picture_of_colors(rt: HostRuntime) -> Result<(), Fail> {
    for bytes in PICTURES {
        let same = tells(rt.alloc(), bytes, CHECKERS)?;
        assert!(rt; same, "{bytes:?}");
    }
    Ok(())
}

/// A page, the level in millionths, and the results.
const SAMPLES: [(&[u8], u32, &str); 18] = [
    // A red pixel, and one of green and blue.
    (b"P3 2 1 255 255 0 0 0 255 255\n", 500000, "#./ end"),
    (b"P6 2 1 255\n\xff\x00\x00\x00\xff\xff", 500000, "#./ end"),
    (b"P6 2 1 255\n\xff\x00\x00\x00\xff\xff", 333333, "../ end"),
    (b"P6 2 1 255\n\xff\x00\x00\x00\xff\xff", 333334, "#./ end"),
    (b"P6 2 1 255\n\xff\x00\x00\x00\xff\xff", 666667, "##/ end"),
    // Sums of 98303 and 98302, on both sides of half of three times 65535.
    (b"P6 1 1 65535\n\x80\x00\x80\x00\x7f\xff", 500000, "./ end"),
    (b"P6 1 1 65535\n\x80\x00\x7f\xff\x7f\xff", 500000, "#/ end"),
    (
        b"P3 2 1 65535 32768 32768 32767 32768 32767 32767",
        500000,
        ".#/ end",
    ),
    // In a sample of two bytes the most significant byte comes first.
    (
        b"P6 2 1 256\n\x01\x00\x00\x80\x00\x00\x00\x01\x01\x00\x80\x00",
        500000,
        "#./ end",
    ),
    (b"P3 3 1 4 2 2 2 2 2 3 0 0 4", 500000, "#.#/ end"),
    (b"P3 2 1 4 0 0 0 0 1 0", 0, "#./ end"),
    (b"P3 2 1 4 4 4 4 0 0 4", 1000000, "##/ end"),
    (b"P3 1 1 70000 1 1 1", 500000, "bad header"),
    // A sample greater than white isn't cut off, and its pixel may be black.
    (b"P6 2 1 2\n\x03\x00\x00\x00\x04\x00", 500000, "#./ end"),
    (b"P3 2 1 2 0 3 0 4 0 0", 500000, "#./ end"),
    (
        b"P3 3 1 65535 196605 0 0 0 196606 0 1 0 196605",
        1000000,
        "#../ end",
    ),
    (
        b"P3 2 1 65535 100000 96605 0 96606 0 100000",
        1000000,
        "#./ end",
    ),
    (
        b"P3 3 1 65535 0 0 1073741825 4294967296 0 0 0 18446744073709551616 0",
        1000000,
        ".../ end",
    ),
];

#[test]
fn color_samples_at_the_level(rt: HostRuntime) -> Result<(), Fail> {
    for (bytes, micro, text) in SAMPLES {
        let same = tells_at(rt.alloc(), bytes, micro, false, text)?;
        assert!(rt; same, "{bytes:?} at {micro}");
    }
    Ok(())
}

/// A page, and the results if pixels are inverted.
const INVERTED: [(&[u8], &str); 4] = [
    (b"P3 2 1 255 255 0 0 0 255 255\n", ".#/ end"),
    (b"P6 2 1 255\n\xff\x00\x00\x00\xff\xff", ".#/ end"),
    (b"P6 1 1 65535\n\x80\x00\x80\x00\x7f\xff", "#/ end"),
    (b"P3 1 1 255 0 4294967296 0", "#/ end"),
];

#[test]
fn inverted_pages_of_colors(rt: HostRuntime) -> Result<(), Fail> {
    for (bytes, text) in INVERTED {
        let same = tells_at(rt.alloc(), bytes, 500000, true, text)?;
        assert!(rt; same, "{bytes:?}");
    }
    Ok(())
}

/// A file, and the results.
const FILES: [(&[u8], &str); 22] = [
    (b"P3 1 1 255 0 0", "truncated"),
    (b"P3 1 1 255 0 0 ", "truncated"),
    (b"P3 1 1 255 0 0 x", "bad raster"),
    (b"P3 1 1 255 0 0x", "bad raster"),
    (b"P3 1 1 255 0,0,0", "bad raster"),
    (b"P3 1 1 255x", "bad raster"),
    (b"P3 1 1 255", "truncated"),
    (b"P3 1 1 255 0 0 #0", "truncated"),
    (b"P3 1 1 255 0 0 0x", "#/ trailing"),
    (b"P3 1 1 65536 0 0 0", "bad header"),
    (b"P3 0 65536 0\n", "zero side"),
    (b"P6 1 1 0\n", "bad header"),
    (b"P6 1 1 255x", "bad header"),
    (b"P6 1 1 255#\n\x00", "bad header"),
    (b"P6 1 1", "truncated"),
    (b"P6 1 1 255\n", "truncated"),
    (b"P6 1 1 255\n\x00\x00", "truncated"),
    (b"P6 1 1 256\n\x00\x00\x00\x00\x00", "truncated"),
    (b"P6 1 1 255\n\x00\x00\x00\x00", "#/ trailing"),
    // A page of bits, and then one of colours.
    (b"P4 1 1\n\x80P6 1 1 255\n\xff\xff\xff", "#/ ./ end"),
    (
        b"P6 1 1 255\n\x00\x00\x00P3 1 1 9 9 9 9P1 1 1 1",
        "#/ ./ #/ end",
    ),
    (b"P7\n", "unknown format"),
];

#[test]
fn files_of_colors(rt: HostRuntime) -> Result<(), Fail> {
    check_files(&rt, rt.alloc(), &FILES)
}

const PLAIN: &[u8] = b"P3 2 1 #c\n9 0 0\t13 9 9 9\n";

const RAW: &[u8] = b"P6 2 1 9\n\x00\x00\x0d\x09\x09\x09";

// The last sample of a plain page ends with the byte after it, or with the end of the file. The last sample of
// a raw page ends with its own last byte.
const CUTS: [Cut; 6] = [
    (PLAIN, 0, 1, "unknown format"),
    (PLAIN, 2, 23, "truncated"),
    (PLAIN, 24, 25, "#./ end"),
    (RAW, 0, 1, "unknown format"),
    (RAW, 2, 14, "truncated"),
    (RAW, 15, 15, "#./ end"),
];

#[test]
fn cut_pages_of_colors(rt: HostRuntime) -> Result<(), Fail> {
    check_cuts(&rt, rt.alloc(), &CUTS)
}

const FAILING: [Failing; 6] = [
    (PLAIN, 1, 25, "read fault"),
    (PLAIN, 26, 26, "#./ read fault"),
    (PLAIN, 27, 27, "#./ end"),
    (RAW, 1, 15, "read fault"),
    (RAW, 16, 16, "#./ read fault"),
    (RAW, 17, 17, "#./ end"),
];

#[test]
fn failing_reads_of_colors(rt: HostRuntime) -> Result<(), Fail> {
    check_failing(&rt, rt.alloc(), &FAILING)
}
