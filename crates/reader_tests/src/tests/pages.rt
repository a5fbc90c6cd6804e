//! PBM pages, the texts of faults, and reads that fail.

use crate::tests::answers::tells_at;
use crate::tests::tables::{Cut, Failing, check_cuts, check_failing, check_files};
use bitmap_input::InFault;
use std::test::Fail;

/// Files, and the results of the reader.
const FILES: [(&[u8], &str); 15] = [
    (b"P1 1 1 1\n", "#/ end"),
    (b"P1 1 1 0", "./ end"),
    (b"P4\n9 2\n\x00\x7f\x80\x7f", "........./#......../ end"),
    (b" P1\t2 2\x0b1\x0c0 01P1 1 1 0", "#./.#/ ./ end"),
    (b"P1#c\r1 1 1", "#/ end"),
    (b"P4 1 1\n\x80P4 8 2\n\xff", "#/ truncated"),
    (b"P1 1 1 1 #", "#/ trailing"),
    (b"", "unknown format"),
    (b"P6 1 1 255\n", "truncated"),
    (b"P1 1 1 x", "bad raster"),
    (b"P4 1 1x\x80", "bad header"),
    (b"P4 32768 1\n", "side too large"),
    (b"P4 0 99999\n", "zero side"),
    (b"P1 2 1 12", "bad raster"),
    (b"P1 2 1 1", "truncated"),
];

#[test]
fn whole_files(rt: HostRuntime) -> Result<(), Fail> {
    check_files(&rt, rt.alloc(), &FILES)
}

const COMMENTS: &[u8] = b"P1 # c\n2 #d\n1\n1#x\n0";

const PAGES: &[u8] = b"P4 1 1\n\x80P4 1 1\n\x80xyz";

const CUTS: [Cut; 10] = [
    (COMMENTS, 0, 1, "unknown format"),
    (COMMENTS, 2, 18, "truncated"),
    (COMMENTS, 19, 19, "#./ end"),
    (PAGES, 0, 1, "unknown format"),
    (PAGES, 2, 7, "truncated"),
    (PAGES, 8, 8, "#/ end"),
    (PAGES, 9, 9, "#/ trailing"),
    (PAGES, 10, 15, "#/ truncated"),
    (PAGES, 16, 16, "#/ #/ end"),
    (PAGES, 17, 19, "#/ #/ trailing"),
];

#[test]
fn cut_files(rt: HostRuntime) -> Result<(), Fail> {
    check_cuts(&rt, rt.alloc(), &CUTS)
}

const TWO: &[u8] = b"P4 1 1\n\x80P1 1 1\n0";

// The first page is complete with its eighth byte, the second page with the sixteenth, and the seventeenth read
// finds the end.
const FAILING: [Failing; 4] = [
    (TWO, 1, 8, "read fault"),
    (TWO, 9, 16, "#/ read fault"),
    (TWO, 17, 17, "#/ ./ read fault"),
    (TWO, 18, 18, "#/ ./ end"),
];

#[test]
fn failing_reads(rt: HostRuntime) -> Result<(), Fail> {
    check_failing(&rt, rt.alloc(), &FAILING)
}

#[test]
fn long_gaps(rt: HostRuntime) -> Result<(), Fail> {
    for (n, text) in [(1048576usize, "#/ end"), (1048577, "gap too long")] {
        let mut bytes = Vec::from_slice(rt.alloc(), b"P1")?;
        bytes.resize(n.wrapping_add(2), b' ')?;
        bytes.extend_from_slice(b"1 1 1")?;
        let same = tells_at(rt.alloc(), &bytes, 500000, false, text)?;
        assert!(rt; same, "{n} blanks");
    }
    Ok(())
}

const FAULTS: [(InFault, &str); 11] = [
    (InFault::UnknownFormat, "unknown format"),
    (InFault::BadHeader, "bad header"),
    (InFault::ZeroSide, "zero side"),
    (InFault::TooLarge, "side too large"),
    (InFault::Truncated, "truncated"),
    (InFault::BadRaster, "bad raster"),
    (InFault::BmpKind, "unsupported BMP kind"),
    (InFault::BadOffset, "bad BMP offset"),
    (InFault::TooLong, "gap too long"),
    (InFault::ReadFault, "read fault"),
    (InFault::NoMemory, "out of memory"),
];

#[test]
fn fault_texts(rt: HostRuntime) -> Result<(), Fail> {
    for (fault, text) in FAULTS {
        assert_eq!(rt; format!(in rt.alloc(); "{fault}")?.as_str(), text);
    }
    Ok(())
}
