//! One picture in all formats, and a whole scan.

use crate::tests::cases::{Case, PLAIN, Page, check_pages};
use page_samples::HoldsFirst;
use pt_core::NoMemory;
use std::alloc::Global;

/// Of two by two pixels, the upper left one and the lower right one are black.
const SQUARES: &str = "points 2 2 2\n+ 1 0,2 0,1 1,1 1,2\n+ 1 1,1 1,0 2,0 2,1\n";

const SQUARES_ALONE: &[(&str, &str)] = &[("-", SQUARES)];

const LEFT: &str = "-b points -z left -t 0";

const NETPBM: &[Page] = &[
    (LEFT, b"P1 2 2 10 01\n", SQUARES_ALONE),
    (LEFT, b"P4\n2 2\n\x80\x40", SQUARES_ALONE),
    (LEFT, b"P2 2 2 1 0 1 1 0", SQUARES_ALONE),
    (LEFT, b"P2 2 2 255 0 255 255 0", SQUARES_ALONE),
    (LEFT, b"P2 2 2 65535 0 65535 65535 0", SQUARES_ALONE),
    (LEFT, b"P5 2 2 1\n\x00\x01\x01\x00", SQUARES_ALONE),
    (LEFT, b"P5 2 2 255\n\x00\xff\xff\x00", SQUARES_ALONE),
    (
        LEFT,
        b"P5 2 2 65535\n\x00\x00\xff\xff\xff\xff\x00\x00",
        SQUARES_ALONE,
    ),
    // Red, green and blue, each a third of white, and what they leave of it.
    (LEFT, b"P3 2 2 9 9 0 0 0 9 9 9 0 9 0 0 9", SQUARES_ALONE),
    (
        LEFT,
        b"P6 2 2 255\n\xff\x00\x00\x00\xff\xff\xff\x00\xff\x00\x00\xff",
        SQUARES_ALONE,
    ),
    (
        LEFT,
        b"P6 2 2 256\n\x01\0\0\0\0\0\0\0\x01\0\x01\0\x01\0\0\0\x01\0\0\0\0\0\x01\0",
        SQUARES_ALONE,
    ),
];

#[test]
fn netpbm(rt: HostRuntime) -> Result<(), NoMemory> {
    check_pages(&rt, rt.alloc(), NETPBM)
}

/// The bits of a pixel, and the upper and the lower row, where black is the first colour.
const ROWS: &[(u8, &[u8], &[u8])] = &[
    (1, b"\x40\0\0\0", b"\x80\0\0\0"),
    (4, b"\x01\0\0\0", b"\x10\0\0\0"),
    (8, b"\0\x01\0\0", b"\x01\0\0\0"),
    (24, b"\0\0\0\xff\xff\xff\0\0", b"\xff\xff\xff\0\0\0\0\0"),
    (32, b"\0\0\0\0\xff\xff\xff\0", b"\xff\xff\xff\0\0\0\0\0"),
];

/// The sizes of the header, and whether the upper row is the first one, which the oldest header can't say.
const HEADERS: &[(u8, bool)] = &[
    (12, false),
    (40, false),
    (40, true),
    (52, false),
    (52, true),
    (56, false),
    (56, true),
    (108, false),
    (108, true),
    (124, false),
    (124, true),
];

#[test]
fn bmp(rt: HostRuntime) -> Result<(), NoMemory> {
    for (header, top_down) in HEADERS {
        for (bits, upper, lower) in ROWS {
            let input = drawn(rt.alloc(), *header, *bits, *top_down, upper, lower)?;
            Case {
                words: LEFT,
                input: &input,
                documents: SQUARES_ALONE,
                ..PLAIN
            }
            .check(&rt, rt.alloc())?;
        }
    }
    Ok(())
}

/// A picture of two by two pixels.
fn drawn(
    alloc: Global,
    header: u8,
    bits: u8,
    top_down: bool,
    upper: &[u8],
    lower: &[u8],
) -> Result<Vec<u8>, NoMemory> {
    let palette = colors(alloc, header, bits)?;
    let before = 14 + u16::from(header) + (palette.len() % 2000) as u16;
    let [low, high] = before.to_le_bytes();
    let mut out = Vec::from_slice(
        alloc,
        &[b'B', b'M', 0, 0, 0, 0, 0, 0, 0, 0, low, high, 0, 0],
    )?;
    if header == 12 {
        out.extend_from_slice(&[12, 0, 0, 0, 2, 0, 2, 0, 1, 0, bits, 0])?;
    } else {
        // The height, 2 or -2.
        let (least, most) = if top_down { (254, 255) } else { (2, 0) };
        out.extend_from_slice(&[
            header, 0, 0, 0, 2, 0, 0, 0, least, most, most, most, 1, 0, bits, 0,
        ])?;
        out.resize(14 + header as usize, 0)?;
    }
    out.extend_from_slice(&palette)?;
    if top_down {
        out.extend_from_slice(upper)?;
    }
    out.extend_from_slice(lower)?;
    if !top_down {
        out.extend_from_slice(upper)?;
    }
    Ok(out)
}

/// All colours that pixels of so many bits can name: black, white, and then black.
fn colors(alloc: Global, header: u8, bits: u8) -> Result<Vec<u8>, NoMemory> {
    let count = match bits {
        1 => 2,
        4 => 16,
        8 => 256,
        _ => 0,
    };
    let mut out = Vec::new(alloc);
    for color in 0..count {
        let light = if color == 1 { 255 } else { 0 };
        out.extend_from_slice(&[light; 3])?;
        if header > 12 {
            out.push(0)?;
        }
    }
    Ok(out)
}

/// A black page as a program for scans writes it.
fn black_scan(alloc: Global) -> Result<Vec<u8>, NoMemory> {
    let head = b"P4\n# CREATOR: GIMP PNM Filter Version 1.1\n2480 3508\n";
    let mut scan = Vec::from_slice(alloc, head)?;
    scan.extend_from_slice(&vec![in alloc; 255u8; 1_087_480]?)?;
    Ok(scan)
}

const POLYGON: &[(&str, &str)] = &[(
    "-",
    "polygons 2480 3508 1\n+ 8699840 11976 4 0: 0 3508 5988 9496\n",
)];

const DRAWING: &[(&str, &str)] = &[(
    "letter.eps",
    "%!PS-Adobe-3.0 EPSF-3.0\n%%BoundingBox: 0 0 2480 3508\n%%EndComments\ngsave\n1 10 div dup scale\n\
12400 35080 moveto\n-12400 0 rlineto\n0 -17540 rlineto\n0 -17540 rlineto\n12400 0 rlineto\n12400 0 rlineto\n\
0 17540 rlineto\n0 17540 rlineto\n-12400 0 rlineto\nclosepath\neofill\ngrestore\n%%EOF\n",
)];

/// Words, the file's name, and the document.
const SCANS: &[(&str, &str, &[(&str, &str)])] = &[
    ("-b polygons", "-", POLYGON),
    ("-b polygons --workers 1", "-", POLYGON),
    ("-b polygons --workers 2", "-", POLYGON),
    ("-b polygons --workers 7", "-", POLYGON),
    ("-b polygons --workers 64", "-", POLYGON),
    ("letter.pbm", "letter.pbm", DRAWING),
    ("--workers 1 letter.pbm", "letter.pbm", DRAWING),
    ("--workers 2 letter.pbm", "letter.pbm", DRAWING),
    ("--workers 7 letter.pbm", "letter.pbm", DRAWING),
    ("--workers 64 letter.pbm", "letter.pbm", DRAWING),
];

#[test]
fn a_black_scan(rt: HostRuntime) -> Result<(), NoMemory> {
    let scan = black_scan(rt.alloc())?;
    for (words, name, documents) in SCANS {
        let wanted = Case {
            words,
            documents,
            ..PLAIN
        };
        let case = Case {
            words,
            name,
            input: &scan,
            ..PLAIN
        };
        wanted.expect(&rt, &case.done(&rt, rt.alloc(), &HoldsFirst::open())?);
    }
    Ok(())
}
