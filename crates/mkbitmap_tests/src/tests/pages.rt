//! Pages that are filtered, and pages that are refused.

use crate::tests::cases::{Case, PLAIN, TWO, check_all};
use std::test::Fail;

/// Brightness that grows from left to right, and a thin dark line across the page.
const UNEVEN: &[u8] = b"P2 9 5 255\n\
40 60 80 100 120 140 160 180 200 40 60 80 100 120 140 160 180 200\n\
10 30 50 70 90 110 130 150 170 40 60 80 100 120 140 160 180 200\n\
40 60 80 100 120 140 160 180 200\n";

/// 64 bright pixels, and a dark one.
const ONE_DARK: &[u8] = b"P2 65 1 1 \
1 1 1 1 1 1 1 1 1 1 1 1 1 1 1 1 1 1 1 1 1 1 1 1 1 1 1 1 1 1 1 1 \
1 1 1 1 1 1 1 1 1 1 1 1 1 1 1 1 1 1 1 1 1 1 1 1 1 1 1 1 1 1 1 1 0\n";

/// Arguments, pages, and the expected results. A short program in another language computed the results by the
/// definition.
const FILTERED: &[(&str, &[u8], &[u8])] = &[
    ("--box 0 --times 2 --level 0.5", TWO, b"P4\n4 2\n\xc0\xc0"),
    ("--box 1 --times 1 --level 0.5", TWO, b"P4\n2 1\n\x80"),
    // With one level for the whole page the line can't be told apart from the dark side; with a box it can.
    (
        "--box 0 --times 1",
        UNEVEN,
        b"P4\n9 5\n\xf0\x00\xf0\x00\xfc\x00\xf0\x00\xf0\x00",
    ),
    (
        "--box 2 --times 1",
        UNEVEN,
        b"P4\n9 5\n\x00\x00\x00\x00\xff\x00\x00\x00\x00\x00",
    ),
    (
        "",
        UNEVEN,
        b"P4\n18 10\n\xf8\x00\x00\xf8\x00\x00\xf8\x00\x00\xfe\x00\x00\xff\xc0\x00\
\xff\xc0\x00\xfe\x00\x00\xf8\x00\x00\xf8\x00\x00\xf8\x00\x00",
    ),
    // The greatest box: the first pixel is bright compared with the dark one, which is 64 pixels away.
    (
        "--box 64 --times 1 --level 0.5",
        ONE_DARK,
        b"P4\n65 1\n\x00\x00\x00\x00\x00\x00\x00\x00\x80",
    ),
    // The greatest number of pixels of the result for one pixel.
    (
        "--box 0 --times 8",
        b"P5 1 1 1\n\x00",
        b"P4\n8 8\n\xff\xff\xff\xff\xff\xff\xff\xff",
    ),
    // Two bytes per sample, and three pixels of the result for one pixel.
    (
        "--box 1 --times 3",
        b"P5 3 2 1000\n\x00\x00\x03\xe8\x01\xf4\x03\xe7\x00\x00\x03\xe8",
        b"P4\n9 6\n\xe1\x80\xe1\x80\xe0\x00\x1c\x00\x1c\x00\x1c\x00",
    ),
    // One pixel, and the greatest samples. Samples above white are white.
    ("--box 4 --times 1", b"P2 1 1 1 0", b"P4\n1 1\n\x00"),
    ("--box 0 --times 1", b"P5 1 1 1\n\x00", b"P4\n1 1\n\x80"),
    (
        "--box 0 --times 1",
        b"P2 1 1 65535\n100001\n",
        b"P4\n1 1\n\x00",
    ),
    (
        "--box 0 --times 1 --level 1",
        b"P5 1 1 7\n\xff",
        b"P4\n1 1\n\x80",
    ),
    // What follows the page isn't read.
    (
        "--box 0 --times 1",
        b"P5 1 1 255\n\x00P5 x",
        b"P4\n1 1\n\x80",
    ),
];

#[test]
fn filtered(rt: HostRuntime) -> Result<(), Fail> {
    for (words, input, result) in FILTERED {
        Case {
            words,
            input,
            document: Some((result, true)),
            ..PLAIN
        }
        .check(&rt, rt.alloc())?;
    }
    Ok(())
}

/// A page of three rows. A row of the result needs the same row of the page and the next one.
const THREE: Case<'static> = Case {
    words: "--box 0 --times 1 --level 0.5",
    status: 2,
    ..PLAIN
};

const REFUSED: &[Case] = &[
    // The header is refused: there is no document.
    Case {
        input: b"P4\n1 1\n\x80",
        said: "mkbitmap: -: page 1: unknown format\n",
        ..THREE
    },
    Case {
        input: b"P1 1 1 1",
        said: "mkbitmap: -: page 1: unknown format\n",
        ..THREE
    },
    Case {
        input: b"BM",
        said: "mkbitmap: -: page 1: unknown format\n",
        ..THREE
    },
    Case {
        input: b"P5 1 0 255\n",
        said: "mkbitmap: -: page 1: zero side\n",
        ..THREE
    },
    Case {
        input: b"P5 1 1 0\n",
        said: "mkbitmap: -: page 1: bad header\n",
        ..THREE
    },
    Case {
        input: b"P5 1",
        said: "mkbitmap: -: page 1: truncated\n",
        ..THREE
    },
    // The result is too large: there is no document.
    Case {
        words: "--times 8",
        input: b"P5 4096 1 255\n",
        said: "mkbitmap: -: page 1: result too large\n",
        ..THREE
    },
    Case {
        words: "--times 2",
        input: b"P5 1 16384 255\n",
        said: "mkbitmap: -: page 1: result too large\n",
        ..THREE
    },
    Case {
        words: "--times 8",
        input: b"P5 4095 1 255\n",
        document: Some((b"P4\n32760 8\n", false)),
        said: "mkbitmap: -: page 1: truncated\n",
        ..THREE
    },
    // A row is refused: the document stays open.
    Case {
        input: b"P5 1 3 255\n\x00",
        document: Some((b"P4\n1 3\n", false)),
        said: "mkbitmap: -: page 1: truncated\n",
        ..THREE
    },
    Case {
        input: b"P5 1 3 255\n\x00\xff",
        document: Some((b"P4\n1 3\n\x80", false)),
        said: "mkbitmap: -: page 1: truncated\n",
        ..THREE
    },
    Case {
        input: b"P2 1 3 255\n0\n255",
        document: Some((b"P4\n1 3\n\x80", false)),
        said: "mkbitmap: -: page 1: truncated\n",
        ..THREE
    },
    Case {
        input: b"P2 1 3 255\n0\n255\nx",
        document: Some((b"P4\n1 3\n\x80", false)),
        said: "mkbitmap: -: page 1: bad raster\n",
        ..THREE
    },
    Case {
        words: "--box 1 --times 1 --level 0.5",
        input: b"P5 1 3 255\n\x00\xff",
        document: Some((b"P4\n1 3\n", false)),
        said: "mkbitmap: -: page 1: truncated\n",
        ..THREE
    },
    Case {
        words: "--box 0 --times 2 --level 0.5",
        input: b"P5 1 3 255\n\x00\xff",
        document: Some((b"P4\n2 6\n\xc0\xc0\x00", false)),
        said: "mkbitmap: -: page 1: truncated\n",
        ..THREE
    },
];

#[test]
fn refused(rt: HostRuntime) -> Result<(), Fail> {
    check_all(&rt, rt.alloc(), REFUSED)
}
