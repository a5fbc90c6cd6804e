//! Inputs that are cut off after every number of bytes, and pages with hostile headers.

use crate::tests::cases::{Case, PIXEL, PLAIN, check_all};
use page_samples::HoldsFirst;
use pt_core::NoMemory;

const LEFT: &str = "-b points -t 0";

const ONE: (&str, &str) = ("-", PIXEL);

const TALL: (&str, &str) = ("-", "points 1 2 1\n+ 1 0,2 0,1 1,1 1,2\n");

const WIDE: (&str, &str) = ("-", "points 2 1 1\n+ 1 0,1 0,0 1,0 1,1\n");

const UNKNOWN: &str = "potrace: -: page 1: unknown format\n";

const TRUNCATED: &str = "potrace: -: page 1: truncated\n";

const TRUNCATED_LATER: &str = "potrace: -: page 2: truncated\n";

const TRAILING: &str = "potrace: -: trailing bytes after page 1\n";

const TRAILING_LATER: &str = "potrace: -: trailing bytes after page 2\n";

/// A BMP of 1 by 2 pixels of 24 bits, from the top: black above white.
const PICTURE: &[u8] = b"BM\x3e\0\0\0\0\0\0\0\x36\0\0\0\
\x28\0\0\0\x01\0\0\0\xfe\xff\xff\xff\x01\0\x18\0\0\0\0\0\x08\0\0\0\0\0\0\0\0\0\0\0\0\0\0\0\0\0\0\0\
\0\0\0\0\xff\xff\xff\0";

const COMMENTS: &[u8] = b"P1 # c\n2 #d\n1\n1#x\n0";

const PAGES: &[u8] = b"P4 1 1\n\x80P4 1 1\n\x80xyz";

/// An input; from how many bytes on and up to how many it is kept; and then the documents, the status and the
/// message.
type Cut = (
    &'static [u8],
    usize,
    usize,
    &'static [(&'static str, &'static str)],
    u8,
    &'static str,
);

const CUTS: &[Cut] = &[
    (PICTURE, 0, 1, &[], 2, UNKNOWN),
    (PICTURE, 2, 61, &[], 2, TRUNCATED),
    (PICTURE, 62, 62, &[TALL], 0, ""),
    (COMMENTS, 0, 1, &[], 2, UNKNOWN),
    (COMMENTS, 2, 18, &[], 2, TRUNCATED),
    (COMMENTS, 19, 19, &[WIDE], 0, ""),
    (PAGES, 0, 1, &[], 2, UNKNOWN),
    (PAGES, 2, 7, &[], 2, TRUNCATED),
    (PAGES, 8, 8, &[ONE], 0, ""),
    (PAGES, 9, 9, &[ONE], 0, TRAILING),
    (PAGES, 10, 15, &[ONE], 2, TRUNCATED_LATER),
    (PAGES, 16, 16, &[ONE, ONE], 0, ""),
    (PAGES, 17, 19, &[ONE, ONE], 0, TRAILING_LATER),
];

#[test]
fn inputs_cut_after_each_byte(rt: HostRuntime) -> Result<(), NoMemory> {
    for (input, first, last, documents, status, said) in CUTS {
        for n in *first..=*last {
            Case {
                words: LEFT,
                input: input.get(..n).unwrap_or(input),
                status: *status,
                documents,
                said,
                ..PLAIN
            }
            .check(&rt, rt.alloc())?;
        }
    }
    Ok(())
}

/// The front of an input, the byte that follows and how often, and the input's end; and then the documents, the
/// status and the message.
type Long = (
    &'static [u8],
    u8,
    usize,
    &'static [u8],
    &'static [(&'static str, &'static str)],
    u8,
    &'static str,
);

const GAP_TOO_LONG: &str = "potrace: -: page 1: gap too long\n";

const SIDE_TOO_LARGE: &str = "potrace: -: page 1: side too large\n";

const LONG: &[Long] = &[
    // White rows.
    (
        b"P4 16384 1\n",
        0,
        2048,
        b"",
        &[("-", "points 16384 1 0\n")],
        0,
        "",
    ),
    (
        b"P4 32767 1\n",
        0,
        4096,
        b"",
        &[("-", "points 32767 1 0\n")],
        0,
        "",
    ),
    // Long numbers.
    (b"P1 1 ", b'9', 30, b"", &[], 2, SIDE_TOO_LARGE),
    (b"P1 ", b'1', 1_048_577, b"", &[], 2, GAP_TOO_LONG),
    (b"P1 ", b'1', 1_048_576, b"", &[], 2, TRUNCATED),
    // Long gaps.
    (b"P1", b' ', 1_048_576, b"1 1 1", &[ONE], 0, ""),
    (b"P1", b' ', 1_048_577, b"1 1 1", &[], 2, GAP_TOO_LONG),
];

#[test]
fn long_headers_and_white_rows(rt: HostRuntime) -> Result<(), NoMemory> {
    for (front, byte, times, back, documents, status, said) in LONG {
        let mut input = Vec::from_slice(rt.alloc(), front)?;
        input.extend_from_slice(&vec![in rt.alloc(); *byte; *times]?)?;
        input.extend_from_slice(back)?;
        let case = Case {
            words: LEFT,
            input: &input,
            ..PLAIN
        };
        let wanted = Case {
            words: LEFT,
            status: *status,
            documents,
            said,
            ..PLAIN
        };
        wanted.expect(&rt, &case.done(&rt, rt.alloc(), &HoldsFirst::open())?);
    }
    Ok(())
}

/// The picture with other bytes in some places of its header.
const PICTURES: &[Case] = &[
    // The file's size is beyond its end.
    Case {
        words: LEFT,
        input: b"BM\xff\xff\xff\xff\0\0\0\06\0\0\0\
(\0\0\0\x01\0\0\0\xfe\xff\xff\xff\x01\0\x18\0\0\0\0\0\x08\0\0\0\0\0\0\0\0\0\0\0\0\0\0\0\0\0\0\0\
\0\0\0\0\xff\xff\xff\0",
        documents: &[TALL],
        ..PLAIN
    },
    // The height is the least number of its kind.
    Case {
        words: LEFT,
        input: b"BM>\0\0\0\0\0\0\06\0\0\0\
(\0\0\0\x01\0\0\0\0\0\0\x80\x01\0\x18\0\0\0\0\0\x08\0\0\0\0\0\0\0\0\0\0\0\0\0\0\0\0\0\0\0\
\0\0\0\0\xff\xff\xff\0",
        status: 2,
        said: SIDE_TOO_LARGE,
        ..PLAIN
    },
    // The rows begin within the header, and then far beyond the file's end.
    Case {
        words: LEFT,
        input: b"BM>\0\0\0\0\0\0\0\0\0\0\0\
(\0\0\0\x01\0\0\0\xfe\xff\xff\xff\x01\0\x18\0\0\0\0\0\x08\0\0\0\0\0\0\0\0\0\0\0\0\0\0\0\0\0\0\0\
\0\0\0\0\xff\xff\xff\0",
        status: 2,
        said: "potrace: -: page 1: bad BMP offset\n",
        ..PLAIN
    },
    Case {
        words: LEFT,
        input: b"BM>\0\0\0\0\0\0\0\xff\xff\xff\xff\
(\0\0\0\x01\0\0\0\xfe\xff\xff\xff\x01\0\x18\0\0\0\0\0\x08\0\0\0\0\0\0\0\0\0\0\0\0\0\0\0\0\0\0\0\
\0\0\0\0\xff\xff\xff\0",
        status: 2,
        said: TRUNCATED,
        ..PLAIN
    },
    // Nothing stands behind the header, by which runs of pixels of 8 bits would be coded.
    Case {
        words: LEFT,
        input: b"BM>\0\0\0\0\0\0\06\0\0\0\
(\0\0\0\x01\0\0\0\xfe\xff\xff\xff\x01\0\x08\0\x01\0\0\0\x08\0\0\0\0\0\0\0\0\0\0\0\0\0\0\0\0\0\0\0",
        status: 2,
        said: "potrace: -: page 1: unsupported BMP kind\n",
        ..PLAIN
    },
    // A pixel has 8 bits, which tell 256 colours, and 257 colours are used.
    Case {
        words: LEFT,
        input: b"BM>\0\0\0\0\0\0\06\0\0\0\
(\0\0\0\x01\0\0\0\xfe\xff\xff\xff\x01\0\x08\0\0\0\0\0\x08\0\0\0\0\0\0\0\0\0\0\0\x01\x01\0\0\0\0\0\0\
\0\0\0\0\xff\xff\xff\0",
        status: 2,
        said: "potrace: -: page 1: unsupported BMP kind\n",
        ..PLAIN
    },
];

#[test]
fn pictures_with_hostile_headers(rt: HostRuntime) -> Result<(), NoMemory> {
    check_all(&rt, rt.alloc(), PICTURES)
}
