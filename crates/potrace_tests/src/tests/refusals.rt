//! What is refused: pages, and words.

use crate::tests::cases::{Case, PLAIN};
use pt_core::NoMemory;

const LEFT: &str = "-b points -z left -t 0";

const BAD_WORDS: &str = "potrace: bad arguments, see potrace -h\n";

/// Words, standard input, the status and the message.
const REFUSALS: &[(&str, &[u8], u8, &str)] = &[
    (LEFT, b"", 2, "potrace: -: page 1: unknown format\n"),
    (LEFT, b"P5 1 1 0\n", 2, "potrace: -: page 1: bad header\n"),
    (LEFT, b"P2 1 1 255x", 2, "potrace: -: page 1: bad raster\n"),
    (LEFT, b"P6 1 1 255\n", 2, "potrace: -: page 1: truncated\n"),
    (
        LEFT,
        b"P3 1 1 255 0 0",
        2,
        "potrace: -: page 1: truncated\n",
    ),
    (
        LEFT,
        b"P3 1 1 255 0 0 x",
        2,
        "potrace: -: page 1: bad raster\n",
    ),
    (LEFT, b"P7\n", 2, "potrace: -: page 1: unknown format\n"),
    (
        LEFT,
        b"P4 32768 1\n",
        2,
        "potrace: -: page 1: side too large\n",
    ),
    (LEFT, b"P4 16385 1\n", 2, "potrace: -: page 1: truncated\n"),
    (LEFT, b"P4 0 99999\n", 2, "potrace: -: page 1: zero side\n"),
    (LEFT, b"P1 2 1 12", 2, "potrace: -: page 1: bad raster\n"),
    (LEFT, b"P1 1 1 x", 2, "potrace: -: page 1: bad raster\n"),
    (LEFT, b"P1 2 1 1", 2, "potrace: -: page 1: truncated\n"),
    (LEFT, b"P1 1 x 1", 2, "potrace: -: page 1: bad header\n"),
    ("-s -e", b"P1 1 1 1", 1, BAD_WORDS),
    ("-z random", b"P1 1 1 1", 1, BAD_WORDS),
    ("-k 1.5", b"P1 1 1 1", 1, BAD_WORDS),
    ("-b pdf", b"P1 1 1 1", 1, BAD_WORDS),
    ("--workers 0", b"P1 1 1 1", 1, BAD_WORDS),
    ("--demo 65", b"P1 1 1 1", 1, BAD_WORDS),
    ("--demo 1 x.pbm", b"P1 1 1 1", 1, BAD_WORDS),
    ("-t", b"P1 1 1 1", 1, BAD_WORDS),
    ("- -", b"P1 1 1 1", 1, BAD_WORDS),
];

#[test]
fn refusals(rt: HostRuntime) -> Result<(), NoMemory> {
    for (words, input, status, said) in REFUSALS {
        Case {
            words,
            input,
            status: *status,
            said,
            ..PLAIN
        }
        .check(&rt, rt.alloc())?;
    }
    Ok(())
}
