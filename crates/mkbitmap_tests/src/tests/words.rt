//! Arguments that are refused, and the request for help.

use crate::tests::cases::{Case, PLAIN, TWO_TWICE};
use std::test::Fail;

/// Arguments that the program doesn't accept.
const REFUSED: &[&str] = &[
    "--box 65",
    "--box -1",
    "--box +1",
    "--box",
    "--box 1 --box 1",
    "--times 0",
    "--times 9",
    "--times 2.0",
    "--level 1.000001",
    "--level -0.5",
    "--level 0.1234567",
    "--level .",
    "-b 4",
    "page.pgm",
    "-",
];

/// Arguments that are accepted and all mean the same.
const TAKEN: &[&str] = &[
    "--box 0 --level .5",
    "--box 000 --times 02 --level 00.500",
    "--level=0.5 --box=0",
    "--level 0.50 --times 2 --box 0",
];

#[test]
fn refused(rt: HostRuntime) -> Result<(), Fail> {
    for words in REFUSED {
        Case {
            words,
            status: 1,
            said: "mkbitmap: bad arguments, see mkbitmap -h\n",
            ..PLAIN
        }
        .check(&rt, rt.alloc())?;
    }
    Ok(())
}

#[test]
fn help(rt: HostRuntime) -> Result<(), Fail> {
    for words in ["-h", "--help", "--box 4 -h"] {
        Case {
            words,
            name: "no input",
            document: Some((b"usage: mkbitmap [--box R] [--times N] [--level D]\n", true)),
            ..PLAIN
        }
        .check(&rt, rt.alloc())?;
    }
    Ok(())
}

#[test]
fn taken(rt: HostRuntime) -> Result<(), Fail> {
    for words in TAKEN {
        Case {
            words,
            document: Some((TWO_TWICE, true)),
            ..PLAIN
        }
        .check(&rt, rt.alloc())?;
    }
    Ok(())
}
