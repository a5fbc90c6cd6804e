//! Several files: the names of their documents, and what ends a run.

use crate::tests::cases::{Case, PIXEL, PLAIN, WHITE, check_all};
use mem_outside::InCall;
use pt_core::NoMemory;

const NO_OUTLINE: &str = "<?xml version=\"1.0\" standalone=\"no\"?>\n\
<svg version=\"1.0\" xmlns=\"http://www.w3.org/2000/svg\" width=\"1pt\" height=\"1pt\" viewBox=\"0 0 10 10\">\n\
<g transform=\"translate(0,10) scale(1,-1)\" fill=\"#000000\" stroke=\"none\">\n\
</g>\n</svg>\n";

const TWO_PAGES: &[u8] = b"P1 1 1 1\nP1 1 1 0\n";

/// The words, with the name of a file at their end, the file's name, and its pages' documents.
const NAMES: &[(&str, &str, &[(&str, &str)])] = &[
    (
        "-b points -t 0 -o out.svg scan.pbm",
        "scan.pbm",
        &[("out.svg", PIXEL), ("out-2.svg", WHITE)],
    ),
    (
        "-b points -t 0 scan.pbm",
        "scan.pbm",
        &[("scan.points", PIXEL), ("scan-2.points", WHITE)],
    ),
    (
        "-b points -t 0 a.b/c",
        "a.b/c",
        &[("a.b/c.points", PIXEL), ("a.b/c-2.points", WHITE)],
    ),
    (
        "-b points -t 0 ..",
        "..",
        &[("..points", PIXEL), (".-2.points", WHITE)],
    ),
    (
        "-b points -t 0 -o .o x",
        "x",
        &[(".o", PIXEL), (".o-2", WHITE)],
    ),
    ("-b points -t 0 -o - x", "x", &[("-", PIXEL), ("-", WHITE)]),
];

#[test]
fn names_of_documents(rt: HostRuntime) -> Result<(), NoMemory> {
    for (words, name, documents) in NAMES {
        Case {
            words,
            name,
            input: TWO_PAGES,
            documents,
            ..PLAIN
        }
        .check(&rt, rt.alloc())?;
    }
    Ok(())
}

const RUNS: &[Case] = &[
    // Drawings, whose pixel is a speckle.
    Case {
        words: "-s -o out.svg scan.pbm",
        name: "scan.pbm",
        input: TWO_PAGES,
        documents: &[("out.svg", NO_OUTLINE), ("out-2.svg", NO_OUTLINE)],
        ..PLAIN
    },
    Case {
        words: "-s scan.pbm",
        name: "scan.pbm",
        input: TWO_PAGES,
        documents: &[("scan.svg", NO_OUTLINE), ("scan-2.svg", NO_OUTLINE)],
        ..PLAIN
    },
    // Documents that would have one name are numbered on.
    Case {
        words: "-b points -t 0 a.pbm a.pgm",
        name: "a.pbm",
        input: TWO_PAGES,
        other: Some(("a.pgm", b"P1 1 1 1\n")),
        documents: &[
            ("a.points", PIXEL),
            ("a-2.points", WHITE),
            ("a-3.points", PIXEL),
        ],
        ..PLAIN
    },
    // Files are taken in the words' order.
    Case {
        words: "-b points -t 0 b.pbm a.pbm",
        name: "a.pbm",
        input: b"P1 1 1 1\n",
        other: Some(("b.pbm", b"P1 1 1 0\nx")),
        documents: &[("b.points", WHITE), ("a.points", PIXEL)],
        said: "potrace: b.pbm: trailing bytes after page 1\n",
        ..PLAIN
    },
    // Batches go over the border of the files: of one worker the first one is a page of each file.
    Case {
        words: "-b points -t 0 b.pbm a.pbm",
        name: "b.pbm",
        input: b"P1 1 1 1\nxyz",
        other: Some(("a.pbm", b"P1 1 1 1\nP1 1 1 1\n")),
        documents: &[
            ("b.points", PIXEL),
            ("a.points", PIXEL),
            ("a-2.points", PIXEL),
        ],
        said: "potrace: b.pbm: trailing bytes after page 1\n",
        ..PLAIN
    },
    // A second file that isn't there, can't be opened, can't be read and is refused.
    Case {
        words: "-b points a.pbm b.pbm",
        name: "a.pbm",
        input: b"P1 1 1 1\n",
        status: 3,
        documents: &[("a.points", WHITE)],
        said: "potrace: b.pbm: cannot be opened\n",
        ..PLAIN
    },
    Case {
        words: "-b points -t 0 a.pbm b.pbm",
        name: "a.pbm",
        input: b"P1 1 1 1\n",
        other: Some(("b.pbm", b"P1 1 1 1\n")),
        unread: Some(InCall::Open(2)),
        status: 3,
        documents: &[("a.points", PIXEL)],
        said: "potrace: b.pbm: cannot be opened\n",
        ..PLAIN
    },
    Case {
        words: "-b points -t 0 a.pbm b.pbm",
        name: "a.pbm",
        input: b"P1 1 1 1\n",
        other: Some(("b.pbm", b"P1 1 1 1\n")),
        unread: Some(InCall::Read(3)),
        status: 3,
        documents: &[("a.points", PIXEL)],
        said: "potrace: b.pbm: page 1: read fault\n",
        ..PLAIN
    },
    Case {
        words: "-b points b.pbm a.pbm",
        name: "a.pbm",
        input: b"P1 1 1 1\n",
        other: Some(("b.pbm", b"P1 1 1 1\nP1 1 1 x")),
        status: 2,
        documents: &[("b.points", WHITE)],
        said: "potrace: b.pbm: page 2: bad raster\n",
        ..PLAIN
    },
    // Help and the version.
    Case {
        words: "-h",
        documents: &[(
            "-",
            "usage: potrace [options] [file...]\n\
options are those of the potrace manual page, see 01 section 9\n",
        )],
        ..PLAIN
    },
    Case {
        words: "-v",
        documents: &[("-", "potrace, integer profile 1\n")],
        ..PLAIN
    },
    Case {
        words: "-v -t x",
        documents: &[("-", "potrace, integer profile 1\n")],
        ..PLAIN
    },
    // Made-up pages.
    Case {
        words: "--demo 3",
        documents: &[(
            "-",
            "paths 42 segments 198 curves 197 bytes 6968\n\
paths 42 segments 208 curves 202 bytes 7067\n\
paths 36 segments 229 curves 217 bytes 7287\n",
        )],
        ..PLAIN
    },
];

#[test]
fn documents_of_files(rt: HostRuntime) -> Result<(), NoMemory> {
    check_all(&rt, rt.alloc(), RUNS)
}
