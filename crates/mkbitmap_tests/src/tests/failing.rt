//! Devices that fail. Nothing more is written after a failure.

use crate::tests::cases::{Case, PLAIN, TWO_TWICE, check_all};
use mem_outside::{InCall, OutCall};
use std::test::Fail;

/// Reads and writes of three bytes.
const SHORT: Case<'static> = Case { most: 3, ..PLAIN };

/// A page of three rows that is read byte by byte. Its header has 11 bytes.
const BYTES: Case<'static> = Case {
    words: "--box 0 --times 1 --level 0.5",
    input: b"P5 1 3 255\n\x00\xff\x00",
    most: 1,
    ..PLAIN
};

const RUNS: &[Case] = &[
    Case {
        document: Some((TWO_TWICE, true)),
        ..SHORT
    },
    Case {
        document: Some((b"P4\n1 3\n\x80\x00\x80", true)),
        ..BYTES
    },
    // Standard input is missing, or can't be opened.
    Case {
        name: "a.pgm",
        status: 3,
        said: "mkbitmap: -: cannot be opened\n",
        ..PLAIN
    },
    Case {
        unread: Some(InCall::Open(1)),
        status: 3,
        said: "mkbitmap: -: cannot be opened\n",
        ..PLAIN
    },
    // A read fails in the header, in the first row, and in the last row.
    Case {
        unread: Some(InCall::Read(11)),
        status: 3,
        said: "mkbitmap: -: page 1: read fault\n",
        ..BYTES
    },
    Case {
        unread: Some(InCall::Read(12)),
        status: 3,
        document: Some((b"P4\n1 3\n", false)),
        said: "mkbitmap: -: page 1: read fault\n",
        ..BYTES
    },
    Case {
        unread: Some(InCall::Read(14)),
        status: 3,
        document: Some((b"P4\n1 3\n\x80", false)),
        said: "mkbitmap: -: page 1: read fault\n",
        ..BYTES
    },
    // Nothing is read after a raw page.
    Case {
        unread: Some(InCall::Read(15)),
        document: Some((b"P4\n1 3\n\x80\x00\x80", true)),
        ..BYTES
    },
    // The last number of a plain page could continue, and the read that would find out fails.
    Case {
        words: "--box 0 --times 1 --level 0.5",
        input: b"P2 1 2 9 0 9",
        unread: Some(InCall::Read(2)),
        status: 3,
        document: Some((b"P4\n1 2\n", false)),
        said: "mkbitmap: -: page 1: read fault\n",
        ..PLAIN
    },
    // The document can't be begun, written or ended.
    Case {
        unwritten: Some(OutCall::Begin(1)),
        status: 4,
        said: "mkbitmap: -: write fault\n",
        ..PLAIN
    },
    Case {
        unwritten: Some(OutCall::Write(2)),
        status: 4,
        document: Some((b"P4\n", false)),
        said: "mkbitmap: -: write fault\n",
        ..SHORT
    },
    Case {
        unwritten: Some(OutCall::Write(3)),
        status: 4,
        document: Some((b"P4\n4 2\n\xc0", false)),
        said: "mkbitmap: -: write fault\n",
        ..PLAIN
    },
    Case {
        unwritten: Some(OutCall::End(1)),
        status: 4,
        document: Some((TWO_TWICE, false)),
        said: "mkbitmap: -: write fault\n",
        ..PLAIN
    },
    // The fault comes before the refusal of later rows, which aren't read then.
    Case {
        input: b"P5 1 3 255\n\x00\xff",
        unwritten: Some(OutCall::Write(8)),
        status: 4,
        document: Some((b"P4\n1 3\n", false)),
        said: "mkbitmap: -: write fault\n",
        ..BYTES
    },
    Case {
        words: "-h",
        unwritten: Some(OutCall::Write(2)),
        status: 4,
        document: Some((b"usa", false)),
        said: "mkbitmap: -: write fault\n",
        ..SHORT
    },
    // A failing message doesn't change the status, and the rest of it is dropped.
    Case {
        input: b"P1",
        unsaid: Some(2),
        status: 2,
        said: "mkb",
        ..SHORT
    },
];

#[test]
fn failing_devices(rt: HostRuntime) -> Result<(), Fail> {
    check_all(&rt, rt.alloc(), RUNS)
}
