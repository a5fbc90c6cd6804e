//! Arguments that are refused, and devices that fail. Nothing more is written after a failure.

use crate::tests::cases::{Case, DIAGONAL_PAGE, PLAIN, check_all};
use mem_outside::{InCall, OutCall};
use std::test::Fail;

/// Reads and writes of three bytes.
const SHORT: Case<'static> = Case { most: 3, ..PLAIN };

const RUNS: &[Case] = &[
    Case {
        document: Some((DIAGONAL_PAGE, true)),
        ..SHORT
    },
    // The program takes no argument.
    Case {
        word: Some("-h"),
        status: 1,
        said: "point_fill: bad arguments\n",
        ..PLAIN
    },
    Case {
        word: Some(""),
        unread: Some(InCall::Open(1)),
        status: 1,
        said: "point_fill: bad arguments\n",
        ..PLAIN
    },
    // Standard input is missing, can't be opened, or fails later.
    Case {
        name: "a.points",
        status: 3,
        said: "point_fill: -: read fault\n",
        ..PLAIN
    },
    Case {
        unread: Some(InCall::Open(1)),
        status: 3,
        said: "point_fill: -: read fault\n",
        ..PLAIN
    },
    Case {
        unread: Some(InCall::Read(5)),
        status: 3,
        said: "point_fill: -: read fault\n",
        ..SHORT
    },
    // The read that would find the end of the text.
    Case {
        unread: Some(InCall::Read(2)),
        status: 3,
        said: "point_fill: -: read fault\n",
        ..PLAIN
    },
    // The document can't be begun, written or ended.
    Case {
        unwritten: Some(OutCall::Begin(1)),
        status: 4,
        said: "point_fill: -: write fault\n",
        ..PLAIN
    },
    Case {
        unwritten: Some(OutCall::Write(2)),
        status: 4,
        document: Some((b"P4\n", false)),
        said: "point_fill: -: write fault\n",
        ..SHORT
    },
    Case {
        unwritten: Some(OutCall::End(1)),
        status: 4,
        document: Some((DIAGONAL_PAGE, false)),
        said: "point_fill: -: write fault\n",
        ..PLAIN
    },
    // A failing message doesn't change the status, and the rest of it is dropped.
    Case {
        input: b"points",
        unsaid: Some(2),
        status: 2,
        said: "poi",
        ..SHORT
    },
];

#[test]
fn failing_devices(rt: HostRuntime) -> Result<(), Fail> {
    check_all(&rt, rt.alloc(), RUNS)
}
