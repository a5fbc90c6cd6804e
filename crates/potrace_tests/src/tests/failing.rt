//! Failing devices: what was whole stays, and nothing more is written after.

use crate::tests::cases::{Case, PIXEL, PLAIN, check_all};
use mem_outside::{InCall, OutCall};
use pt_core::NoMemory;

/// A stream of two pages and what is no page, by reads that end with the first page.
const STREAM: Case<'static> = Case {
    words: "-b points -z left -t 0",
    input: b"P1 1 1 1\nP1 1 1 1\nxyz",
    most_read: 9,
    ..PLAIN
};

/// A file of two pages, over writes of 16 bytes.
const FILE: Case<'static> = Case {
    words: "-b points -t 0 a.pbm",
    name: "a.pbm",
    input: b"P1 1 1 1\nP1 1 1 1\n",
    most_written: 16,
    ..PLAIN
};

const RUNS: &[Case] = &[
    // The first page is at hand when the read behind it fails.
    Case {
        unread: Some(InCall::Open(1)),
        status: 3,
        said: "potrace: -: cannot be opened\n",
        ..STREAM
    },
    Case {
        unread: Some(InCall::Read(1)),
        status: 3,
        said: "potrace: -: page 1: read fault\n",
        ..STREAM
    },
    Case {
        unread: Some(InCall::Read(2)),
        status: 3,
        documents: &[("-", PIXEL)],
        said: "potrace: -: page 2: read fault\n",
        ..STREAM
    },
    // Nothing is said of a later place.
    Case {
        unwritten: Some(OutCall::Begin(2)),
        status: 4,
        documents: &[("-", PIXEL)],
        said: "potrace: -: write fault\n",
        ..STREAM
    },
    Case {
        unwritten: Some(OutCall::Write(2)),
        status: 4,
        documents: &[("-", PIXEL), ("-", "")],
        cut_off: true,
        said: "potrace: -: write fault\n",
        ..STREAM
    },
    Case {
        unwritten: Some(OutCall::End(2)),
        status: 4,
        documents: &[("-", PIXEL), ("-", PIXEL)],
        cut_off: true,
        said: "potrace: -: write fault\n",
        ..STREAM
    },
    // A document is cut off.
    Case {
        words: "-b points -z left -t 0",
        input: b"P1 3 3 111 101 111\n",
        most_written: 16,
        unwritten: Some(OutCall::Write(3)),
        status: 4,
        documents: &[("-", "points 3 3 2\n+ 9 0,3 0,2 0,1 0,0")],
        cut_off: true,
        said: "potrace: -: write fault\n",
        ..PLAIN
    },
    Case {
        words: "-",
        input: b"P4 8 8\n\xff\xff\xff\xff\xff\xff\xff\xff",
        most_written: 16,
        unwritten: Some(OutCall::Write(3)),
        status: 4,
        documents: &[("-", "%!PS-Adobe-3.0 EPSF-3.0\n%%Boundi")],
        cut_off: true,
        said: "potrace: -: write fault\n",
        ..PLAIN
    },
    // The fault of an output names the document. The batch is written before the file that isn't there is told
    // of, and where that fails nothing is told of it.
    Case {
        unwritten: Some(OutCall::Begin(2)),
        status: 4,
        documents: &[("a.points", PIXEL)],
        said: "potrace: a-2.points: write fault\n",
        ..FILE
    },
    Case {
        words: "-b points -t 0 a.pbm b.pbm",
        unwritten: Some(OutCall::Begin(2)),
        status: 4,
        documents: &[("a.points", PIXEL)],
        said: "potrace: a-2.points: write fault\n",
        ..FILE
    },
    // Failing messages change no status.
    Case {
        words: "-b points -z left -t 0",
        input: b"P1 1 1 x",
        most_written: 4,
        unsaid: Some(3),
        status: 2,
        said: "potrace",
        ..PLAIN
    },
];

#[test]
fn failing_devices(rt: HostRuntime) -> Result<(), NoMemory> {
    check_all(&rt, rt.alloc(), RUNS)
}
