//! Each call of the outside fails in turn, in a run over two files of two pages, with one byte a read and 16
//! bytes a write. What is to come is worked out from the files' bytes and the documents' texts.

use crate::tests::cases::{Case, PIXEL, PLAIN, WHITE, check_all};
use mem_outside::{InCall, OutCall};
use pt_core::NoMemory;

/// The first file's pages end behind 8 and 17 bytes; that the rest is no page is decided behind 20. The second
/// one's end behind 9 and 18 bytes; that no page follows is decided by the end, behind 19.
const BOTH: Case<'static> = Case {
    words: "-b points -t 0 a.pbm b.pbm",
    name: "a.pbm",
    input: b"P1 1 1 1\nP1 1 1 0\nxyz",
    other: Some(("b.pbm", b"P1 2 1 01\nP1 1 1 1\n")),
    most_read: 1,
    most_written: 16,
    ..PLAIN
};

const A1: (&str, &str) = ("a.points", PIXEL);

const A2: (&str, &str) = ("a-2.points", WHITE);

const B1: (&str, &str) = ("b.points", "points 2 1 1\n+ 1 1,1 1,0 2,0 2,1\n");

const B2: (&str, &str) = ("b-2.points", PIXEL);

const NOTE: &str = "potrace: a.pbm: trailing bytes after page 2\n";

const A1_FAULT: &str = "potrace: a.points: write fault\n";

const A2_FAULT: &str = "potrace: a-2.points: write fault\n";

const B1_FAULT: &str =
    "potrace: a.pbm: trailing bytes after page 2\npotrace: b.points: write fault\n";

const B2_FAULT: &str =
    "potrace: a.pbm: trailing bytes after page 2\npotrace: b-2.points: write fault\n";

/// From which read on and up to which, of 20 in each file, one that fails makes the run end so: with these whole
/// documents and this message.
const READS: &[(u64, u64, &[(&str, &str)], &str)] = &[
    (1, 8, &[], "potrace: a.pbm: page 1: read fault\n"),
    (9, 17, &[A1], "potrace: a.pbm: page 2: read fault\n"),
    (18, 20, &[A1, A2], "potrace: a.pbm: page 3: read fault\n"),
    (
        21,
        29,
        &[A1, A2],
        "potrace: a.pbm: trailing bytes after page 2\npotrace: b.pbm: page 1: read fault\n",
    ),
    (
        30,
        38,
        &[A1, A2, B1],
        "potrace: a.pbm: trailing bytes after page 2\npotrace: b.pbm: page 2: read fault\n",
    ),
    (
        39,
        40,
        &[A1, A2, B1, B2],
        "potrace: a.pbm: trailing bytes after page 2\npotrace: b.pbm: page 3: read fault\n",
    ),
];

#[test]
fn each_read_fails(rt: HostRuntime) -> Result<(), NoMemory> {
    for (first, last, documents, said) in READS {
        for n in *first..=*last {
            Case {
                unread: Some(InCall::Read(n)),
                status: 3,
                documents,
                said,
                ..BOTH
            }
            .check_by_all(&rt, rt.alloc())?;
        }
    }
    Ok(())
}

/// A call that fails; the documents, of which the last one isn't whole where the call was one that writes or ends it;
/// and the message.
type Fault = (
    OutCall,
    &'static [(&'static str, &'static str)],
    bool,
    &'static str,
);

const WRITES: &[Fault] = &[
    (OutCall::Begin(1), &[], false, A1_FAULT),
    (OutCall::Begin(2), &[A1], false, A2_FAULT),
    (OutCall::Begin(3), &[A1, A2], false, B1_FAULT),
    (OutCall::Begin(4), &[A1, A2, B1], false, B2_FAULT),
    (OutCall::Write(1), &[("a.points", "")], true, A1_FAULT),
    (
        OutCall::Write(2),
        &[("a.points", "points 1 1 1\n+ 1")],
        true,
        A1_FAULT,
    ),
    (
        OutCall::Write(3),
        &[("a.points", "points 1 1 1\n+ 1 0,1 0,0 1,0 1,1")],
        true,
        A1_FAULT,
    ),
    (OutCall::Write(4), &[A1, ("a-2.points", "")], true, A2_FAULT),
    (
        OutCall::Write(5),
        &[A1, A2, ("b.points", "")],
        true,
        B1_FAULT,
    ),
    (
        OutCall::Write(6),
        &[A1, A2, ("b.points", "points 2 1 1\n+ 1")],
        true,
        B1_FAULT,
    ),
    (
        OutCall::Write(7),
        &[A1, A2, ("b.points", "points 2 1 1\n+ 1 1,1 1,0 2,0 2,1")],
        true,
        B1_FAULT,
    ),
    (
        OutCall::Write(8),
        &[A1, A2, B1, ("b-2.points", "")],
        true,
        B2_FAULT,
    ),
    (
        OutCall::Write(9),
        &[A1, A2, B1, ("b-2.points", "points 1 1 1\n+ 1")],
        true,
        B2_FAULT,
    ),
    (
        OutCall::Write(10),
        &[
            A1,
            A2,
            B1,
            ("b-2.points", "points 1 1 1\n+ 1 0,1 0,0 1,0 1,1"),
        ],
        true,
        B2_FAULT,
    ),
    (OutCall::End(1), &[A1], true, A1_FAULT),
    (OutCall::End(2), &[A1, A2], true, A2_FAULT),
    (OutCall::End(3), &[A1, A2, B1], true, B1_FAULT),
    (OutCall::End(4), &[A1, A2, B1, B2], true, B2_FAULT),
];

#[test]
fn each_beginning_write_and_end_fails(rt: HostRuntime) -> Result<(), NoMemory> {
    for (call, documents, cut_off, said) in WRITES {
        Case {
            unwritten: Some(*call),
            status: 4,
            documents,
            cut_off: *cut_off,
            said,
            ..BOTH
        }
        .check_by_all(&rt, rt.alloc())?;
    }
    Ok(())
}

/// A second file that isn't there, and messages that are written in pieces.
const MISSING: Case<'static> = Case {
    words: "-b points -t 0 a.pbm c.pbm",
    status: 3,
    documents: &[A1, A2],
    ..BOTH
};

const RUNS: &[Case] = &[
    // The openings fail.
    Case {
        unread: Some(InCall::Open(1)),
        status: 3,
        said: "potrace: a.pbm: cannot be opened\n",
        ..BOTH
    },
    Case {
        unread: Some(InCall::Open(2)),
        status: 3,
        documents: &[A1, A2],
        said: "potrace: a.pbm: trailing bytes after page 2\npotrace: b.pbm: cannot be opened\n",
        ..BOTH
    },
    // There is no further call of any kind.
    Case {
        unread: Some(InCall::Open(3)),
        documents: &[A1, A2, B1, B2],
        said: NOTE,
        ..BOTH
    },
    Case {
        unread: Some(InCall::Read(41)),
        documents: &[A1, A2, B1, B2],
        said: NOTE,
        ..BOTH
    },
    Case {
        unwritten: Some(OutCall::Begin(5)),
        documents: &[A1, A2, B1, B2],
        said: NOTE,
        ..BOTH
    },
    Case {
        unwritten: Some(OutCall::Write(11)),
        documents: &[A1, A2, B1, B2],
        said: NOTE,
        ..BOTH
    },
    Case {
        unwritten: Some(OutCall::End(5)),
        documents: &[A1, A2, B1, B2],
        said: NOTE,
        ..BOTH
    },
    Case {
        unsaid: Some(7),
        documents: &[A1, A2, B1, B2],
        said: NOTE,
        ..BOTH
    },
    // There is room for each byte of the names and the texts, and then for one less.
    Case {
        room: 148,
        documents: &[A1, A2, B1, B2],
        said: NOTE,
        ..BOTH
    },
    Case {
        room: 147,
        status: 4,
        documents: &[
            A1,
            A2,
            B1,
            ("b-2.points", "points 1 1 1\n+ 1 0,1 0,0 1,0 1,1"),
        ],
        cut_off: true,
        said: B2_FAULT,
        ..BOTH
    },
    // A write of a message fails, and then the rest of that message isn't written, but the other one is.
    Case {
        unsaid: Some(1),
        said: "potrace: c.pbm: cannot be opened\n",
        ..MISSING
    },
    Case {
        unsaid: Some(2),
        said: "potrace: potrace: c.pbm: cannot be opened\n",
        ..MISSING
    },
    Case {
        unsaid: Some(3),
        said: "potrace: a.pbmpotrace: c.pbm: cannot be opened\n",
        ..MISSING
    },
    Case {
        unsaid: Some(4),
        said: "potrace: a.pbm: trailing bytespotrace: c.pbm: cannot be opened\n",
        ..MISSING
    },
    Case {
        unsaid: Some(5),
        said: "potrace: a.pbm: trailing bytes after page potrace: c.pbm: cannot be opened\n",
        ..MISSING
    },
    Case {
        unsaid: Some(6),
        said: "potrace: a.pbm: trailing bytes after page 2potrace: c.pbm: cannot be opened\n",
        ..MISSING
    },
    Case {
        unsaid: Some(7),
        said: "potrace: a.pbm: trailing bytes after page 2\n",
        ..MISSING
    },
    Case {
        unsaid: Some(8),
        said: "potrace: a.pbm: trailing bytes after page 2\npotrace",
        ..MISSING
    },
    Case {
        unsaid: Some(9),
        said: "potrace: a.pbm: trailing bytes after page 2\npotrace: ",
        ..MISSING
    },
    Case {
        unsaid: Some(10),
        said: "potrace: a.pbm: trailing bytes after page 2\npotrace: c.pbm",
        ..MISSING
    },
    Case {
        unsaid: Some(11),
        said: "potrace: a.pbm: trailing bytes after page 2\npotrace: c.pbm: ",
        ..MISSING
    },
    Case {
        unsaid: Some(12),
        said: "potrace: a.pbm: trailing bytes after page 2\npotrace: c.pbm: cannot be opened",
        ..MISSING
    },
];

#[test]
fn openings_room_and_messages(rt: HostRuntime) -> Result<(), NoMemory> {
    check_all(&rt, rt.alloc(), RUNS)
}
