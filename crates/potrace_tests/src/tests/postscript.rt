//! All pages of a file in one PostScript document: a file's pages are counted, and a document ends with its file alone.

use crate::tests::cases::{Case, PLAIN, check_all};
use mem_outside::{InCall, OutCall};
use pt_core::NoMemory;

/// Two pages of 8 by 8 black pixels, of 15 bytes each.
const PAGES: &[u8] =
    b"P4 8 8\n\xff\xff\xff\xff\xff\xff\xff\xffP4 8 8\n\xff\xff\xff\xff\xff\xff\xff\xff";

/// Its document.
const WHOLE: &str = "%!PS-Adobe-3.0\n%%Pages: (atend)\n%%EndComments\n\
    %%Page: 1 1\n\
    gsave\n1 10 div dup scale\n40 80 moveto\n-40 0 rlineto\n0 -40 rlineto\n0 -40 rlineto\n40 0 rlineto\n40 0 rlineto\n0 40 rlineto\n0 40 rlineto\n-40 0 rlineto\nclosepath\neofill\ngrestore\nshowpage\n\
    %%Page: 2 2\n\
    gsave\n1 10 div dup scale\n40 80 moveto\n-40 0 rlineto\n0 -40 rlineto\n0 -40 rlineto\n40 0 rlineto\n40 0 rlineto\n0 40 rlineto\n0 40 rlineto\n-40 0 rlineto\nclosepath\neofill\ngrestore\nshowpage\n\
    %%Trailer\n%%Pages: 2\n%%EOF\n";

/// That of a file of its first page.
const ONE: &str = "%!PS-Adobe-3.0\n%%Pages: (atend)\n%%EndComments\n\
    %%Page: 1 1\n\
    gsave\n1 10 div dup scale\n40 80 moveto\n-40 0 rlineto\n0 -40 rlineto\n0 -40 rlineto\n40 0 rlineto\n40 0 rlineto\n0 40 rlineto\n0 40 rlineto\n-40 0 rlineto\nclosepath\neofill\ngrestore\nshowpage\n\
    %%Trailer\n%%Pages: 1\n%%EOF\n";

/// What stands there behind the first page.
const FIRST: &str = "%!PS-Adobe-3.0\n%%Pages: (atend)\n%%EndComments\n\
    %%Page: 1 1\n\
    gsave\n1 10 div dup scale\n40 80 moveto\n-40 0 rlineto\n0 -40 rlineto\n0 -40 rlineto\n40 0 rlineto\n40 0 rlineto\n0 40 rlineto\n0 40 rlineto\n-40 0 rlineto\nclosepath\neofill\ngrestore\nshowpage\n";

/// And before the text of the second one.
const SECOND: &str = "%!PS-Adobe-3.0\n%%Pages: (atend)\n%%EndComments\n\
    %%Page: 1 1\n\
    gsave\n1 10 div dup scale\n40 80 moveto\n-40 0 rlineto\n0 -40 rlineto\n0 -40 rlineto\n40 0 rlineto\n40 0 rlineto\n0 40 rlineto\n0 40 rlineto\n-40 0 rlineto\nclosepath\neofill\ngrestore\nshowpage\n\
    %%Page: 2 2\n";

/// And behind that text.
const BOTH: &str = "%!PS-Adobe-3.0\n%%Pages: (atend)\n%%EndComments\n\
    %%Page: 1 1\n\
    gsave\n1 10 div dup scale\n40 80 moveto\n-40 0 rlineto\n0 -40 rlineto\n0 -40 rlineto\n40 0 rlineto\n40 0 rlineto\n0 40 rlineto\n0 40 rlineto\n-40 0 rlineto\nclosepath\neofill\ngrestore\nshowpage\n\
    %%Page: 2 2\n\
    gsave\n1 10 div dup scale\n40 80 moveto\n-40 0 rlineto\n0 -40 rlineto\n0 -40 rlineto\n40 0 rlineto\n40 0 rlineto\n0 40 rlineto\n0 40 rlineto\n-40 0 rlineto\nclosepath\neofill\ngrestore\nshowpage\n";

const STREAM: Case<'static> = Case {
    words: "-b ps",
    input: PAGES,
    documents: &[("-", WHOLE)],
    ..PLAIN
};

const FILES: Case<'static> = Case {
    words: "-b ps a.pbm b.pbm",
    name: "a.pbm",
    input: PAGES,
    documents: &[("a.ps", WHOLE)],
    ..PLAIN
};

const RUNS: &[Case] = &[
    STREAM,
    // A page is cut short: the document is left open behind the one in front of it.
    Case {
        input: b"P4 8 8\n\xff\xff\xff\xff\xff\xff\xff\xffP4 8 8\n\xff\xff\xff\xff\xff\xff\xff",
        status: 2,
        documents: &[("-", FIRST)],
        cut_off: true,
        said: "potrace: -: page 2: truncated\n",
        ..STREAM
    },
    // The note comes behind the document.
    Case {
        input: b"P4 8 8\n\xff\xff\xff\xff\xff\xff\xff\xffP4 8 8\n\xff\xff\xff\xff\xff\xff\xff\xffxyz",
        said: "potrace: -: trailing bytes after page 2\n",
        ..STREAM
    },
    // A file without a page has no document.
    Case {
        input: b"x",
        status: 2,
        documents: &[],
        said: "potrace: -: page 1: unknown format\n",
        ..STREAM
    },
    Case {
        other: Some(("b.pbm", b"")),
        status: 2,
        said: "potrace: b.pbm: page 1: unknown format\n",
        ..FILES
    },
    Case {
        status: 3,
        said: "potrace: b.pbm: cannot be opened\n",
        ..FILES
    },
    // Each file's pages are counted, and its document has a number where another has its name.
    Case {
        words: "-b ps a.pbm a.pgm",
        other: Some(("a.pgm", b"P4 8 8\n\xff\xff\xff\xff\xff\xff\xff\xff")),
        documents: &[("a.ps", WHOLE), ("a-2.ps", ONE)],
        ..FILES
    },
];

const FAILING: &[Case] = &[
    // The first page is at hand when the read behind it fails.
    Case {
        most_read: 15,
        unread: Some(InCall::Read(2)),
        status: 3,
        documents: &[("-", FIRST)],
        cut_off: true,
        said: "potrace: -: page 2: read fault\n",
        ..STREAM
    },
    Case {
        unwritten: Some(OutCall::Begin(1)),
        status: 4,
        documents: &[],
        said: "potrace: -: write fault\n",
        ..STREAM
    },
    Case {
        unwritten: Some(OutCall::Write(13)),
        status: 4,
        documents: &[("-", SECOND)],
        cut_off: true,
        said: "potrace: -: write fault\n",
        ..STREAM
    },
    Case {
        unwritten: Some(OutCall::Write(14)),
        status: 4,
        documents: &[("-", BOTH)],
        cut_off: true,
        said: "potrace: -: write fault\n",
        ..STREAM
    },
    Case {
        unwritten: Some(OutCall::End(1)),
        status: 4,
        documents: &[("-", WHOLE)],
        cut_off: true,
        said: "potrace: -: write fault\n",
        ..STREAM
    },
];

#[test]
fn one_document_for_a_file(rt: HostRuntime) -> Result<(), NoMemory> {
    check_all(&rt, rt.alloc(), RUNS)
}

#[test]
fn documents_left_open(rt: HostRuntime) -> Result<(), NoMemory> {
    check_all(&rt, rt.alloc(), FAILING)
}
