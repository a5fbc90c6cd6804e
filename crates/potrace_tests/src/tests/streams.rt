//! Words that aren't text, and a standard error that is closed.

use crate::tests::cases::{Case, PIXEL, PLAIN, WHITE};
use mem_outside::MemSink;
use page_samples::HoldsFirst;
use pt_base::ErrSink;
use pt_core::NoMemory;
use run_output::{BAD_WORDS, TRACER, words_of};
use std::alloc::Global;
use std::env::{Env, FillError};
use std::fmt::Display;
use std::io::{self, ErrorKind};
use std::process::Abort;

/// What a program was started with: its name and its words, as bytes.
#[derive(Clone, Copy)]
struct Started<'a> {
    words: &'a [&'a [u8]],
}

impl<'a> Env for Started<'a> {
    fn arg(&self, i: usize, buf: &mut [u8]) -> Result<usize, FillError> {
        let Some(word) = self.words.get(i) else {
            return Err(FillError::NotPresent);
        };
        let Some(room) = buf.get_mut(..word.len()) else {
            return Err(FillError::TooLong);
        };
        room.copy_from_slice(word);
        Ok(word.len())
    }

    fn var(&self, _name: &str, _buf: &mut [u8]) -> Result<usize, FillError> {
        Err(FillError::NotPresent)
    }

    fn var_at(&self, _i: usize, _buf: &mut [u8]) -> Result<usize, FillError> {
        Err(FillError::NotPresent)
    }
}

/// A stream that is closed: no write goes through.
#[derive(Clone, Copy)]
struct Closed;

impl Print for Closed {
    fn print<D: Display + Drop>(&self, _value: D) -> io::Result<()> {
        Err(io::Error::from(ErrorKind::BrokenPipe))
    }

    fn println<D: Display + Drop>(&self, _value: D) -> io::Result<()> {
        Err(io::Error::from(ErrorKind::BrokenPipe))
    }

    fn write_all(&self, _bytes: &[u8]) -> io::Result<()> {
        Err(io::Error::from(ErrorKind::BrokenPipe))
    }
}

const REFUSAL: &str = "potrace: bad arguments, see potrace -h\n";

/// What a program is started with: its name and its words. The words behind the name, each with a line feed behind it, or
/// the status where there is one that isn't UTF-8; and what is said.
const STARTED: &[(&[&[u8]], &str, &str)] = &[
    (&[], "", ""),
    (&[b"potrace"], "", ""),
    (&[b"potrace", b"-b", b"svg", b""], "-b\nsvg\n\n", ""),
    // An a with a diaeresis is two bytes, of which neither is a text alone.
    (&[b"p\xc3\xa4", b"\xc3\xa4.pbm"], "\u{e4}.pbm\n", ""),
    (&[b"potrace", b"\xc3.pbm"], "1", REFUSAL),
    (
        &[b"potrace", b"-b", b"svg", b"a.pbm", b"\xa4"],
        "1",
        REFUSAL,
    ),
    (&[b"potrace", b"\xff\xfe", b"-h"], "1", REFUSAL),
    (&[b"p\xc3", b"-h"], "1", REFUSAL),
];

/// The words, each with a line feed behind it.
fn lines(alloc: Global, words: &[String]) -> Result<String, NoMemory> {
    let mut text = String::new(alloc);
    for word in words {
        text.push_str(word)?;
        text.push('\n')?;
    }
    Ok(text)
}

/// Starts a program with these words, and looks at what is found of them and said.
fn start(
    rt: &impl Abort,
    alloc: Global,
    words: &[&[u8]],
    found: &str,
    said: &str,
) -> Result<(), NoMemory> {
    let mut errs = MemSink::new(alloc, 4096, Vec::new(alloc), 1000)?;
    let started = (Started { words }, alloc);
    let text = match words_of(&started, TRACER, BAD_WORDS, &mut errs) {
        Ok(words) => lines(alloc, &words)?,
        Err(status) => format!(in alloc; "{}", status.code())?,
    };
    assert_eq!(rt; (text.as_str(), errs.text()), (found, said.as_bytes()));
    Ok(())
}

#[test]
fn words_are_text(rt: HostRuntime) -> Result<(), NoMemory> {
    for (words, found, said) in STARTED {
        start(&rt, rt.alloc(), words, found, said)?;
    }
    Ok(())
}

const NOTED: &[u8] = b"P1 1 1 1xyz";

/// Runs that have something to say.
const SAYING: &[Case] = &[
    Case {
        words: "-q",
        status: 1,
        said: REFUSAL,
        ..PLAIN
    },
    Case {
        words: "-b points -t 0",
        input: NOTED,
        documents: &[("-", PIXEL)],
        said: "potrace: -: trailing bytes after page 1\n",
        ..PLAIN
    },
    // A page is refused behind a whole one, and the file behind it isn't opened.
    Case {
        words: "-b points -t 0 a.pbm b.pbm",
        name: "a.pbm",
        input: b"P1 1 1 0\nP1 1 ",
        other: Some(("b.pbm", NOTED)),
        status: 2,
        documents: &[("a.points", WHITE)],
        said: "potrace: a.pbm: page 2: truncated\n",
        ..PLAIN
    },
    // Behind a note comes a file that isn't there.
    Case {
        words: "-b points -t 0 b.pbm a.pbm",
        name: "b.pbm",
        input: NOTED,
        status: 3,
        documents: &[("b.points", PIXEL)],
        said: "potrace: b.pbm: trailing bytes after page 1\npotrace: a.pbm: cannot be opened\n",
        ..PLAIN
    },
];

#[test]
fn closed_standard_error_changes_nothing_else(rt: HostRuntime) -> Result<(), NoMemory> {
    for case in SAYING {
        case.check(&rt, rt.alloc())?;
        let mut errs = ErrSink::new(Closed);
        let (status, outs) = case.done_saying(&rt, rt.alloc(), &HoldsFirst::open(), &mut errs)?;
        assert_eq!(rt; case.amiss_outside(status, &outs), "", "{}", case.words);
    }
    Ok(())
}
