//! Refused memory: a run gives all of its answer, or some first documents, all whole, and says that memory ran out.
//!
//! With memory at hand this is met as it stands. It is meant to be run with one growth refused, whichever it is.

use crate::tests::cases::{Case, Done, PIXEL, PIXEL_POLYGON, PLAIN, WHITE, document_at};
use page_samples::HoldsFirst;
use pt_core::NoMemory;

const PAGE: &[u8] = b"P1 1 1 1\n";

const RINGS: &[u8] = b"P1 5 5 11111 10001 10101 10001 11111\n";

const FIRST: &[u8] = b"P1 1 1 1\nP1 1 1 0\nxyz";

const SECOND: &[u8] = b"P1 2 1 01\nP1 1 1 1\n";

const RING_POLYGONS: &str =
    "polygons 5 5 3\n+ 25 20 4 0: 0 5 10 15\n- 9 12 4 0: 0 3 6 9\n+ 1 4 4 0: 0 1 2 3\n";

const DRAWING: &str =
    "<?xml version=\"1.0\" standalone=\"no\"?>\n<svg version=\"1.0\" xmlns=\"http://www.w3.org/2000/svg\" width=\"1pt\" height=\"1pt\" viewBox=\"0 0 10 10\">\n<g transform=\"translate(0,10) scale(1,-1)\" fill=\"#000000\" stroke=\"none\">\n<path fill-rule=\"evenodd\" d=\"M5 10 c-3 0 -5 -2 -5 -5 c0 -3 2 -5 5 -5 c3 0 5 2 5 5 c0 3 -2 5 -5 5 z\"/>\n</g>\n</svg>\n";

const POLYLINE: &str =
    "0\nSECTION\n2\nENTITIES\n0\nPOLYLINE\n8\n0\n66\n1\n70\n1\n0\nVERTEX\n8\n0\n10\n0.500\n20\n1.000\n0\nVERTEX\n8\n0\n10\n0.000\n20\n1.000\n0\nVERTEX\n8\n0\n10\n0.000\n20\n0.500\n0\nVERTEX\n8\n0\n10\n0.000\n20\n0.000\n0\nVERTEX\n8\n0\n10\n0.500\n20\n0.000\n0\nVERTEX\n8\n0\n10\n1.000\n20\n0.000\n0\nVERTEX\n8\n0\n10\n1.000\n20\n0.500\n0\nVERTEX\n8\n0\n10\n1.000\n20\n1.000\n0\nSEQEND\n0\nENDSEC\n0\nEOF\n";

const LINES: &str =
    "paths 42 segments 198 curves 197 bytes 6968\npaths 42 segments 208 curves 202 bytes 7067\npaths 36 segments 229 curves 217 bytes 7287\n";

const OUT_OF_MEMORY: &[u8] = b"potrace: out of memory\n";

/// A document's name and its text, or a message without a name.
type Item = (&'static str, &'static str);

const TWO_FILES: &[Item] = &[
    ("a.points", PIXEL),
    ("a-2.points", WHITE),
    ("", "potrace: a.pbm: trailing bytes after page 2\n"),
    ("b.points", "points 2 1 1\n+ 1 1,1 1,0 2,0 2,1\n"),
    ("b-2.points", PIXEL),
];

/// What is left of the messages where the documents are just those of the items, and the items' messages came first.
fn left_of<'a>(done: &'a Done, items: &[Item]) -> Option<&'a [u8]> {
    let mut said = done.errs.text();
    let mut count = 0usize;
    for (name, text) in items {
        if name.is_empty() {
            said = said.strip_prefix(text.as_bytes())?;
        } else if document_at(&done.outs, count) == Some((name.as_bytes(), text.as_bytes(), true)) {
            count = count.saturating_add(1);
        } else {
            return None;
        }
    }
    if count == done.outs.count() as usize {
        Some(said)
    } else {
        None
    }
}

/// Whether the run did all of this, or for want of memory only some first items, without a begun document.
fn is_answer(done: &Done, items: &[Item]) -> bool {
    for n in 0..=items.len() {
        let left = items.get(..n).and_then(|front| left_of(done, front));
        if done.status == 5 && left == Some(OUT_OF_MEMORY) {
            return true;
        }
    }
    done.status == 0 && left_of(done, items) == Some(b"".as_slice())
}

/// Words, the file `-` or `a.pbm` and its bytes, and what the run writes and says.
const RUNS: &[(&str, &str, &[u8], &[Item])] = &[
    ("-b points -z left -t 0", "-", PAGE, &[("-", PIXEL)]),
    (
        "-b polygons -z left -t 0",
        "-",
        PAGE,
        &[("-", PIXEL_POLYGON)],
    ),
    ("-b polygons -t 0", "-", RINGS, &[("-", RING_POLYGONS)]),
    ("-s -t 0", "-", PAGE, &[("-", DRAWING)]),
    ("-b dxf -a 0 -t 0", "-", PAGE, &[("-", POLYLINE)]),
    ("--demo 3", "-", b"", &[("-", LINES)]),
    (
        "-b points -t 0 --workers 1 a.pbm b.pbm",
        "a.pbm",
        FIRST,
        TWO_FILES,
    ),
    (
        "-b points -t 0 --workers 4 a.pbm b.pbm",
        "a.pbm",
        FIRST,
        TWO_FILES,
    ),
];

#[test]
fn memory_refused(rt: HostRuntime) -> Result<(), NoMemory> {
    for (words, name, input, items) in RUNS {
        let case = Case {
            words,
            name,
            input,
            other: Some(("b.pbm", SECOND)),
            ..PLAIN
        };
        // What the run is made of may be refused too.
        if let Ok(done) = case.done(&rt, rt.alloc(), &HoldsFirst::open()) {
            assert!(rt; is_answer(&done, items), "{words}");
        }
    }
    Ok(())
}
