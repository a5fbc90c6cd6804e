//! Certificates of pages, and runs of their checker.

use crate::tests::cases::{Case, Done, PLAIN, Page, check_pages};
use crate::tests::pages::PAGES;
use mem_outside::MemOutputs;
use outline_check::{Verdict, check_proofs};
use outline_check_run::check_run;
use page_samples::{HoldsFirst, numbered};
use page_trace::document;
use pt_core::{Backend, NoMemory, Policy, Settings};
use std::alloc::Global;
use std::test::Fail;

/// The certificates of a page of one pixel, and of one of two pixels in a row.
const PIXEL: &str = "proofs 1 1 1\npath 0,1 0,0 1,0 1,1\nat 0 1 2 3\nlabels 4:0 3:0 2:0 1:0 0:0\n";

const PAIR: &str = "proofs 2 1 1\npath 0,1 0,0 1,0 2,0 2,1 1,1\nat 0 2 4\n\
labels 3:294 3:0 2:147 2:0 1:0 1:0 0:0\n";

const WRITTEN: &[Page] = &[
    ("-b proofs -z left -t 0", b"P1 1 1 1\n", &[("-", PIXEL)]),
    ("-b proofs -t 1", b"P1 2 1 11", &[("-", PAIR)]),
    ("-b proofs", b"P1 1 1 0", &[("-", "proofs 1 1 0\n")]),
    (
        "-b proofs",
        b"P1 1 1 1 P1 2 1 11",
        &[("-", "proofs 1 1 0\n"), ("-", "proofs 2 1 0\n")],
    ),
];

#[test]
fn certificates_of_pages(rt: HostRuntime) -> Result<(), NoMemory> {
    check_pages(&rt, rt.alloc(), WRITTEN)
}

/// Words, standard input, the status, the document if there is one, and the message.
const CHECKED: &[(&str, &str, u8, &[(&str, &str)], &str)] = &[
    ("", PIXEL, 0, &[("-", "right 1\n")], ""),
    ("", PAIR, 0, &[("-", "right 1\n")], ""),
    ("", "proofs 1 1 0\n", 0, &[("-", "right 0\n")], ""),
    (
        "",
        "proofs 1 1 1\npath 0,1 0,0 1,0 1,1\nat 0 1 2 3\nlabels 4:0 3:0 2:1 1:0 0:0\n",
        6,
        &[("-", "wrong 1\n")],
        "",
    ),
    (
        "",
        "proofs 2 1 1\npath 0,1 0,0 1,0 2,0 2,1 1,1\nat 0 1 3 4\nlabels 3:294 3:0 2:147 2:0 1:0 1:0 0:0\n",
        6,
        &[("-", "wrong 1\n")],
        "",
    ),
    ("", "", 2, &[], "outline_check: -: bad proofs\n"),
    ("-h", PIXEL, 1, &[], "outline_check: bad arguments\n"),
];

#[test]
fn runs_of_the_checker(rt: HostRuntime) -> Result<(), NoMemory> {
    for (words, input, status, documents, said) in CHECKED {
        let case = Case {
            words,
            input: input.as_bytes(),
            status: *status,
            documents,
            said,
            ..PLAIN
        };
        let done = checked(rt.alloc(), &case)?;
        assert_eq!(rt; case.amiss(&done), "", "{input}");
    }
    Ok(())
}

/// What a run of the checker did.
fn checked(alloc: Global, case: &Case) -> Result<Done, NoMemory> {
    let mut outside = case.outside(alloc)?;
    let mut errs = case.errs(alloc)?;
    let status = check_run(
        alloc,
        &outside.words,
        &mut outside.inputs,
        &mut outside.outs,
        &mut errs,
    );
    let outs = outside.outs;
    Ok(Done { status, outs, errs })
}

/// The certificates of all worked pages are right.
#[test]
fn worked_pages_are_right(rt: HostRuntime) -> Result<(), NoMemory> {
    for (_, input, _) in PAGES {
        let case = Case {
            words: "-b proofs -t 0",
            input,
            ..PLAIN
        };
        let done = case.done(&rt, rt.alloc(), &HoldsFirst::open())?;
        let right = all_right(rt.alloc(), &done.outs)?;
        assert_eq!(rt; (done.status, right), (0, true), "{input:?}");
    }
    Ok(())
}

/// Whether there is a document, and all of them are right certificates.
fn all_right(alloc: Global, outs: &MemOutputs) -> Result<bool, NoMemory> {
    for i in 0..outs.count() {
        if !is_right(alloc, outs.text(i))? {
            return Ok(false);
        }
    }
    Ok(0 < outs.count())
}

fn is_right(alloc: Global, text: &[u8]) -> Result<bool, NoMemory> {
    let verdict = check_proofs(alloc, text)?;
    Ok(matches!(verdict, Verdict::Right(_)))
}

/// So are those of all pages of 3 by 3 pixels.
#[test]
fn small_pages_are_right(rt: HostRuntime) -> Result<(), Fail> {
    for number in 0..512 {
        let page = numbered(rt.alloc(), number)?;
        let text = document(rt.alloc(), &page, &SETTINGS)?;
        let right = is_right(rt.alloc(), &text)?;
        assert!(rt; right, "page {number}");
    }
    Ok(())
}

const SETTINGS: Settings = Settings {
    backend: Backend::Proofs,
    policy: Policy::Left,
    turd: 0,
    cyclic: false,
    alphamax: 1_000_000,
    long_curve: false,
    tolerance: 200_000,
    unit: 10,
    flat: false,
    level: 500_000,
    invert: false,
};
