//! Runs by several workers: they share the pages as they go, up to the most pages that a run may have.

use crate::tests::cases::{Case, Done, PIXEL, PLAIN, document_at};
use page_samples::HoldsFirst;
use pt_core::NoMemory;
use std::alloc::Global;
use std::process::Abort;

const FOUR_PAGES: Case<'static> = Case {
    words: "-b points -t 0 --workers 2",
    input: b"P1 1 1 1\nP1 1 1 1\nP1 1 1 1\nP1 1 1 1\n",
    documents: &[("-", PIXEL), ("-", PIXEL), ("-", PIXEL), ("-", PIXEL)],
    ..PLAIN
};

// While one worker is held with its page, the other has to trace the other three: one thread, or two with two pages
// each, would wait in vain.
#[test]
fn a_worker_that_is_done_takes_a_further_page(rt: HostRuntime) -> Result<(), NoMemory> {
    let gate = HoldsFirst::new();
    let done = FOUR_PAGES.done(&rt, rt.alloc(), &gate)?;
    FOUR_PAGES.expect(&rt, &done);
    assert_eq!(rt; gate.told(), (4, 0x0101_0101, 0));
    Ok(())
}

/// A page more than a run may have.
fn too_many_pages(alloc: Global) -> Result<Vec<u8>, NoMemory> {
    let mut input = Vec::new(alloc);
    for _ in 0..65_537 {
        input.extend_from_slice(b"P1 1 1 1\n")?;
    }
    Ok(input)
}

/// The first 65,536 pages are written.
fn expect_limit(rt: &impl Abort, words: &str, done: &Done) {
    let said = b"potrace: -: page 65537: too many pages\n".as_slice();
    assert_eq!(rt;
        (done.status, done.outs.count(), done.errs.text()),
        (2, 65_536, said),
        "{words}"
    );
    let page = (b"-".as_slice(), b"points 1 1 0\n".as_slice(), true);
    for i in 0..65_536 {
        assert!(rt;
            document_at(&done.outs, i) == Some(page),
            "{words}: document {i}"
        );
    }
}

/// Words that ask for some number of workers.
const WORKERS: [&str; 4] = [
    "-b points --workers 1",
    "-b points --workers 2",
    "-b points --workers 7",
    "-b points --workers 64",
];

#[test]
fn pages_up_to_the_limit_by_any_number_of_workers(rt: HostRuntime) -> Result<(), NoMemory> {
    let input = too_many_pages(rt.alloc())?;
    for words in WORKERS {
        let case = Case {
            words,
            input: &input,
            ..PLAIN
        };
        let done = case.done(&rt, rt.alloc(), &HoldsFirst::open())?;
        expect_limit(&rt, words, &done);
    }
    Ok(())
}
