//! A gate that shows whether threads share the pages of a batch while they trace them.

use pt_core::Gate;
use std::sync::atomic::{AtomicU64, Ordering};
use std::thread;

/// How many times the first call checks whether four calls have been made.
const MOST_TURNS: u32 = 100_000_000;

/// A gate that holds its first call, for any page, until four calls have been made, and then lets it pass. It
/// also lets the call pass after `MOST_TURNS` checks.
#[derive(Drop)]
pub struct HoldsFirst {
    most_turns: u32,
    calls: AtomicU64,
    // Each page adds one to a byte of its own.
    pages: AtomicU64,
    met_limit: AtomicU64,
}

impl HoldsFirst {
    /// A gate that was never called.
    pub fn new() -> HoldsFirst {
        HoldsFirst::for_turns(MOST_TURNS)
    }

    /// A gate that holds no call.
    pub fn open() -> HoldsFirst {
        HoldsFirst::for_turns(0)
    }

    fn for_turns(most_turns: u32) -> HoldsFirst {
        HoldsFirst {
            most_turns,
            calls: AtomicU64::new(0),
            pages: AtomicU64::new(0),
            met_limit: AtomicU64::new(0),
        }
    }

    /// How many times the gate was called, how many times for each of the first eight pages (a byte each), and
    /// 1 if the first call reached the limit of checks, otherwise 0.
    pub fn told(&self) -> (u64, u64, u64) {
        (
            self.calls.load(Ordering::SeqCst),
            self.pages.load(Ordering::SeqCst),
            self.met_limit.load(Ordering::SeqCst),
        )
    }

    fn hold(&self) {
        for turn in 0..self.most_turns {
            if self.calls.load(Ordering::SeqCst) >= 4 {
                return;
            }
            // This gives the other worker a chance to run on a busy machine.
            if turn % 1024 == 0 {
                thread::yield_now();
            }
        }
        self.met_limit.store(1, Ordering::SeqCst);
    }
}

impl Gate for HoldsFirst {
    fn at(&self, page: u32) {
        let _ = self
            .pages
            .fetch_add(1 << (8 * page.min(7)), Ordering::SeqCst);
        if self.calls.fetch_add(1, Ordering::SeqCst) == 0 {
            self.hold();
        }
    }
}
