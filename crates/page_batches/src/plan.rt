//! What stays the same through a run.
ghost use Rattle.std.specs.Prelude.{◌≤◌};

use page_workers::PageJob;
use pt_core::Gate;
use run_output::Binding;
use std::alloc::Global;
use std::thread::Threads;

/// What is done with pages, how those of a file are bound, and by how many workers.
#[derive(Drop)]
pub struct Plan<'a, R: Threads + Sync, J: PageJob + Sync, G: Gate + Sync> {
    pub threads: &'a R,
    pub alloc: Global,
    /// Makes the text of a page.
    pub job: &'a J,
    pub binding: Binding,
    /// From 1 to 64.
    pub workers: u32,
    pub gate: &'a G,
    ghost some_worker: { 1 ≤ workers },
    ghost most_workers: { workers ≤ 64 },
}
