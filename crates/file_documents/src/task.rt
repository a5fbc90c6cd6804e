//! What stays the same through a run over files.
use page_batches::Plan;
use page_workers::PageJob;
use pt_core::Gate;
use std::thread::Threads;
use threshold_map::Level;

/// What is done with the pages of files, how the pages are read, and how documents are named.
#[derive(Drop)]
pub struct Task<'a, 'b, R: Threads + Sync, J: PageJob + Sync, G: Gate + Sync> {
    /// What is done with a page, and by how many workers.
    pub plan: Plan<'a, R, J, G>,
    /// The brightness up to which a pixel is black.
    pub level: Level,
    /// Whether each pixel is inverted.
    pub invert: bool,
    /// The name of all documents, if one is given. Otherwise documents are named after their files.
    pub output: Option<&'b str>,
    /// The suffix of names that are made from the names of files.
    pub suffix: &'b str,
}
