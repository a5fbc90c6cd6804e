//! The text of the demo.
ghost use Rattle.std.specs.Prelude.{◌≡◌, ◌≤◌, ◌++◌, flat_map, IfOk, OnOk};
ghost use Rattle.pt_core.specs.Needs.{CanTrace, CanWrite};
ghost use Rattle.potrace_main.specs.Demo.{IsDemoText};

use crate::line::LineJob;
use demo_pages::{Generator, next_pages};
use page_workers::trace_all;
use pt_core::{Gate, NoMemory, Settings};
use std::alloc::Global;
use std::thread::Threads;

/// The lines of so many pages, in order.
///
/// A batch has two pages for each worker, so that no more of them are held at a time.
pub fn demo_text<R: Threads + Sync, G: Gate + Sync>(
    rt: &R,
    alloc: Global,
    pages: u32,
    workers: u32,
    settings: Settings,
    gate: &G,
) -> Result<Vec<u8>, NoMemory>
    requires some_worker { 1 ≤ workers }
    requires most_workers { workers ≤ 64 }
    requires traced { CanTrace settings }
    requires written { CanWrite settings }
    ensures { IfOk result (λ text. IsDemoText pages settings text.items) }
{
    let job = LineJob { settings };
    let mut generator = Generator::new(pages);
    let mut text = Vec::new(alloc);
    let mut left = pages;
    while left > 0 {
        let count = left.min(2 * workers);
        let batch = next_pages(alloc, count, &mut generator)?;
        let lines = trace_all(rt, alloc, &job, &batch, workers, gate)?;
        put_lines(&mut text, &lines)?;
        left -= count;
    }
    Ok(text)
}

/// Appends lines, in order.
fn put_lines(text: &mut Vec<u8>, lines: &[Vec<u8>]) -> Result<(), NoMemory>
    ensures { OnOk result (text.new.items
        ≡ text.old.items ++ flat_map (λ line. line.items) lines.now) }
{
    for line in lines {
        text.extend_from_slice(line)?;
    }
    Ok(())
}
