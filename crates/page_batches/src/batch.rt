//! What was read and isn't carried out yet.
ghost use Rattle.std.specs.Prelude.{◌≡◌, ◌+◌, ◌*◌, ◌≤◌, ◌<◌, ◌++◌, ◌∷◌, ◌^◌, ℕ, suc, List, [], length, true, IfErr, IfOk, OnOk, option_map, string_bytes};
ghost use Rattle.std.specs.List.{AllZip};
ghost use Rattle.run_output.specs.Messages.{trailing_line};
ghost use Rattle.run_output.specs.Parts.{page_part};
ghost use Rattle.run_output.specs.declared.status.Status.{Status};
ghost use Rattle.page_batches.specs.Inner.Desks.{Keeps, sinks_at};
ghost use Rattle.page_batches.specs.Inner.Entries.{AreInOrder, items_by, pages_among};
ghost use Rattle.page_batches.specs.Held.{AreHeld};
ghost use Rattle.page_batches.specs.Inner.Held.{AreInTurn, EndsHolding, HoldsMore, LeavesBatch, Waits, end_held, end_notes, pages_held};
ghost use Rattle.page_batches.specs.Held.Held.{End, Message, Page};
ghost use Rattle.page_batches.specs.Items.{Item};
ghost use Rattle.page_batches.specs.Items.Item.{Write};
ghost use Rattle.page_batches.specs.Inner.ItemsDone.{EndsWriting, IsHalt, IsIdle, ended_with};
ghost use Rattle.page_batches.specs.ItemsDone.{HasEnded};

use crate::desk::Desk;
use crate::laws::held_items_are_one;
use crate::plan::Plan;
use bit_image::Bitmap;
use page_workers::{PageJob, trace_all};
use pt_core::{Gate, NoMemory, Outputs, Sink, SinkFault};
use run_output::{Binding, Status, say_out_of_memory, say_trailing};
use std::alloc::Global;
use std::marker::Model;
use std::thread::Threads;

/// One thing to do behind those in front of it.
#[derive(Drop)]
enum Pending {
    /// To write the part of the document of this name that is the next page, behind so many of its file.
    Page {
        name: String,
        before: u32,
    },
    /// To end the document of this name and of so many pages.
    End {
        name: String,
        pages: u32,
    },
    /// To end it, and to say that bytes which begin no page follow those of the file.
    EndTrailing {
        name: String,
        file: String,
        pages: u32,
    },
    /// To say that bytes which begin no page follow so many pages of the file of this name.
    Trailing {
        name: String,
        pages: u32,
    },
}

/// Pages that were read and not traced yet, and what is to be done between their documents. Contracts see
/// what is held, in order.
#[derive(Drop)]
pub struct Batch {
    entries: Vec<Pending>,
    pages: Vec<Bitmap>,
}

impl Model for Batch {
    ghost use Rattle.std.specs.Prelude.{◌≡◌, List, length};
    ghost use Rattle.page_batches.specs.Held.{Held};
    ghost use Rattle.page_batches.specs.Inner.Entries.{held_by, pages_among};

    ghost Value = { List Held };

    ghost view = { λ batch. held_by batch.entries.items batch.pages.items };

    ghost invariant = { λ batch. length batch.pages.items ≡ pages_among batch.entries.items };
}

impl Batch {
    /// Nothing is held.
    pub fn new(alloc: Global) -> Batch
        ensures { result ≡ [] }
    {
        Batch {
            entries: Vec::new(alloc),
            pages: Vec::new(alloc),
        }
    }

    /// How many pages are held.
    fn count(&self) -> usize
        ensures { result ≡ pages_held self.now }
    {
        self.pages.len()
    }

    /// Holds a page, behind so many of its file, which is a part of the document of this name.
    fn push(&mut self, name: String, before: u32, page: Bitmap) -> Result<(), NoMemory>
        ensures { HoldsMore result (Page (string_bytes name) before page ∷ []) self.old self.new }
    {
        self.pages.push(page)?;
        match self.entries.push(Pending::Page { name, before }) {
            Ok(()) => Ok(()),
            Err(_) => {
                let _ = self.pages.pop();
                Err(NoMemory)
            }
        }
    }

    /// Holds the end of the document of this name, which has so many pages.
    fn push_end(&mut self, name: String, pages: u32) -> Result<(), NoMemory>
        ensures { HoldsMore result (End (string_bytes name) pages [] ∷ []) self.old self.new }
    {
        self.entries.push(Pending::End { name, pages })?;
        Ok(())
    }

    /// Holds the end of the document of this name, and behind it the message that bytes which begin no page
    /// follow those of this file.
    fn push_end_trailing(&mut self, name: String, file: String, pages: u32) -> Result<(), NoMemory>
        ensures { HoldsMore result (End (string_bytes name) pages (trailing_line (string_bytes file) pages ∷ []) ∷ [])
            self.old self.new }
    {
        self.entries
            .push(Pending::EndTrailing { name, file, pages })?;
        Ok(())
    }

    /// Holds the message that bytes which begin no page follow so many pages of the file of this name.
    fn push_trailing(&mut self, name: String, pages: u32) -> Result<(), NoMemory>
        ensures { HoldsMore result (Message (trailing_line (string_bytes name) pages) ∷ []) self.old self.new }
    {
        self.entries.push(Pending::Trailing { name, pages })?;
        Ok(())
    }

    /// Holds what is to be done at the end of a file of so many pages: its document, which goes by this name, is
    /// ended, where its pages are bound together; and where `trailing` is the file's name it is said that bytes
    /// follow which begin no page.
    pub fn hold_end(
        &mut self,
        alloc: Global,
        binding: Binding,
        name: &str,
        pages: u32,
        trailing: Option<&str>,
    ) -> Result<(), NoMemory>
        ensures { HoldsMore result (end_held binding name.now pages
            (end_notes (option_map (λ s. s.now) trailing.entry) pages)) self.old self.new }
    {
        let is_begun = binding == Binding::Together && pages > 0;
        match trailing {
            Some(file) if is_begun => {
                let name = String::from_str(alloc, name)?;
                self.push_end_trailing(name, String::from_str(alloc, file)?, pages)
            }
            Some(file) => self.push_trailing(String::from_str(alloc, file)?, pages),
            None if is_begun => self.push_end(String::from_str(alloc, name)?, pages),
            None => Ok(()),
        }
    }

    /// Holds a page, behind so many of its file, which is a part of the document of this name. A batch that has
    /// two pages for each worker then is carried out. An `Err` says how the run ends there: that is said.
    pub fn hold_page<R: Threads + Sync, J: PageJob + Sync, G: Gate + Sync, O: Outputs, E: Sink>(
        &mut self,
        plan: &Plan<R, J, G>,
        desk: &mut Desk<O, E>,
        name: String,
        before: u32,
        page: Bitmap,
    ) -> Result<(), Status>
        requires waits { Waits plan.now.binding (2 * plan.now.workers) before (O.is_ready desk.old.outs.now) self.old }
        requires ready { E.is_ready desk.old.errs.now ≡ true }

        // Whichever items are those of what was held, the page's part comes behind them.
        ensures held { (first : List Item) → AreHeld plan.now.binding (J.belongs plan.now.job.now) self.old first
            → (text : List ℕ) → J.belongs plan.now.job.now page text
            → EndsHolding result plan.now.binding (2 * plan.now.workers) (J.belongs plan.now.job.now)
            (first ++ Write (page_part plan.now.binding (string_bytes name) before text) ∷ []) self.new
            (sinks_at O.Sink E.Sink desk.old) (sinks_at O.Sink E.Sink desk.new) }
        ensures halts { IfErr result IsHalt }
        ensures full { IfErr result (λ status. status ≡ Status.Unwritten
            → pages_held self.old + 1 ≡ 2 * plan.now.workers) }
        ensures idle { IfErr result (λ status. IsIdle status
            (sinks_at O.Sink E.Sink desk.old) (sinks_at O.Sink E.Sink desk.new)) }
        ensures waits { OnOk result (Waits plan.now.binding (2 * plan.now.workers) (suc before)
            (O.is_ready desk.new.outs.now) self.new) }
        ensures keeps { Keeps O.Sink E.Sink desk.old desk.new }
    {
        let Ok(()) = self.push(name, before, page) else {
            say_out_of_memory(desk.errs);
            return Err(Status::OutOfMemory);
        };
        if self.count() < 2 * plan.workers as usize {
            return Ok(());
        }
        self.carry_out(plan, desk)
    }

    /// Traces all pages that are held, and gives them back; then writes the parts of their documents, and says
    /// the messages between them, in order. An `Err` says how the run ends: that is said.
    pub fn carry_out<R: Threads + Sync, J: PageJob + Sync, G: Gate + Sync, O: Outputs, E: Sink>(
        &mut self,
        plan: &Plan<R, J, G>,
        desk: &mut Desk<O, E>,
    ) -> Result<(), Status>
        requires few { pages_held self.old < 2 ^ 32 }
        requires turn { AreInTurn plan.now.binding (O.is_ready desk.old.outs.now) self.old }
        requires ready { E.is_ready desk.old.errs.now ≡ true }

        // Whichever items are those of what was held, they are carried out, as far as the status says.
        ensures ended { (items : List Item) → AreHeld plan.now.binding (J.belongs plan.now.job.now) self.old items
            → HasEnded (ended_with result) items (sinks_at O.Sink E.Sink desk.old) (sinks_at O.Sink E.Sink desk.new) }
        ensures idle { IfErr result (λ status. IsIdle status
            (sinks_at O.Sink E.Sink desk.old) (sinks_at O.Sink E.Sink desk.new)) }
        ensures left { LeavesBatch result plan.now.binding (O.is_ready desk.old.outs.now) (O.is_ready desk.new.outs.now)
            self.old self.new }
        ensures keeps { Keeps O.Sink E.Sink desk.old desk.new }
    {
        // A page has one text, so what is held has one list of items.
        held_items_are_one(plan.job);
        let Ok(texts) = texts_of(plan, &mut self.pages) else {
            self.entries.clear();
            say_out_of_memory(desk.errs);
            return Err(Status::OutOfMemory);
        };
        let written = write_entries(plan.binding, &self.entries, &texts, desk);
        self.entries.clear();
        match written {
            Ok(()) => Ok(()),
            Err(_) => Err(Status::Unwritten),
        }
    }
}

/// The job's text of each page, in page order. The pages are given back, so that their memory is free again before a
/// document is written.
//
// A page that is alone, as of a file of one page, is given to the job, and so is given back before its text stands.
fn texts_of<R: Threads + Sync, J: PageJob + Sync, G: Gate + Sync>(
    plan: &Plan<R, J, G>,
    pages: &mut Vec<Bitmap>,
) -> Result<Vec<Vec<u8>>, NoMemory>
    requires few { length pages.old.items < 2 ^ 32 }
    ensures texts { IfOk result (λ texts. AllZip (λ page text. J.belongs plan.now.job.now page text.items)
        pages.old.items texts.items) }
    ensures none { pages.new.items ≡ [] }
{
    if pages.len() == 1 {
        if let Some(page) = pages.pop() {
            return text_alone(plan, page);
        }
    }
    let texts = trace_all(
        plan.threads,
        plan.alloc,
        plan.job,
        pages,
        plan.workers,
        plan.gate,
    );
    pages.clear();
    texts
}

/// The job's text of one page, as a list.
fn text_alone<R: Threads + Sync, J: PageJob + Sync, G: Gate + Sync>(
    plan: &Plan<R, J, G>,
    page: Bitmap,
) -> Result<Vec<Vec<u8>>, NoMemory>
    ensures { IfOk result (λ texts. AllZip (λ page text. J.belongs plan.now.job.now page text.items)
        (page ∷ []) texts.items) }
{
    plan.gate.at(0);
    let text = plan.job.given_page(plan.alloc, page)?;
    let mut texts = Vec::new(plan.alloc);
    texts.push(text)?;
    Ok(texts)
}

/// Writes the parts of documents that are pages, whose texts these are, and ends documents and says the messages
/// between them, in order. After a fault nothing more is written: that is said.
fn write_entries<O: Outputs, E: Sink>(
    binding: Binding,
    entries: &[Pending],
    texts: &[Vec<u8>],
    desk: &mut Desk<O, E>,
) -> Result<(), SinkFault>
    requires texts { length texts.now ≡ pages_among entries.now }
    requires turn { AreInOrder binding (O.is_ready desk.old.outs.now) entries.now }
    requires ready { E.is_ready desk.old.errs.now ≡ true }
    ensures written { EndsWriting result (items_by binding entries.now texts.now)
        (sinks_at O.Sink E.Sink desk.old) (sinks_at O.Sink E.Sink desk.new) }
    ensures keeps { Keeps O.Sink E.Sink desk.old desk.new }
{
    let mut done = 0;
    for entry in entries {
        match entry {
            Pending::Page { name, before } => {
                desk.write_page(binding, name, *before, &texts[done])?;
                done += 1;
            }
            Pending::End { name, pages } => desk.write_end(name, *pages)?,
            Pending::EndTrailing { name, file, pages } => {
                desk.write_end(name, *pages)?;
                say_trailing(desk.errs, file, u64::from(*pages));
            }
            Pending::Trailing { name, pages } => say_trailing(desk.errs, name, u64::from(*pages)),
        }
    }
    Ok(())
}
