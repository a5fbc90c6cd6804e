//! The reader of a file's pages.
ghost use Rattle.std.specs.Prelude.{◌≡◌, ℕ, ◌<◌, ◌≤◌, ◌⊎◌, true, false, length, drop, IfOk, IfSome, OnOk, IsErrOf};
ghost use Rattle.pt_core.specs.Counts.{Rose};
ghost use Rattle.pt_core.specs.Files.{unread};
ghost use Rattle.bitmap_input.specs.Reading.{AtEnd};
ghost use Rattle.bitmap_input.specs.Inner.Reading.{ReadsFrom};
ghost use Rattle.bitmap_input.specs.Raw.{IsShown};
ghost use Rattle.bitmap_input.specs.Front.{front, page_at};
ghost use Rattle.bitmap_input.specs.Front.Answer.{Ends};
ghost use Rattle.bitmap_input.specs.Inner.Behind.{IsRead, counted_page};
ghost use Rattle.bitmap_input.specs.Reader.{at_start, is_later, ahead, GivesPage, GivesEnding, ReadFails, MemoryFails, TellsPage, is_over, IfPage, IfEnding, IsAnswer};

use crate::body::read_body;
use crate::buffer::Buffer;
use crate::extent::ReadPage;
use crate::fault::InFault;
use crate::header::read_magic;
use crate::next::Next;
use crate::run::{Run, skip};
use crate::skip::pass_over;
use crate::stop::Stop;
use crate::tone::Tone;
use pt_core::{Inputs, NoMemory};
use std::alloc::Global;
use std::marker::Model;
use threshold_map::Level;

/// A reader of the pages of the open file, one after another.
#[derive(Debug, Drop)]
pub struct PageReader {
    buffer: Buffer,
    // How many bytes the next call skips, because the last page claims them.
    skip: u32,
    pages: u32,
    over: bool,
}

impl Model for PageReader {
    ghost use Rattle.std.specs.Prelude.{◌≤◌, length};
    ghost use Rattle.bitmap_input.specs.Reader.{Reader};

    ghost Value = { Reader };

    ghost view = { λ r. record {
      bytes = r.buffer.bytes;
      skip = r.skip;
      pages = r.pages;
      ended = r.buffer.ended;
      over = r.over;
    } };

    ghost invariant = { λ r. length r.buffer.bytes ≤ 65536 };
}

/// Reads the next page, after the bytes that the last page claims and any whitespace. If the file ends before
/// that, there is no page.
fn read_ahead<I: Inputs>(
    alloc: Global,
    buffer: &mut Buffer,
    inputs: &mut I,
    behind: u32,
    later: bool,
    tone: &Tone,
) -> Result<ReadPage, Stop>
    requires { I.is_opened inputs.old ≡ true }
    ensures reads { ReadsFrom I.Inputs (IsRead tone.now.level tone.now.invert)
        (λ bytes. counted_page later (drop behind bytes)) buffer.old inputs.old result buffer.new
        inputs.new }
{
    pass_over(buffer, inputs, behind)?;
    skip(buffer, inputs, Run::Space)?;
    let format = read_magic(buffer, inputs, later)?;
    read_body(alloc, buffer, inputs, format, tone)
}

impl PageReader {
    /// A reader at the beginning of a file, with a buffer that grows to 16,384 bytes.
    pub fn new(alloc: Global) -> Result<PageReader, NoMemory>
        ensures { IfOk result (λ reader. reader ≡ at_start) }
    {
        let buffer = Buffer::new(alloc)?;
        Ok(PageReader {
            buffer,
            skip: 0,
            pages: 0,
            over: false,
        })
    }

    /// Makes the reader ready for a file that has just been opened. Bytes of the previous file are dropped.
    pub fn start(&mut self)
        ensures { self.new ≡ at_start }
    {
        self.buffer.clear();
        self.skip = 0;
        self.pages = 0;
        self.over = false;
    }

    /// How many pages of this file have been returned.
    pub fn pages(&self) -> u32
        ensures { result ≡ self.now.pages }
    {
        self.pages
    }

    /// Reads the next page of the open file. It reads at most 65,536 bytes more than it needs for the page, or
    /// for the decision that there is none.
    ///
    /// A gray pixel or a colour is black if its brightness is at most the level; a bit 1 is black. If `invert`
    /// is true, each pixel is then inverted.
    ///
    /// If a page can't be read, the first fault in it is reported. After the end of the file, trailing bytes or
    /// any fault, the result is `Over` until `start` is called.
    pub fn next<I: Inputs>(
        &mut self,
        alloc: Global,
        inputs: &mut I,
        level: &Level,
        invert: bool,
    ) -> Result<Next, InFault>
        requires opened { I.is_opened inputs.old ≡ true }
        requires room { self.old.pages < 4294967295 }
        requires at_end { self.old.ended ≡ true → AtEnd (I.files inputs.old) }

        // After the end of a file and after each fault the reader is over, and does nothing.
        ensures over { is_over result ≡ self.old.over }
        ensures idle { is_over result ≡ true → (self.new ≡ self.old) × (inputs.new ≡ inputs.old) }

        // What each result says of the bytes that were read, and that it needed them.
        ensures page { IfPage result
            (λ page. GivesPage level.now invert self.old (I.files inputs.old) page self.new
            (I.files inputs.new)) }
        ensures ending { IfEnding result
            (λ ending. GivesEnding self.old (I.files inputs.old) ending self.new
            (I.files inputs.new)) }
        ensures read_fault { IsErrOf result InFault.ReadFault
            → ReadFails self.old (I.files inputs.old) self.new (I.files inputs.new) }
        ensures no_memory { IsErrOf result InFault.NoMemory
            → MemoryFails self.old (I.files inputs.old) self.new (I.files inputs.new) }

        // What each result says of the whole rest of the file, if that is known.
        ensures told_page { IfSome (unread (I.files inputs.old))
            (λ rest. IfPage result
            (λ page. TellsPage level.now invert self.old rest page self.new (I.files inputs.new))) }
        ensures told_ending { IfSome (unread (I.files inputs.old))
            (λ rest. IfEnding result (λ ending. front (is_later self.old) (ahead self.old rest)
            ≡ Ends ending)) }

        // If no read failed and memory didn't run out, the result is the one that the rest of the file gives.
        ensures always { IfSome (unread (I.files inputs.old)) (λ rest. self.old.over ≡ false
            → (Rose (I.faults inputs.old) (I.faults inputs.new) → ⊥)
            → IsAnswer level.now invert result (front (is_later self.old) (ahead self.old rest))
            ⊎ IsErrOf result InFault.NoMemory) }

        // The inputs' count of faults rises only after a read fault.
        ensures steady { OnOk result (I.faults inputs.new ≡ I.faults inputs.old) }
        ensures steady_ending { IfEnding result (λ _. I.faults inputs.new ≡ I.faults inputs.old) }
        ensures cause { IsErrOf result InFault.ReadFault
            → Rose (I.faults inputs.old) (I.faults inputs.new) }
        ensures never_falls { I.faults inputs.old ≤ I.faults inputs.new }

        ensures still_at_end { self.new.ended ≡ true → AtEnd (I.files inputs.new) }
        ensures within { length self.new.bytes ≤ 65536 }
        ensures stays_opened { I.is_opened inputs.new ≡ true }
        ensures same_openings { I.openings inputs.new ≡ I.openings inputs.old }
    {
        if self.over {
            return Ok(Next::Over);
        }
        let later = self.pages > 0;
        let tone = Tone {
            level: *level,
            invert,
        };
        let answer = read_ahead(alloc, &mut self.buffer, inputs, self.skip, later, &tone);
        self.buffer.bounded();
        match answer {
            Ok(read) => {
                self.pages += 1;
                self.skip = read.behind;
                Ok(Next::Page(read.page))
            }
            Err(stop) => {
                self.over = true;
                match stop {
                    Stop::End => Ok(Next::End),
                    Stop::Trailing => Ok(Next::Trailing),
                    Stop::Fault(fault) => Err(fault),
                }
            }
        }
    }
}
