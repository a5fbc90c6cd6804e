//! The reader of a gray page, row by row.
ghost use Rattle.std.specs.Prelude.{◌≡◌, ℕ, ◌+◌, ◌*◌, ◌<◌, ◌≤◌, ◌⊎◌, true, false, length, map, IfOk, IfSome, OnOk, IsErrOf};
ghost use Rattle.pt_core.specs.Counts.{Rose};
ghost use Rattle.pt_core.specs.Files.{unread};
ghost use Rattle.bitmap_input.specs.Reading.{AtEnd, cause_of_fault};
ghost use Rattle.bitmap_input.specs.Inner.Reading.{ReadsFrom, HasMemory, TakesNone, cause_of};
ghost use Rattle.bitmap_input.specs.GrayRows.{gray_header, gray_row, lowered};
ghost use Rattle.bitmap_input.specs.GrayReader.{gray_at_start, GivesHead, GivesRow, Refuses, FailsToRead, IfRefused, TellsHead, TellsRow, RefusesPart, held_of};
ghost use Rattle.bitmap_input.specs.Inner.GrayReader.{IsNoFault};

use crate::buffer::Buffer;
use crate::channels::Channels;
use crate::fault::InFault;
use crate::gray_rows::{read_gray_header, read_plain_gray_row, read_raw_gray_row};
use crate::header::GREATEST_MAXVAL;
use crate::samples::row_bytes;
use crate::stop::Stop;
use pt_core::{Inputs, LONGEST_SIDE, NoMemory};
use std::alloc::Global;
use std::marker::Model;

/// The sides of a gray page in pixels, and the sample for white.
#[derive(Clone, Copy, Debug, PartialEq, Eq)]
pub struct GrayHead {
    pub width: u32,
    pub height: u32,
    pub maxval: u32,
}

/// A reader of a gray page that is the first page of the open file. It reads the head, and then one row after
/// another from the top.
#[derive(Debug, Drop)]
pub struct GrayReader {
    buffer: Buffer,
    // A buffer for the bytes of a row.
    line: Vec<u8>,
    head: GrayHead,
    plain: bool,
    given: u32,
    failed: bool,
}

impl Model for GrayReader {
    ghost use Rattle.std.specs.Prelude.{◌≡◌, ◌≤◌, ◌*◌, length};
    ghost use Rattle.pt_core.specs.declared.limits.TheConstants.{LONGEST_SIDE};
    ghost use Rattle.bitmap_input.specs.GrayReader.{GraySource};

    ghost Value = { GraySource };

    ghost view = { λ r. record {
      bytes = r.buffer.bytes;
      head = r.head;
      plain = r.plain;
      given = r.given;
      ended = r.buffer.ended;
      failed = r.failed;
    } };

    ghost invariant = { λ r. (length r.buffer.bytes ≤ 65536)
        × (length r.line.items ≡ 2 * LONGEST_SIDE)
        × (r.head.width ≤ LONGEST_SIDE) };
}

impl GrayReader {
    /// A reader at the beginning of a file. It has a buffer that grows to 16,384 bytes, and another one for the
    /// bytes of a row.
    pub fn new(alloc: Global) -> Result<GrayReader, NoMemory>
        ensures { IfOk result (λ reader. reader ≡ gray_at_start) }
    {
        let buffer = Buffer::new(alloc)?;
        let line = vec![in alloc; 0u8; 2 * LONGEST_SIDE as usize]?;
        Ok(GrayReader {
            buffer,
            line,
            head: GrayHead {
                width: 0,
                height: 0,
                maxval: 0,
            },
            plain: false,
            given: 0,
            failed: false,
        })
    }

    /// Reads the head of the page. The page has to be a plain or raw PGM.
    pub fn head<I: Inputs>(&mut self, inputs: &mut I) -> Result<GrayHead, InFault>
        requires opened { I.is_opened inputs.old ≡ true }
        requires first { self.old ≡ gray_at_start }

        // What each result says of the bytes that were read, and that it needed them.
        ensures ok { IfOk result (λ head. GivesHead self.old (I.files inputs.old) head self.new
            (I.files inputs.new)) }
        ensures refused { IfRefused result (λ kind. Refuses gray_header kind self.old
            (I.files inputs.old) self.new (I.files inputs.new)) }
        ensures read_fault { IsErrOf result InFault.ReadFault → FailsToRead gray_header self.old
            (I.files inputs.old) self.new (I.files inputs.new) }

        // What each result says of the whole rest of the file, if that is known.
        ensures told { IfSome (unread (I.files inputs.old)) (λ rest. IfOk result
            (λ head. TellsHead self.old rest head self.new (I.files inputs.new))) }
        ensures told_refusal { IfSome (unread (I.files inputs.old)) (λ rest. IfRefused result
            (λ kind. RefusesPart gray_header kind (held_of self.old) rest)) }

        // The head is in range.
        ensures width { IfOk result (λ h. (1 ≤ h.width) × (h.width ≤ LONGEST_SIDE)) }
        ensures height { IfOk result (λ h. (1 ≤ h.height) × (h.height ≤ LONGEST_SIDE)) }
        ensures maxval { IfOk result (λ h. (1 ≤ h.maxval) × (h.maxval ≤ GREATEST_MAXVAL)) }

        // The inputs' count of faults rises only after a read fault.
        ensures steady { OnOk result (I.faults inputs.new ≡ I.faults inputs.old) }
        ensures steady_refusal { IfRefused result (λ _. I.faults inputs.new ≡ I.faults inputs.old) }
        ensures cause { IsErrOf result InFault.ReadFault
            → Rose (I.faults inputs.old) (I.faults inputs.new) }
        ensures never_falls { I.faults inputs.old ≤ I.faults inputs.new }

        // No memory is allocated.
        ensures free { IsErrOf result InFault.NoMemory → ⊥ }

        ensures still_at_end { self.new.ended ≡ true → AtEnd (I.files inputs.new) }
        ensures within { length self.new.bytes ≤ 65536 }
        ensures stays_opened { I.is_opened inputs.new ≡ true }
        ensures same_openings { I.openings inputs.new ≡ I.openings inputs.old }
    {
        let answer = read_gray_header(&mut self.buffer, inputs);
        self.buffer.bounded();
        match answer {
            Ok(header) => {
                self.head = GrayHead {
                    width: header.width,
                    height: header.height,
                    maxval: header.maxval,
                };
                self.plain = header.plain;
                Ok(self.head)
            }
            Err(stop) => {
                self.failed = true;
                Err(fault_of(stop))
            }
        }
    }

    /// Reads the next row, from the top, and stores its samples in `row`. In a plain page, a sample above 65535
    /// is stored as 65535.
    pub fn row<I: Inputs>(&mut self, inputs: &mut I, row: &mut [u16]) -> Result<(), InFault>
        requires opened { I.is_opened inputs.old ≡ true }
        requires at_end { self.old.ended ≡ true → AtEnd (I.files inputs.old) }
        requires going_on { self.old.failed ≡ false }
        requires rows { self.old.given < self.old.head.height }
        requires width { length row.old ≡ self.old.head.width }

        // What each result says of the bytes that were read, and that it needed them.
        ensures ok { IfOk result (λ _. GivesRow self.old (I.files inputs.old) row.new self.new
            (I.files inputs.new)) }
        ensures refused { IfRefused result (λ kind. Refuses
            (gray_row self.old.plain self.old.head.maxval self.old.head.width) kind self.old
            (I.files inputs.old) self.new (I.files inputs.new)) }
        ensures read_fault { IsErrOf result InFault.ReadFault → FailsToRead
            (gray_row self.old.plain self.old.head.maxval self.old.head.width) self.old
            (I.files inputs.old) self.new (I.files inputs.new) }

        // What each result says of the whole rest of the file, if that is known.
        ensures told { IfSome (unread (I.files inputs.old)) (λ rest. IfOk result
            (λ _. TellsRow self.old rest row.new self.new (I.files inputs.new))) }
        ensures told_refusal { IfSome (unread (I.files inputs.old)) (λ rest. IfRefused result
            (λ kind. RefusesPart (gray_row self.old.plain self.old.head.maxval self.old.head.width)
            kind (held_of self.old) rest)) }

        // The inputs' count of faults rises only after a read fault.
        ensures steady { OnOk result (I.faults inputs.new ≡ I.faults inputs.old) }
        ensures steady_refusal { IfRefused result (λ _. I.faults inputs.new ≡ I.faults inputs.old) }
        ensures cause { IsErrOf result InFault.ReadFault
            → Rose (I.faults inputs.old) (I.faults inputs.new) }
        ensures never_falls { I.faults inputs.old ≤ I.faults inputs.new }

        // No memory is allocated.
        ensures free { IsErrOf result InFault.NoMemory → ⊥ }

        ensures same_room { length row.new ≡ length row.old }
        ensures still_at_end { self.new.ended ≡ true → AtEnd (I.files inputs.new) }
        ensures within { length self.new.bytes ≤ 65536 }
        ensures stays_opened { I.is_opened inputs.new ≡ true }
        ensures same_openings { I.openings inputs.new ≡ I.openings inputs.old }
    {
        let answer = read_samples(
            &mut self.buffer,
            inputs,
            self.plain,
            self.head.maxval,
            &mut self.line,
            row,
        );
        self.buffer.bounded();
        match answer {
            Ok(()) => {
                self.given += 1;
                Ok(())
            }
            Err(stop) => {
                self.failed = true;
                Err(fault_of(stop))
            }
        }
    }
}

/// The fault that stopped reading. The reader stops after its first page, so it never reports the end of a
/// file's pages.
fn fault_of(stop: Stop) -> InFault
    requires { HasMemory (cause_of stop) }
    ensures told { (cause_of_fault result ≡ cause_of stop) ⊎ IsNoFault (cause_of stop) }
    ensures free { HasMemory (cause_of_fault result) }
{
    match stop {
        Stop::Fault(fault) => fault,
        Stop::End => InFault::UnknownFormat,
        Stop::Trailing => InFault::UnknownFormat,
    }
}

/// Reads one row of a gray page. `line` is a buffer for its bytes.
fn read_samples<I: Inputs>(
    buffer: &mut Buffer,
    inputs: &mut I,
    plain: bool,
    maxval: u32,
    line: &mut [u8],
    row: &mut [u16],
) -> Result<(), Stop>
    requires opened { I.is_opened inputs.old ≡ true }
    requires line { length line.old ≡ 2 * LONGEST_SIDE }
    requires width { length row.old ≤ LONGEST_SIDE }
    ensures reads { ReadsFrom I.Inputs (λ _ values. row.new ≡ map lowered values) (gray_row plain
        maxval (length row.old)) buffer.old inputs.old result buffer.new inputs.new }
    ensures free { TakesNone result }
    ensures same_room { length row.new ≡ length row.old }
    ensures same_line { length line.new ≡ length line.old }
{
    if plain {
        read_plain_gray_row(buffer, inputs, row)
    } else {
        let bytes = row_bytes(Channels::Gray, row.len() as u32, maxval);
        read_raw_gray_row(buffer, inputs, maxval, &mut line[..bytes], row)
    }
}
