//! A buffer of bytes that were read and not used yet.
ghost use Rattle.std.specs.Prelude.{◌≡◌, ℕ, ◌≤◌, ◌<◌, true, false, length, take, drop, [], ◌∷◌, ◌++◌, IfOk};
ghost use Rattle.bitmap_input.specs.Inner.Buffer.{IsFirst, Fills, CountsRead, Looks, CountsLook};
ghost use Rattle.bitmap_input.specs.Inner.Reading.{LeavesCounting};

use pt_core::{DeviceFault, Inputs, NoMemory};
use std::alloc::Global;
use std::marker::Model;

/// The size of the buffer, which bounds how far the reader reads ahead.
//
// It is a quarter of what the contracts allow. The other three quarters would cost twelve page faults, which
// take a small page longer than the extra system calls.
pub(crate) const ROOM: usize = 16384;

/// The size of the first block. Most small files aren't larger, and clearing a larger buffer would be a fifth
/// of the work for them.
const FIRST_ROOM: usize = 4096;

/// A buffer of bytes between the inputs and the steps of the reader.
#[derive(Debug, Drop)]
pub(crate) struct Buffer {
    buf: Vec<u8>,
    start: usize,
    end: usize,
    ended: bool,
}

impl Model for Buffer {
    ghost use Rattle.std.specs.Prelude.{◌≡◌, ◌<◌, ◌≤◌, ◌-◌, length, take, drop};
    ghost use Rattle.bitmap_input.specs.Reading.{Buffered};
    ghost use Rattle.bitmap_input.specs.declared.buffer.TheConstants.{ROOM};

    ghost Value = { Buffered };

    ghost view = { λ w. record {
      bytes = take (w.end - w.start)
          (drop w.start w.buf.items);
      ended = w.ended;
    } };

    ghost invariant = { λ w. (w.start ≤ w.end) × (w.end ≤ length w.buf.items)
        × (0 < length w.buf.items) × (length w.buf.items ≤ ROOM) };
}

/// The next byte that hasn't been used, if there is one.
#[derive(Clone, Copy)]
pub(crate) enum Look {
    Byte(u8),
    /// The file has no more bytes.
    End,
    /// The next byte couldn't be read.
    Fault,
}

impl Buffer {
    pub(crate) fn new(alloc: Global) -> Result<Buffer, NoMemory>
        ensures { IfOk result (λ w. w ≡ record { bytes = []; ended = false }) }
    {
        let buf = vec![in alloc; 0u8; FIRST_ROOM]?;
        Ok(Buffer {
            buf,
            start: 0,
            end: 0,
            ended: false,
        })
    }

    /// Empties the buffer for a new file.
    pub(crate) fn clear(&mut self)
        ensures { self.new ≡ record { bytes = []; ended = false } }
    {
        self.start = 0;
        self.end = 0;
        self.ended = false;
    }

    /// Shows that the buffer never holds more bytes than fit.
    pub(crate) fn bounded(&self)
        ensures { length self.now.bytes ≤ 65536 }
    {
        let _start = &self.start;
    }

    /// Reads the next bytes from the inputs. The buffer is empty before.
    #[cold]
    #[inline(never)]
    fn fill<I: Inputs>(&mut self, inputs: &mut I) -> Result<(), DeviceFault>
        requires opened { I.is_opened inputs.old ≡ true }
        requires none_left { self.old.bytes ≡ [] }
        requires going_on { self.old.ended ≡ false }
        ensures fills { Fills self.old (I.files inputs.old) result self.new (I.files inputs.new) }
        ensures leaves { LeavesCounting I.Inputs (CountsRead result) inputs.old inputs.new }
    {
        self.widen();
        let n = inputs.read(&mut self.buf)?;
        self.start = 0;
        self.end = n;
        self.ended = n == 0;
        Ok(())
    }

    /// Doubles the size of the buffer, if the last block filled it.
    //
    // If memory runs out, the size stays as it is, and the file is read in smaller blocks.
    fn widen(&mut self)
        requires { self.old.bytes ≡ [] }
        ensures { self.new ≡ self.old }
    {
        if self.end == self.buf.len() {
            let _ = self.buf.resize((2 * self.buf.len()).min(ROOM), 0);
        }
    }

    /// The first byte in the buffer, if there is one.
    fn first(&self) -> Option<u8>
        ensures { IsFirst self.now.bytes result }
    {
        if self.start < self.end {
            Some(self.buf[self.start])
        } else {
            None
        }
    }

    /// The next byte. It stays in the buffer.
    #[inline(always)]
    pub(crate) fn look<I: Inputs>(&mut self, inputs: &mut I) -> Look
        requires { I.is_opened inputs.old ≡ true }
        ensures looks { Looks self.old (I.files inputs.old) result self.new (I.files inputs.new) }
        ensures leaves { LeavesCounting I.Inputs (CountsLook result) inputs.old inputs.new }
    {
        if let Some(byte) = self.first() {
            return Look::Byte(byte);
        }
        if self.ended {
            return Look::End;
        }
        match self.fill(inputs) {
            Ok(()) => match self.first() {
                Some(byte) => Look::Byte(byte),
                None => Look::End,
            },
            Err(_) => Look::Fault,
        }
    }

    /// Skips the first byte in the buffer.
    pub(crate) fn pass(&mut self)
        requires { 0 < length self.old.bytes }
        ensures bytes { self.new.bytes ≡ drop 1 self.old.bytes }
        ensures ended { self.new.ended ≡ self.old.ended }
    {
        self.start += 1;
    }

    /// Skips bytes in the buffer, at most `most`, and returns how many it skipped.
    pub(crate) fn pass_some(&mut self, most: u32) -> u32
        ensures within { result ≤ most }
        ensures fits { result ≤ length self.old.bytes }
        ensures some { 0 < most → 0 < length self.old.bytes → 0 < result }
        ensures bytes { self.new.bytes ≡ drop result self.old.bytes }
        ensures ended { self.new.ended ≡ self.old.ended }
    {
        let n = (most as usize).min(self.end - self.start);
        self.start += n;
        n as u32
    }

    /// Copies bytes from the buffer to the beginning of `to`, skips them, and returns how many it copied.
    pub(crate) fn give(&mut self, to: &mut [u8]) -> usize
        ensures within { result ≤ length to.old }
        ensures fits { result ≤ length self.old.bytes }
        ensures some { 0 < length to.old → 0 < length self.old.bytes → 0 < result }
        ensures copied { take result to.new ≡ take result self.old.bytes }
        ensures bytes { self.new.bytes ≡ drop result self.old.bytes }
        ensures ended { self.new.ended ≡ self.old.ended }
    {
        let n = to.len().min(self.end - self.start);
        to[..n].copy_from_slice(&self.buf[self.start..self.start + n]);
        self.start += n;
        n
    }
}
