//! A sink in memory, for tests: one document without a name, and faults on demand.
ghost use Rattle.std.specs.Prelude.{◌≡◌, ◌+◌, ◌-◌, ◌*◌, ◌<◌, ◌≤◌, ◌↔◌, ◌++◌, [], Some, true, false, length, take, min, vec_capacity, IfOk, OnOk, OnErr, IsErr};
ghost use Rattle.pt_core.specs.Counts.{last_count, next_count};
ghost use Rattle.mem_outside.specs.MemSink.{IsDue};

use pt_core::{DeviceFault, NoMemory, Sink};
use std::alloc::Global;
use std::marker::Model;

/// A sink in memory. It has one document, which has no name and is always open.
///
/// Each listed call fails, and each call if no byte is free; no other call does.
#[derive(Debug, Drop)]
pub struct MemSink {
    bytes: Vec<u8>,
    room: usize,
    most: usize,
    fails: Vec<u64>,
    calls: u64,
    faults: u64,
    broken: bool,
}

impl Model for MemSink {
    ghost use Rattle.std.specs.Prelude.{◌≤◌, length, vec_capacity};
    ghost use Rattle.mem_outside.specs.MemSink.{SinkState};

    ghost Value = { SinkState };

    ghost view = { λ s. record {
      bytes = s.bytes.items;
      room = s.room;
      most = s.most;
      fails = s.fails.items;
      calls =
          s.calls;
      faults = s.faults;
      broken = s.broken;
    } };

    ghost invariant = { λ s. (length s.bytes.items ≤ s.room) × (s.room ≤ vec_capacity s.bytes)
        × (1 ≤ s.most) };
}

impl MemSink {
    /// A sink with a capacity of `bytes` bytes. A write takes at most `most` bytes, and the calls of `write` with the
    /// listed numbers fail, counted from 1.
    pub fn new(alloc: Global, most: u32, fails: Vec<u64>, bytes: u32) -> Result<MemSink, NoMemory>
        requires { 1 ≤ most }
        ensures { IfOk result
            (λ sink. sink
            ≡ record {
              bytes = [];
              room = bytes;
              most = most;
              fails = fails.items;
              calls = 0;
              faults
                  = 0;
              broken = false;
            }) }
    {
        let room = bytes as usize;
        Ok(MemSink {
            bytes: Vec::with_capacity(alloc, room)?,
            room,
            most: most as usize,
            fails,
            calls: 0,
            faults: 0,
            broken: false,
        })
    }

    /// The bytes that were written.
    pub fn text(&self) -> &[u8]
        ensures { result.now ≡ self.now.bytes }
    {
        self.bytes.as_slice()
    }
}

impl Sink for MemSink {
    ghost use Rattle.std.specs.Prelude.{Some, refl};
    ghost use Rattle.std.proofs.Common.{rules};

    ghost faults = { λ s. min s.faults last_count };

    ghost failures = { λ s. record { count = min s.faults last_count; is_last = s.broken } };

    ghost is_ready = { λ _. true };

    ghost documents = { λ s. Some
        (record { whole = []; last_open = Some (record { name = []; bytes = s.bytes }) }) };

    fn write(&mut self, piece: &[u8]) -> Result<usize, DeviceFault>
        requires { 0 < length piece.now }
        ensures exact { IsErr result ↔ IsDue self.old }
        ensures ok { IfOk result
            (λ n. (n ≡ min (length piece.now)
            (min self.old.most (self.old.room - length self.old.bytes)))
            × (0 < n)
            × (self.new ≡ record self.old {
              bytes = self.old.bytes
                  ++ take n piece.now;
              calls = next_count self.old.calls;
              broken = false;
            })) }
        ensures err { OnErr result
            (self.new
            ≡ record self.old
            { calls = next_count self.old.calls; faults = next_count self.old.faults; broken = true }) }
    {
        self.calls = self.calls.saturating_add(1);
        let free = self.room - self.bytes.len();
        if free == 0 || self.fails.contains(&self.calls) {
            self.faults = self.faults.saturating_add(1);
            self.broken = true;
            return Err(DeviceFault);
        }
        let n = piece.len().min(self.most.min(free));
        self.broken = false;
        put(&mut self.bytes, &piece[..n]);
        Ok(n)
    }

    ghost counted = { Prim.search rules };

    ghost ready_is_open = { λ _. refl };
}

/// Appends bytes to a vector that has enough capacity for them.
pub(crate) fn put(bytes: &mut Vec<u8>, piece: &[u8])
    requires { length bytes.old.items + length piece.now ≤ vec_capacity bytes.old }
    ensures items { bytes.new.items ≡ bytes.old.items ++ piece.now }
    ensures room { vec_capacity bytes.old ≤ vec_capacity bytes.new }
{
    bytes.extend_from_slice(piece).unwrap();
}
