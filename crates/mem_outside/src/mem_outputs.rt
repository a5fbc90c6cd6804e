//! Outputs in memory, for tests: documents that a test can inspect, and faults on demand.
ghost use Rattle.std.specs.Prelude.{◌≡◌, ◌+◌, ◌-◌, ◌<◌, ◌≤◌, ◌↔◌, ◌++◌, ◌∷◌, [], Some, None, true, false, length, take, min, IsTrue, IfOk, IfSome, OnOk, OnErr, IsErr, slice_get};
ghost use Rattle.pt_core.specs.Counts.{last_count, next_count};
ghost use Rattle.pt_core.specs.Inner.Documents.{no_documents, listed};
ghost use Rattle.pt_core.specs.Documents.{grown};
ghost use Rattle.mem_outside.specs.MemOutputs.{IsBeginDue, IsWriteDue, IsEndDue};

use crate::shelf::Shelf;
use pt_core::{DeviceFault, NoMemory, Outputs, Sink};
use std::alloc::Global;
use std::marker::Model;

/// A call of `MemOutputs` that is to fail: a method, and the number of its call, counted from 1.
#[derive(Clone, Copy, Debug, PartialEq, Eq)]
pub enum OutCall {
    Begin(u64),
    Write(u64),
    End(u64),
}

/// Outputs in memory. Each listed call fails, a `begin` beyond the capacity, and a `write` if no byte is free; no other
/// call does.
//
// All memory is allocated when the outputs are made, so that writing allocates none, as with real files.
#[derive(Debug, Drop)]
pub struct MemOutputs {
    shelf: Shelf,
    most: usize,
    fails: Vec<OutCall>,
    begins: u64,
    writes: u64,
    ends: u64,
    faults: u64,
    broken: bool,
}

impl Model for MemOutputs {
    ghost use Rattle.std.specs.Prelude.{◌≤◌};
    ghost use Rattle.mem_outside.specs.MemOutputs.{OutputsState};

    ghost Value = { OutputsState };

    ghost view = { λ s. record {
      documents = s.shelf.documents;
      free_documents = s.shelf.free_documents;
      free_bytes = s.shelf.free_bytes;
      most = s.most;
      fails = s.fails.items;
      begins = s.begins;
      writes = s.writes;
      ends = s.ends;
      faults = s.faults;
      broken = s.broken;
    } };

    ghost invariant = { λ s. 1 ≤ s.most };
}

impl MemOutputs {
    /// Outputs with a capacity of this number of documents, and of this number of bytes for their names and texts
    /// together. A write takes at most `most` bytes, and the listed calls fail.
    pub fn new(
        alloc: Global,
        most: u32,
        fails: Vec<OutCall>,
        documents: u32,
        bytes: u32,
    ) -> Result<MemOutputs, NoMemory>
        requires { 1 ≤ most }
        ensures { IfOk result (λ outs. outs ≡ record {
          documents = no_documents;
          free_documents = documents;
          free_bytes = bytes;
          most = most;
          fails = fails.items;
          begins = 0;
          writes = 0;
          ends = 0;
          faults = 0;
          broken = false;
        }) }
    {
        Ok(MemOutputs {
            shelf: Shelf::new(alloc, documents, bytes)?,
            most: most as usize,
            fails,
            begins: 0,
            writes: 0,
            ends: 0,
            faults: 0,
            broken: false,
        })
    }

    /// The number of documents, including the open one.
    pub fn count(&self) -> u32
        ensures { result ≡ length (listed self.now.documents) }
    {
        self.shelf.count()
    }

    /// The name of document i, counted from 0.
    pub fn name(&self, i: u32) -> &[u8]
        requires { i < length (listed self.now.documents) }
        ensures { IfSome (slice_get (listed self.now.documents) i)
            (λ document. result.now ≡ document.name) }
    {
        self.shelf.name(i as usize)
    }

    /// The bytes of document i, counted from 0.
    pub fn text(&self, i: u32) -> &[u8]
        requires { i < length (listed self.now.documents) }
        ensures { IfSome (slice_get (listed self.now.documents) i)
            (λ document. result.now ≡ document.bytes) }
    {
        self.shelf.text(i as usize)
    }

    /// Whether document i, counted from 0, is whole.
    pub fn whole(&self, i: u32) -> bool
        ensures { IsTrue result ↔ (i < length self.now.documents.whole) }
    {
        self.shelf.whole(i as usize)
    }
}

impl Sink for MemOutputs {
    ghost use Rattle.std.specs.Prelude.{Some, is_some, refl};
    ghost use Rattle.std.proofs.Common.{rules};

    ghost faults = { λ s. min s.faults last_count };

    ghost failures = { λ s. record { count = min s.faults last_count; is_last = s.broken } };

    ghost is_ready = { λ s. is_some s.documents.last_open };

    ghost documents = { λ s. Some s.documents };

    fn write(&mut self, piece: &[u8]) -> Result<usize, DeviceFault>
        requires ready { is_some self.old.documents.last_open ≡ true }
        requires some { 0 < length piece.now }
        ensures exact { IsErr result ↔ IsWriteDue self.old }
        ensures ok { IfOk result
            (λ n. (n ≡ min (length piece.now) (min self.old.most self.old.free_bytes))
            × (0 < n)
            × (self.new ≡ record self.old {
              documents = record self.old.documents { last_open = grown self.old.documents.last_open (take n piece.now) };
              free_bytes = self.old.free_bytes - n;
              writes = next_count self.old.writes;
              broken = false;
            })) }
        ensures err { OnErr result
            (self.new
            ≡ record self.old
            { writes = next_count self.old.writes; faults = next_count self.old.faults; broken = true }) }
    {
        self.writes = self.writes.saturating_add(1);
        let free = self.shelf.free_bytes();
        if free == 0 || self.fails.contains(&OutCall::Write(self.writes)) {
            self.faults = self.faults.saturating_add(1);
            self.broken = true;
            return Err(DeviceFault);
        }
        let n = piece.len().min(self.most.min(free));
        self.broken = false;
        self.shelf.add(&piece[..n]);
        Ok(n)
    }

    ghost counted = { Prim.search rules };

    ghost ready_is_open = { λ _. refl };
}

impl Outputs for MemOutputs {
    ghost use Rattle.std.specs.Prelude.{Some, is_some};

    fn begin(&mut self, name: &str) -> Result<(), DeviceFault>
        requires { is_some self.old.documents.last_open ≡ false }
        ensures exact { IsErr result ↔ IsBeginDue self.old name.now }
        ensures ok { OnOk result (self.new ≡ record self.old {
          documents = record self.old.documents { last_open = Some (record { name = name.now; bytes = [] }) };
          free_documents = self.old.free_documents - 1;
          free_bytes = self.old.free_bytes - length name.now;
          begins = next_count self.old.begins;
          broken = false;
        }) }
        ensures err { OnErr result
            (self.new
            ≡ record self.old
            { begins = next_count self.old.begins; faults = next_count self.old.faults; broken = true }) }
    {
        self.begins = self.begins.saturating_add(1);
        let bytes = name.as_bytes();
        if !self.shelf.has_room()
            || self.shelf.free_bytes() < bytes.len()
            || self.fails.contains(&OutCall::Begin(self.begins))
        {
            self.faults = self.faults.saturating_add(1);
            self.broken = true;
            return Err(DeviceFault);
        }
        self.broken = false;
        self.shelf.begin(bytes);
        Ok(())
    }

    fn end(&mut self) -> Result<(), DeviceFault>
        requires { is_some self.old.documents.last_open ≡ true }
        ensures exact { IsErr result ↔ IsEndDue self.old }
        ensures ok { OnOk result (self.new ≡ record self.old {
          documents = record { whole = listed self.old.documents; last_open = None };
          ends = next_count self.old.ends;
          broken = false;
        }) }
        ensures err { OnErr result
            (self.new
            ≡ record self.old
            { ends = next_count self.old.ends; faults = next_count self.old.faults; broken = true }) }
    {
        self.ends = self.ends.saturating_add(1);
        if self.fails.contains(&OutCall::End(self.ends)) {
            self.faults = self.faults.saturating_add(1);
            self.broken = true;
            return Err(DeviceFault);
        }
        self.broken = false;
        self.shelf.end();
        Ok(())
    }
}
