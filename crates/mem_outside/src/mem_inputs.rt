//! Inputs in memory, for tests: files with names, and faults on demand.
ghost use Rattle.std.specs.Prelude.{◌≡◌, ◌+◌, ◌-◌, ◌^◌, ◌<◌, ◌≤◌, ◌↔◌, ◌++◌, ◌∷◌, [], Some, None, true, false, length, take, drop, min, IsTrue, IsSome, IsNone, IfOk, IfSome, IfNone, OnOk, OnErr, IsErr, IsErrOf, is_some, option_map};
ghost use Rattle.std.specs.FinMap.{get};
ghost use Rattle.pt_core.specs.Counts.{last_count, next_count};
ghost use Rattle.pt_core.specs.Files.{file_at, taken_of, IsFront};
ghost use Rattle.mem_outside.specs.MemInputs.{HaveOwnNames, IsOpenDue, IsReadDue, IsReached, bytes_at, contents_of, opened_at};

use pt_core::{DeviceFault, Inputs, OpenFault};
use std::marker::Model;

/// A file in memory.
#[derive(Debug, Drop)]
pub struct NamedBytes {
    pub name: String,
    pub bytes: Vec<u8>,
}

/// A call of `MemInputs` that is to fail: a method, and the number of its call, counted from 1.
#[derive(Clone, Copy, Debug, PartialEq, Eq)]
pub enum InCall {
    Open(u64),
    Read(u64),
}

/// Inputs in memory. A device fault occurs exactly at each listed `read`, and at each listed `open` of an existing
/// name. An `open` of another name reports that the file is missing.
#[derive(Debug, Drop)]
pub struct MemInputs {
    files: Vec<NamedBytes>,
    is_opened: bool,
    at: usize,
    offset: usize,
    most: usize,
    fails: Vec<InCall>,
    opens: u64,
    reads: u64,
    faults: u64,
}

impl Model for MemInputs {
    ghost use Rattle.std.specs.Prelude.{◌≡◌, ◌≤◌, true};
    ghost use Rattle.mem_outside.specs.MemInputs.{InputsState};

    ghost Value = { InputsState };

    ghost use Rattle.std.specs.Coded.{codes};
    ghost use Rattle.pt_core.specs.Inner.Files.{contents_code};

    ghost coded = { Prim.hlevel (codes, contents_code) };

    ghost use Rattle.mem_outside.specs.MemInputs.{contents_of, opened_of, IsReached};

    ghost view = { λ s. record {
      files = record { contents = contents_of s.files.items; opened = opened_of s.files.items s.is_opened s.at s.offset };
      most = s.most;
      fails = s.fails.items;
      opens = s.opens;
      reads = s.reads;
      faults = s.faults;
    } };

    ghost invariant = { λ s. (1 ≤ s.most)
        × (s.is_opened ≡ true → IsReached s.files.items s.at s.offset) };
}

impl MemInputs {
    /// Inputs with these files, none of them open. A read returns at most `most` bytes, and the listed calls fail.
    pub fn new(files: Vec<NamedBytes>, most: u32, fails: Vec<InCall>) -> MemInputs
        requires some { 1 ≤ most }
        requires own_names { HaveOwnNames files.items }
        ensures { result ≡ record {
          files = record { contents = contents_of files.items; opened = None };
          most = most;
          fails = fails.items;
          opens = 0;
          reads = 0;
          faults = 0;
        } }
    {
        MemInputs {
            files,
            is_opened: false,
            at: 0,
            offset: 0,
            most: most as usize,
            fails,
            opens: 0,
            reads: 0,
            faults: 0,
        }
    }
}

/// The index of the file with this name.
fn place_of(files: &[NamedBytes], name: &str) -> Option<usize>
    ensures none { IfNone result (get (contents_of files.now) name.now ≡ None) }
    ensures some { IfSome result (λ at. opened_at files.now at 0
        ≡ file_at (contents_of files.now) name.now) }
    ensures there { IfSome result (λ at. is_some (get (contents_of files.now) name.now) ≡ true) }
    ensures begun { IfSome result (λ at. IsReached files.now at 0) }
{
    for (i, file) in files.iter().enumerate() {
        if name == file.name.as_str() {
            return Some(i);
        }
    }
    None
}

/// Copies at most `most` bytes of a file into `buf`, from an offset on. Returns the number of bytes.
fn give(files: &[NamedBytes], at: usize, offset: usize, most: usize, buf: &mut [u8]) -> usize
    requires place { at < length files.now }
    requires reached { IsReached files.now at offset }
    requires some { 1 ≤ most }
    ensures given { IfSome (opened_at files.now at offset) (λ file.
        (result ≡ min (length file.rest) (min most (length buf.new)))
        × IsFront file.rest result buf.new) }
    ensures within { offset + result ≤ length (bytes_at files.now at) }
    ensures fits { offset + result < 2 ^ 64 }
    ensures on { IsReached files.now at (offset + result) }
{
    let file = &files[at];
    copy_from(file.bytes.as_slice(), offset, most, buf)
}

/// Copies at most `most` bytes into `buf`, from an offset on. Returns the number of bytes.
fn copy_from(bytes: &[u8], offset: usize, most: usize, buf: &mut [u8]) -> usize
    requires within { offset ≤ length bytes.now }
    requires some { 1 ≤ most }
    ensures count { result ≡ min (length bytes.now - offset) (min most (length buf.new)) }
    ensures same { take result buf.new ≡ take result (drop offset bytes.now) }
{
    copy_front(&bytes[offset..], most, buf)
}

/// Copies at most `most` of the first bytes into `buf`. Returns the number of bytes.
fn copy_front(rest: &[u8], most: usize, buf: &mut [u8]) -> usize
    ensures count { result ≡ min (length rest.now) (min most (length buf.new)) }
    ensures same { take result buf.new ≡ take result rest.now }
{
    let n = rest.len().min(most.min(buf.len()));
    buf[..n].copy_from_slice(&rest[..n]);
    n
}

impl Inputs for MemInputs {
    ghost use Rattle.std.specs.Prelude.{Some, is_some, refl};
    ghost use Rattle.std.proofs.Common.{rules};

    ghost faults = { λ s. min s.faults last_count };

    ghost openings = { λ s. min s.opens last_count };

    ghost is_opened = { λ s. is_some s.files.opened };

    ghost files = { λ s. Some s.files };

    fn open(&mut self, name: &str) -> Result<(), OpenFault>
        ensures absent { IsErrOf result OpenFault.Absent
            ↔ (get self.old.files.contents name.now ≡ None) }
        ensures due { IsErrOf result OpenFault.Device
            ↔ ((is_some (get self.old.files.contents name.now) ≡ true) × IsOpenDue self.old) }
        ensures ok { OnOk result (self.new ≡ record self.old {
          files = record self.old.files { opened = file_at self.old.files.contents name.now };
          opens = next_count self.old.opens;
        }) }
        ensures not_there { IsErrOf result OpenFault.Absent → self.new ≡ record self.old {
          files = record self.old.files { opened = None };
          opens = next_count self.old.opens;
        } }
        ensures failed { IsErrOf result OpenFault.Device → self.new ≡ record self.old {
          files = record self.old.files { opened = None };
          opens = next_count self.old.opens;
          faults = next_count self.old.faults;
        } }
    {
        self.opens = self.opens.saturating_add(1);
        self.is_opened = false;
        match place_of(&self.files, name) {
            None => Err(OpenFault::Absent),
            Some(at) => {
                if self.fails.contains(&InCall::Open(self.opens)) {
                    self.faults = self.faults.saturating_add(1);
                    return Err(OpenFault::Device);
                }
                self.at = at;
                self.offset = 0;
                self.is_opened = true;
                Ok(())
            }
        }
    }

    fn read(&mut self, buf: &mut [u8]) -> Result<usize, DeviceFault>
        requires { is_some self.old.files.opened ≡ true }
        ensures exact { IsErr result ↔ IsReadDue self.old }
        ensures ok { IfOk result (λ n. (IfSome self.old.files.opened (λ file.
            (n ≡ min (length file.rest) (min self.old.most (length buf.new)))
            × IsFront file.rest n buf.new))
            × (self.new ≡ record self.old {
              files = record self.old.files { opened = option_map (taken_of n) self.old.files.opened };
              reads = next_count self.old.reads;
            })) }
        ensures err { OnErr result
            (self.new
            ≡ record self.old
            { reads = next_count self.old.reads; faults = next_count self.old.faults }) }
    {
        self.reads = self.reads.saturating_add(1);
        if self.fails.contains(&InCall::Read(self.reads)) {
            self.faults = self.faults.saturating_add(1);
            return Err(DeviceFault);
        }
        let n = give(&self.files, self.at, self.offset, self.most, buf);
        self.offset += n;
        Ok(n)
    }

    ghost counted = { Prim.search rules };

    ghost openings_counted = { Prim.search rules };

    ghost opened_is_there = { λ _. refl };
}
