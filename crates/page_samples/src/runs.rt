//! The parts of a run in memory, and its results.
ghost use Rattle.std.specs.Prelude.{◌≡◌, IfOk, string_bytes};

use mem_outside::{MemOutputs, NamedBytes};
use pt_core::NoMemory;
use std::alloc::Global;

/// A list of one call, or of none.
pub fn listed<T: Copy>(alloc: Global, call: Option<T>) -> Result<Vec<T>, NoMemory> {
    let mut calls = Vec::new(alloc);
    if let Some(call) = call {
        calls.push(call)?;
    }
    Ok(calls)
}

/// A file with this name and these bytes.
pub fn named(alloc: Global, name: &str, bytes: &[u8]) -> Result<NamedBytes, NoMemory>
    ensures { IfOk result (λ file. string_bytes file.name ≡ name.now) }
{
    Ok(NamedBytes {
        name: String::from_str(alloc, name)?,
        bytes: Vec::from_slice(alloc, bytes)?,
    })
}

/// The words of a line. An empty line has none, and two spaces have an empty word between them.
pub fn split(alloc: Global, line: &str) -> Result<Vec<String>, NoMemory> {
    let mut words = Vec::new(alloc);
    if line.is_empty() {
        return Ok(words);
    }
    for word in line.split(' ') {
        words.push(String::from_str(alloc, word)?)?;
    }
    Ok(words)
}

/// The only document, if there is exactly one, and whether it is whole.
pub fn first_of(outs: &MemOutputs) -> Option<(&[u8], bool)> {
    if outs.count() == 1 {
        Some((outs.text(0), outs.whole(0)))
    } else {
        None
    }
}
