//! Words of which most are 0, in blocks of 16: a block takes room only once one of its words isn't 0.
//!
//! ```text
//!     blocks    0         1         2         3
//!     starts    0         16        0         32
//!     words     16 zeros | those of block 1 | those of block 3
//! ```
ghost use Rattle.std.specs.Prelude.{◌≡◌, ◌+◌, ◌*◌, ◌%◌, ◌<◌, ◌^◌, length, replicate, set, slice_index_or, IfOk, OnOk};
ghost use Rattle.boundary_edges.specs.Inner.Blocks.{spread, AreBlocks};

use pt_core::NoMemory;
use std::alloc::Global;
use std::marker::Model;

/// How many words a block has.
pub(crate) const BLOCK: usize = 16;

/// The most words that 32 bits tell the starts of.
const MOST: usize = 1 << 32;

/// Words of which most are 0. Contracts see the list of all of them.
#[derive(Drop)]
pub(crate) struct Blocks {
    /// Where each block begins among the words that take room: white ones at the zeros in front, which they share.
    pub starts: Vec<u32>,
    /// The words that take room.
    pub words: Vec<u64>,
}

impl Model for Blocks {
    ghost use Rattle.std.specs.Prelude.{ℕ, List};
    ghost use Rattle.boundary_edges.specs.Inner.Blocks.{spread, AreBlocks};

    ghost Value = { List ℕ };

    ghost view = { λ a. spread a.starts.items a.words.items };

    ghost invariant = { λ a. AreBlocks a.starts.items a.words.items };
}

impl Blocks {
    /// So many white blocks.
    //
    // There is room for the words of all of them, so that none is copied as they grow. What isn't used of it is never
    // touched.
    pub(crate) fn white(alloc: Global, count: usize) -> Result<Blocks, NoMemory>
        requires { count < 2 ^ 32 }
        ensures { IfOk result (λ blocks. blocks ≡ replicate (BLOCK * count) 0) }
    {
        let starts = vec![in alloc; 0u32; count]?;
        let mut words = Vec::with_capacity(alloc, BLOCK * count + BLOCK)?;
        words.extend_from_slice(&[0; BLOCK])?;
        Ok(Blocks { starts, words })
    }

    /// Where each block begins among the words that take room, and these.
    #[inline(always)]
    pub(crate) fn parts(&self) -> (&[u32], &[u64])
        ensures whole { AreBlocks result.0.now result.1.now }
        ensures same { spread result.0.now result.1.now ≡ self.now }
    {
        (&self.starts, &self.words)
    }

    /// The word at a place.
    #[inline(always)]
    pub(crate) fn get(&self, place: usize) -> u64
        requires { place < length self.now }
        ensures { result ≡ slice_index_or self.now place 0 }
    {
        self.get_in(place / BLOCK, place % BLOCK)
    }

    /// Word i of a block.
    #[inline(always)]
    pub(crate) fn get_in(&self, block: usize, i: usize) -> u64
        requires block { BLOCK * block < length self.now }
        requires word { i < BLOCK }
        ensures { result ≡ slice_index_or self.now (BLOCK * block + i) 0 }
    {
        self.words[self.starts[block] as usize + i]
    }

    /// Puts word i of a block, where i is even, and the next one. The block has room from then on.
    pub(crate) fn put_two(
        &mut self,
        block: usize,
        i: usize,
        first: u64,
        second: u64,
    ) -> Result<(), NoMemory>
        requires block { BLOCK * block < length self.old }
        requires even { i % 2 ≡ 0 }
        requires word { i < BLOCK }
        ensures { OnOk result (self.new
            ≡ set (set self.old (BLOCK * block + i) first) (BLOCK * block + i + 1) second) }
    {
        let at = room_of(&mut self.starts, &mut self.words, block)? + i;
        self.words[at] = first;
        self.words[at + 1] = second;
        Ok(())
    }
}

/// Where a block begins, which is given room if it is white. No word changes.
fn room_of(starts: &mut Vec<u32>, words: &mut Vec<u64>, block: usize) -> Result<usize, NoMemory>
    requires blocks { AreBlocks starts.old.items words.old.items }
    requires block { block < length starts.old.items }
    ensures blocks { AreBlocks starts.new.items words.new.items }
    ensures same { spread starts.new.items words.new.items
        ≡ spread starts.old.items words.old.items }
    ensures start { IfOk result (λ start. (0 < start)
        × (start ≡ slice_index_or starts.new.items block 0)) }
{
    let start = starts[block] as usize;
    if start != 0 {
        return Ok(start);
    }
    let end = words.len();
    if end >= MOST {
        return Err(NoMemory);
    }
    words.extend_from_slice(&[0; BLOCK])?;
    starts[block] = end as u32;
    Ok(end)
}
