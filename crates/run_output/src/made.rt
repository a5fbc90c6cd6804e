//! What a run has made: how many documents of each base name, and from how many pages.
ghost use Rattle.std.specs.Prelude.{◌≡◌, ◌+◌, ◌≤◌, OnErr, OnOk, string_bytes};
ghost use Rattle.run_output.specs.Inner.Made.{documents_of};
ghost use Rattle.run_output.specs.Made.{most_pages, no_past, past_with};
ghost use Rattle.run_output.specs.Names.{count_of};

use pt_core::NoMemory;
use std::alloc::Global;
use std::marker::Model;

/// The documents of one file.
#[derive(Drop)]
struct FileMade {
    base: String,
    documents: u32,
}

impl FileMade {
    /// How many documents of this file have this base name.
    fn count(&self, base: &str) -> u32
        ensures { result ≡ documents_of base.now self.now }
    {
        if self.base.as_str() == base {
            self.documents
        } else {
            0
        }
    }
}

/// The documents that a run has made, and how many pages it read for them. Contracts see the base name of each
/// document, the latest one first, and the number of pages.
///
/// It has one entry for each file, so that names are compared once a file and not once a page.
#[derive(Drop)]
pub struct Made {
    files: Vec<FileMade>,
    pages: u32,
}

impl Model for Made {
    ghost use Rattle.std.specs.Prelude.{◌≤◌, length};
    ghost use Rattle.run_output.specs.Made.{Past};
    ghost use Rattle.run_output.specs.Inner.Made.{made_by};

    ghost Value = { Past };

    ghost view = { λ all. record { made = made_by all.files.items; pages = all.pages } };

    ghost invariant = { λ all. (length (made_by all.files.items) ≤ all.pages) × (all.pages ≤ 65536) };
}

impl Made {
    /// Nothing was made yet.
    pub fn new(alloc: Global) -> Made
        ensures { result ≡ no_past }
    {
        Made {
            files: Vec::new(alloc),
            pages: 0,
        }
    }

    /// How many pages were read.
    pub fn pages(&self) -> u32
        ensures value { result ≡ self.now.pages }
        ensures few { result ≤ most_pages }
    {
        self.pages
    }

    /// How many documents have this base name.
    pub fn count(&self, base: &str) -> u32
        ensures value { result ≡ count_of base.now self.now.made }
        ensures few { result ≤ most_pages }
    {
        let mut count = 0;
        for file in &self.files {
            count += file.count(base);
        }
        count
    }

    /// Records a file that produced `documents` documents from `pages` pages. After an error nothing is recorded.
    pub fn add(&mut self, base: String, documents: u32, pages: u32) -> Result<(), NoMemory>
        requires few { documents ≤ pages }
        requires room { pages + self.old.pages ≤ most_pages }
        ensures added { OnOk result (self.new ≡ past_with (string_bytes base) documents pages self.old) }
        ensures same { OnErr result (self.new ≡ self.old) }
    {
        self.files.push(FileMade { base, documents })?;
        self.pages += pages;
        Ok(())
    }
}
