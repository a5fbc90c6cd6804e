//! Documents in memory that was allocated at the start.
ghost use Rattle.std.specs.Prelude.{◌≡◌, ◌+◌, ◌-◌, ◌<◌, ◌≤◌, ◌++◌, ◌∷◌, [], None, Some, true, false, length, is_some, IfOk, IfSome, slice_get, slice_index_or, IsTrue, ◌↔◌};
ghost use Rattle.pt_core.specs.Inner.Documents.{no_documents, listed};
ghost use Rattle.pt_core.specs.Documents.{grown, as_list};

use crate::mem_sink::put;
use pt_core::NoMemory;
use std::alloc::Global;
use std::marker::Model;

/// The position of a whole document in the buffer: its name, then its text.
#[derive(Clone, Copy, Debug)]
pub(crate) struct ShelfPlace {
    pub start: usize,
    pub middle: usize,
    pub end: usize,
}

/// Documents in one buffer. The last one may be open.
#[derive(Debug, Drop)]
pub(crate) struct Shelf {
    bytes: Vec<u8>,
    room: usize,
    places: Vec<ShelfPlace>,
    room_for: usize,
    is_open: bool,
    start: usize,
    middle: usize,
}

impl Model for Shelf {
    ghost use Rattle.std.specs.Prelude.{vec_capacity};
    ghost use Rattle.mem_outside.specs.Shelf.{ShelfState, shelf_of, IsHeld};

    ghost Value = { ShelfState };

    ghost view = { λ s. shelf_of s.bytes.items s.room s.places.items s.room_for s.is_open s.start
        s.middle };

    ghost invariant = { λ s. IsHeld s.bytes.items (vec_capacity s.bytes) s.room s.places.items
        (vec_capacity s.places) s.room_for s.is_open s.start s.middle };
}

impl Shelf {
    /// An empty shelf with a capacity of this number of documents and bytes. All its memory is allocated here.
    pub fn new(alloc: Global, documents: u32, bytes: u32) -> Result<Shelf, NoMemory>
        ensures { IfOk result (λ shelf. shelf
            ≡ record { documents = no_documents; free_documents = documents; free_bytes = bytes }) }
    {
        let room = bytes as usize;
        let room_for = documents as usize;
        Ok(Shelf {
            bytes: Vec::with_capacity(alloc, room)?,
            room,
            places: Vec::with_capacity(alloc, room_for)?,
            room_for,
            is_open: false,
            start: 0,
            middle: 0,
        })
    }

    /// The number of free bytes.
    pub fn free_bytes(&self) -> usize
        ensures { result ≡ self.now.free_bytes }
    {
        self.room - self.bytes.len()
    }

    /// Whether there is capacity for one more document.
    pub fn has_room(&self) -> bool
        ensures { IsTrue result ↔ (0 < self.now.free_documents) }
    {
        let taken = if self.is_open {
            self.places.len() + 1
        } else {
            self.places.len()
        };
        taken < self.room_for
    }

    /// Adds an open document with this name.
    pub fn begin(&mut self, name: &[u8])
        requires closed { self.old.documents.last_open ≡ None }
        requires room { 0 < self.old.free_documents }
        requires bytes { length name.now ≤ self.old.free_bytes }
        ensures { self.new ≡ record {
          documents = record { whole = self.old.documents.whole; last_open = Some (record { name = name.now; bytes = [] }) };
          free_documents = self.old.free_documents - 1;
          free_bytes = self.old.free_bytes - length name.now;
        } }
    {
        self.start = self.bytes.len();
        put(&mut self.bytes, name);
        self.middle = self.bytes.len();
        self.is_open = true;
    }

    /// Appends bytes to the open document.
    pub fn add(&mut self, piece: &[u8])
        requires opened { is_some self.old.documents.last_open ≡ true }
        requires bytes { length piece.now ≤ self.old.free_bytes }
        ensures { self.new ≡ record self.old {
          documents = record self.old.documents { last_open = grown self.old.documents.last_open piece.now };
          free_bytes = self.old.free_bytes - length piece.now;
        } }
    {
        put(&mut self.bytes, piece);
    }

    /// Makes the open document whole.
    pub fn end(&mut self)
        requires { is_some self.old.documents.last_open ≡ true }
        ensures { self.new ≡ record self.old {
          documents = record { whole = listed self.old.documents; last_open = None };
        } }
    {
        let place = ShelfPlace {
            start: self.start,
            middle: self.middle,
            end: self.bytes.len(),
        };
        self.places.push_reserved(place);
        self.is_open = false;
    }

    /// The number of documents.
    pub fn count(&self) -> u32
        ensures { result ≡ length (listed self.now.documents) }
    {
        let whole = self.places.len() as u32;
        if self.is_open { whole + 1 } else { whole }
    }

    /// The name of document i.
    pub fn name(&self, i: usize) -> &[u8]
        requires { i < length (listed self.now.documents) }
        ensures { IfSome (slice_get (listed self.now.documents) i)
            (λ document. result.now ≡ document.name) }
    {
        let place = place_at(&self.places, self.start, self.middle, self.bytes.len(), i);
        &self.bytes[place.start..place.middle]
    }

    /// The bytes of document i.
    pub fn text(&self, i: usize) -> &[u8]
        requires { i < length (listed self.now.documents) }
        ensures { IfSome (slice_get (listed self.now.documents) i)
            (λ document. result.now ≡ document.bytes) }
    {
        let place = place_at(&self.places, self.start, self.middle, self.bytes.len(), i);
        &self.bytes[place.middle..place.end]
    }

    /// Whether document i is whole.
    pub fn whole(&self, i: usize) -> bool
        ensures { IsTrue result ↔ (i < length self.now.documents.whole) }
    {
        i < self.places.len()
    }
}

/// The position of document i. The open document reaches to the end of the buffer.
fn place_at(places: &[ShelfPlace], start: usize, middle: usize, end: usize, i: usize) -> ShelfPlace
    ensures { result ≡ slice_index_or places.now i
        (record { start = start; middle = middle; end = end }) }
{
    if i < places.len() {
        places[i]
    } else {
        ShelfPlace { start, middle, end }
    }
}
