//! Paths that are known, each with what was found of it.
ghost use Rattle.std.specs.Prelude.{◌≡◌, ◌<◌, ◌++◌, ◌∷◌, [], Contains, IfOk, IfSome, OnErr, OnOk, length};
ghost use Rattle.path_copies.specs.Copy.{IsCopy};

use crate::compare::is_copy;
use crate::key::{Key, key_of};
use pt_core::{NoMemory, Point, Sequence};
use std::alloc::Global;
use std::marker::Model;

/// For fewer paths nothing is kept.
const FEW: usize = 8;

/// The most places: a list of them takes 32 KiB.
const MOST_PLACES: usize = 1 << 12;

/// What is kept takes the room of at most so many points, 1 MiB.
const MOST_HELD: usize = 1 << 17;

/// What stands at the place of a key.
#[derive(Clone, Copy)]
struct Place {
    /// The number of the known path that stands here, counted from 1, or 0.
    known: u32,
    /// The mark of the last path that came here and wasn't kept.
    seen: u32,
}

/// A path, and what was found of it.
#[derive(Drop)]
pub struct KnownPath<T> {
    pub points: Sequence<Point>,
    pub found: T,
}

/// Paths with what was found of each, to be taken for their copies. Contracts see the list.
//
// A path is kept once the first copy of it comes. So a path that never comes again costs its key and no memory.
#[derive(Drop)]
pub struct KnownPaths<T> {
    /// A power of two of them, or none.
    places: Vec<Place>,
    paths: Vec<KnownPath<T>>,
    /// How many points have the room of what is kept.
    held: usize,
}

impl<T> Model for KnownPaths<T> {
    ghost use Rattle.std.specs.Prelude.{List};
    ghost use Rattle.path_copies.specs.declared.known.KnownPath.{KnownPath};

    ghost Value = { List (KnownPath T) };

    ghost view = { λ known. known.paths.items };
}

impl<T: Drop> KnownPaths<T> {
    /// No path is known yet, of so many that are to come.
    pub fn new(alloc: Global, paths: usize) -> Result<KnownPaths<T>, NoMemory>
        ensures { IfOk result (λ known. known ≡ []) }
    {
        let mut known = KnownPaths::none(alloc);
        if paths >= FEW {
            let none = Place { known: 0, seen: 0 };
            known.places = vec![in alloc; none; paths.min(MOST_PLACES).next_power_of_two()]?;
        }
        Ok(known)
    }

    /// No path is ever known.
    pub fn none(alloc: Global) -> KnownPaths<T>
        ensures { result ≡ [] }
    {
        KnownPaths {
            places: Vec::new(alloc),
            paths: Vec::new(alloc),
            held: 0,
        }
    }

    /// The key of a path, if paths are kept.
    pub fn key(&self, points: &[Point]) -> Option<Key> {
        if self.places.is_empty() {
            return None;
        }
        Some(key_of(points, self.places.len()))
    }

    /// A known path that this one, which has the key, is a copy of.
    pub fn find(&self, key: Key, points: &[Point]) -> Option<&KnownPath<T>>
        requires some { 0 < length points.now }
        ensures known { IfSome result (λ path. Contains self.now path.now) }
        ensures copy { IfSome result (λ path. IsCopy path.now.points points.now) }
    {
        if key.place >= self.places.len() {
            return None;
        }
        let number = self.places[key.place].known as usize;
        if number == 0 || number > self.paths.len() {
            return None;
        }
        let path = &self.paths[number - 1];
        if !is_copy(path.points.as_slice(), points) {
            return None;
        }
        Some(path)
    }

    /// Whether a path with this key, which isn't known, is to be kept, as one with its mark came to its place before and
    /// there is room for it: that of so many points, which then is taken.
    pub fn is_due(&mut self, key: Key, room: usize) -> bool
        ensures { self.new ≡ self.old }
    {
        if key.place >= self.places.len() {
            return false;
        }
        if self.places[key.place].seen != key.mark {
            self.places[key.place].seen = key.mark;
            return false;
        }
        let held = self.held.saturating_add(room);
        if held > MOST_HELD {
            return false;
        }
        self.held = held;
        true
    }

    /// Keeps a path with this key, and what was found of it.
    pub fn keep(
        &mut self,
        alloc: Global,
        key: Key,
        points: &[Point],
        found: T,
    ) -> Result<(), NoMemory>
        ensures kept { OnOk result
            (self.new ≡ self.old ++ record { points = points.now; found = found } ∷ []) }
        ensures same { OnErr result (self.new ≡ self.old) }
    {
        let mut copy = Vec::new(alloc);
        copy.extend_from_slice(points)?;
        let points = Sequence::from_vec(copy);
        self.paths.push(KnownPath { points, found })?;
        if key.place < self.places.len() {
            self.places[key.place].known = u32::try_from(self.paths.len()).unwrap_or(0);
        }
        Ok(())
    }
}
