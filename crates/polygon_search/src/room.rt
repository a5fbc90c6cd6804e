//! Room for the lists that a search takes.
ghost use Rattle.std.specs.Prelude.{◌≤◌, length, OnOk};

use crate::bounds::Bound;
use prefix_moments::{Moments, MomentsRoom};
use pt_core::NoMemory;
use std::alloc::Global;
use std::mem::replace;

/// From so many points on, a walk's lists are given back after its search: they would be held beside all that is made of
/// the walk later.
const LONG: usize = 1 << 16;

/// Lists that are kept from one walk to the next, whatever stands in them.
//
// A page of text has thousands of short walks, and to make four lists for each took a part of their search.
#[derive(Drop)]
pub struct SearchRoom {
    pub(crate) costs: Vec<u64>,
    pub(crate) nexts: Vec<u32>,
    /// The farthest points after no segment of the last walk, after one, and so on.
    pub farthest: Vec<u32>,
    pub(crate) begins: Vec<u32>,
    pub(crate) bounds: Vec<Bound>,
    pub(crate) rears: Vec<u64>,
    pub(crate) leasts: Vec<u64>,
    /// The list of the sums.
    moments: MomentsRoom,
}

impl SearchRoom {
    /// No room yet: it grows as walks ask for it.
    pub fn new(alloc: Global) -> SearchRoom {
        SearchRoom {
            costs: Vec::new(alloc),
            nexts: Vec::new(alloc),
            farthest: Vec::new(alloc),
            begins: Vec::new(alloc),
            bounds: Vec::new(alloc),
            rears: Vec::new(alloc),
            leasts: Vec::new(alloc),
            moments: MomentsRoom::new(alloc),
        }
    }

    /// Gives the lists back, where they were made for a long walk.
    pub fn give_back_long(&mut self, alloc: Global) {
        if self.nexts.len() > LONG {
            *self = SearchRoom::new(alloc);
        }
    }

    /// Room for the sums of a walk.
    pub fn take_moments(&mut self, alloc: Global) -> MomentsRoom {
        replace(&mut self.moments, MomentsRoom::new(alloc))
    }

    /// Keeps the room of sums that are no longer asked, if it is small: a larger one would be held beside the outline of
    /// its walk.
    pub fn keep(&mut self, moments: Moments) {
        let room = moments.into_room();
        if room.is_small() {
            self.moments = room;
        }
    }
}

/// Makes a list at least so long.
pub(crate) fn make_places<T: Copy + Drop>(
    list: &mut Vec<T>,
    places: usize,
    value: T,
) -> Result<(), NoMemory>
    ensures { OnOk result (places ≤ length list.new.items) }
{
    if list.len() < places {
        list.resize(places, value)?;
    }
    Ok(())
}
