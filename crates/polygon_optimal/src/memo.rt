//! What was found of other walks.
use polygon_search::SearchRoom;
use prefix_moments::{Moments, MomentsRoom, Roots};
use pt_core::NoMemory;
use std::alloc::Global;
use straight_paths::Memo;

/// What was found of the polygons of other walks: how many of the next few steps are straight, and roots. It also keeps
/// the lists that a search takes.
#[derive(Drop)]
pub struct PolygonMemo {
    pub(crate) reach: Memo,
    pub(crate) roots: Roots,
    pub(crate) room: SearchRoom,
}

impl PolygonMemo {
    /// Nothing was found yet.
    pub fn new(alloc: Global) -> Result<PolygonMemo, NoMemory> {
        let reach = Memo::new(alloc)?;
        let roots = Roots::new(alloc)?;
        Ok(PolygonMemo {
            reach,
            roots,
            room: SearchRoom::new(alloc),
        })
    }

    /// It keeps roots, and nothing of the steps.
    pub fn of_roots(alloc: Global) -> Result<PolygonMemo, NoMemory> {
        let roots = Roots::new(alloc)?;
        Ok(PolygonMemo {
            reach: Memo::none(alloc),
            roots,
            room: SearchRoom::new(alloc),
        })
    }

    /// It keeps nothing, as serves where the polygon of a short walk is looked for alone.
    pub fn none(alloc: Global) -> PolygonMemo {
        PolygonMemo {
            reach: Memo::none(alloc),
            roots: Roots::none(alloc),
            room: SearchRoom::new(alloc),
        }
    }

    /// Room for the sums of a walk, as far as it is kept.
    pub fn take_moments(&mut self, alloc: Global) -> MomentsRoom {
        self.room.take_moments(alloc)
    }

    /// Keeps the room of a walk's sums, which are no longer asked, for the next walk.
    pub fn keep(&mut self, moments: Moments) {
        self.room.keep(moments);
    }
}
