//! Buffers for joining an outline.
ghost use Rattle.std.specs.Prelude.{◌≡◌, All, IfOk, length};

use crate::bend::Bend;
use pt_core::{NoMemory, Piece, Point};
use std::alloc::Global;

/// Lists that are reused from one outline to the next. What they hold between two calls doesn't matter.
//
// A page of text has thousands of small outlines, and allocating five lists for each took as long as computing their
// curves.
#[derive(Drop)]
pub struct JoinRoom {
    pub(crate) bends: Vec<Bend>,
    pub(crate) areas: Vec<i128>,
    pub(crate) counts: Vec<u32>,
    pub(crate) costs: Vec<u128>,
    pub(crate) nexts: Vec<u32>,
    pub(crate) joined: Vec<JoinedRun>,
}

impl JoinRoom {
    /// Empty lists, which grow as outlines need it.
    pub fn new(alloc: Global) -> JoinRoom {
        JoinRoom {
            bends: Vec::new(alloc),
            areas: Vec::new(alloc),
            counts: Vec::new(alloc),
            costs: Vec::new(alloc),
            nexts: Vec::new(alloc),
            joined: Vec::new(alloc),
        }
    }
}

/// A run and the piece that replaces it.
#[derive(Clone, Copy, Drop)]
pub(crate) struct JoinedRun {
    /// The index after the run's last piece; 0 if no run was found.
    pub to: u32,
    pub piece: Piece,
}

/// A list of `places` entries without runs, in the memory of `list`.
pub(crate) fn without_runs(
    mut list: Vec<JoinedRun>,
    places: usize,
) -> Result<Vec<JoinedRun>, NoMemory>
    ensures places { IfOk result (λ list. length list.items ≡ places) }
    ensures none { IfOk result (λ list. All (λ run. run.to ≡ 0) list.items) }
{
    let origin = Point { x: 0, y: 0 };
    let piece = Piece::Corner {
        at: origin,
        end: origin,
    };
    list.clear();
    list.resize(places, JoinedRun { to: 0, piece })?;
    Ok(list)
}

/// A list of `places` entries, in the memory of `list`. New entries hold `value`, and old ones keep what they hold.
pub(crate) fn with_places<T: Copy + Drop>(
    mut list: Vec<T>,
    places: usize,
    value: T,
) -> Result<Vec<T>, NoMemory>
    ensures { IfOk result (λ list. length list.items ≡ places) }
{
    list.resize(places, value)?;
    Ok(list)
}
