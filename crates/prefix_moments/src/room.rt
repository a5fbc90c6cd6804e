//! Room for the table of a path's sums.
use crate::prefix::Prefix;
use std::alloc::Global;

/// The most rows of a small table, of 32 bytes each.
//
// A larger table was held while lists as long were made for the outline. With four times as many rows, eight maps took 1.04
// of their first uses of memory, as the mean, an engraving 1.08, and seven logos 0.99.
const MOST_SMALL: usize = 1 << 10;

/// The list of a table that is no longer asked: the next path's table is made in it.
#[derive(Drop)]
pub struct MomentsRoom {
    pub(crate) rows: Vec<Prefix>,
}

impl MomentsRoom {
    /// No room yet: it grows as paths ask for it.
    pub fn new(alloc: Global) -> MomentsRoom {
        MomentsRoom {
            rows: Vec::new(alloc),
        }
    }

    /// Whether its table took little memory, 32 KiB at most, as that of a path of up to 1,023 points does.
    pub fn is_small(&self) -> bool {
        self.rows.len() <= MOST_SMALL
    }
}
