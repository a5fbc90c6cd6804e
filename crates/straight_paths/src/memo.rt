//! What was found of other paths' next few steps.
use crate::table::Table;
use pt_core::NoMemory;
use std::alloc::Global;
use std::marker::Model;

/// How many of the next few steps are straight, of each way of taking them that was met before, in whichever path. It
/// grows as they are met, up to 65,536 of them and 3 MiB.
//
// On pages of text most straight subpaths have fewer than twenty steps, and the same ways of taking them come again and
// again. So most points are told by one look at a table: from the word of the steps that are straight from the next
// point, and the step in front of it, to the word of those that are straight from here.
#[derive(Drop)]
pub struct Memo {
    pub(crate) table: Table,
}

impl Model for Memo {
    ghost use Rattle.straight_paths.specs.Inner.Tables.{IsWordTable};

    ghost Value = { Unit };

    ghost view = { λ _. tt };

    ghost invariant = { λ memo. IsWordTable memo.table };
}

impl Memo {
    /// Nothing was met yet.
    pub fn new(alloc: Global) -> Result<Memo, NoMemory> {
        let table = Table::new(alloc)?;
        Ok(Memo { table })
    }

    /// It keeps nothing, as serves where a path is measured alone.
    pub fn none(alloc: Global) -> Memo {
        Memo {
            table: Table::none(alloc),
        }
    }
}
