//! Why reading a page stopped.
ghost use Rattle.std.specs.Prelude.{◌≡◌};
ghost use Rattle.bitmap_input.specs.declared.fault.InFault.TheVariants.{NoMemory as no_memory};
ghost use Rattle.bitmap_input.specs.declared.stop.Stop.TheVariants.{Fault as fault};

use crate::fault::InFault;
use pt_core::NoMemory;
use std::alloc::AllocError;

/// Why no page was read: there is none, or it can't be read.
#[derive(Clone, Copy)]
pub(crate) enum Stop {
    /// The file ends, and no page is incomplete.
    End,
    /// The bytes after the last page don't begin a page.
    Trailing,
    /// The page can't be read.
    Fault(InFault),
}

impl From<NoMemory> for Stop {
    ghost from_gives = { λ _ stop. stop ≡ fault no_memory };

    fn from(_fault: NoMemory) -> Stop {
        Stop::Fault(InFault::NoMemory)
    }
}

impl From<AllocError> for Stop {
    ghost from_gives = { λ _ stop. stop ≡ fault no_memory };

    fn from(error: AllocError) -> Stop {
        Stop::from(NoMemory::from(error))
    }
}
