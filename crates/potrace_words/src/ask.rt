//! What the command line asks for.

use pt_core::Settings;
use run_output::{Name, Names};

/// What the command line asks for.
#[derive(Debug, Drop)]
pub enum Ask {
    /// A description of how the program is used.
    Help,
    /// The program's version.
    Version,
    /// This number of made-up pages, to be traced by this number of workers.
    Demo {
        pages: u32,
        workers: u32,
        settings: Settings,
    },
    /// These files in order, to be traced by this number of workers. The file `-` is standard input. If there is an
    /// output, it gives all documents their name.
    Files {
        names: Names,
        output: Option<Name>,
        workers: u32,
        settings: Settings,
    },
}

/// Why the command line asks for nothing.
#[derive(Clone, Copy, Debug, PartialEq, Eq)]
pub enum WordFault {
    /// The program doesn't accept the arguments.
    Bad,
    /// Memory ran out.
    NoMemory,
}
