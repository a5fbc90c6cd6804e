//! Why writing a document stopped early.

use bitmap_input::InFault;

/// Why writing the document stopped early.
#[derive(Clone, Copy, Debug, PartialEq, Eq)]
pub(crate) enum Break {
    /// A row of the page couldn't be read.
    Input(InFault),
    /// A call of the outputs failed.
    Output,
}
