//! The results of a reader.
use bit_image::Bitmap;

/// What comes next in a file.
#[derive(Debug, Drop)]
pub enum Next {
    /// A page.
    Page(Bitmap),
    /// The file ends, and no page is incomplete.
    End,
    /// The bytes after the last page don't begin a page. This isn't an error.
    Trailing,
    /// The reader is over: it has reported the end of the file or a fault before.
    Over,
}
