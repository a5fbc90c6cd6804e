//! Reads the pages of a file (PBM, PGM, PPM and BMP), and reports how the pages end or why one is refused.
//!
//! A file holds one page after another, with or without whitespace before each of them. It may have plain and
//! raw PBM, PGM and PPM (Netpbm's format pages "pbm", "pgm" and "ppm") and BMP (Microsoft's "Bitmap Storage").
//! Gray pixels and colours are compared with a level. A BMP picture may claim bytes after its last row; the
//! next page follows these bytes.
//!
//! ```text
//! P1             the magic number of plain PBM (raw PBM is P4, with eight pixels in a byte)
//! 2 1            the width and the height
//! 1 0            the pixels of each row from the left, the top row first; 1 is black
//! ```
//!
//! `reader` has the reader, `next` and `fault` its results, and `laws` the laws of its definitions.
#![tactic(auto)]

mod bmp;
mod body;
mod buffer;
mod channels;
mod dark;
mod extent;
pub mod fault;
pub mod gray_reader;
mod gray_rows;
mod header;
pub mod laws;
pub mod next;
mod number;
mod plain;
mod raster;
mod raw;
pub mod reader;
mod run;
mod samples;
mod shading;
mod sides;
mod skip;
mod stop;
mod tone;
mod words;

pub use fault::InFault;
pub use gray_reader::{GrayHead, GrayReader};
pub use next::Next;
pub use reader::PageReader;
