//! Reads texts of lists: a page's sides, points, signs with areas, and lines of entries.
//!
//! A text is read from its first byte on, without looking back. Each function reads one part of the text, which
//! starts at a given index. It returns the part's value and the index at which the part ends, or nothing if it
//! can't read the part there.
//!
//! ```text
//!     4 2 , 7        The number at index 0 is 42, and it ends at index 2. The byte at index 2 is `,`, and
//!    0 1 2 3 4       it ends at index 3. No number starts at index 2.
//! ```
#![tactic(auto)]

pub mod byte;
pub mod entries;
pub mod lines;
pub mod number;
pub mod pair;
pub mod sides;
pub mod sign;
pub mod word;

pub use byte::{has_byte, read_byte};
pub use entries::{At, Entries, Indices, PointsOf};
pub use lines::{LineValues, read_line};
pub use number::{Number, read_number};
pub use pair::{Pair, read_pair};
pub use sides::{SidesLine, read_sides};
pub use sign::read_signed_area;
pub use word::read_word;
