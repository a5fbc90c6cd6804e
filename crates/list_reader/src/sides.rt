//! The first line of a text that describes a page.
ghost use Rattle.std.specs.Prelude.{ℕ, ◌≤◌, List, IfNone, IfSome, drop, length};
ghost use Rattle.list_reader.specs.Inner.SidesLines.{IsSidesLine};

use crate::byte::read_byte;
use crate::number::read_number;
use crate::word::read_word;
use pt_core::LONGEST_SIDE;

/// The sides of a page in pixels, the number of lists that follow, and the index at which the line ends.
#[derive(Clone, Copy, Debug)]
pub struct SidesLine {
    pub width: u32,
    pub height: u32,
    pub count: u32,
    pub end: usize,
}

/// Reads the first line: `word`, the page's width and height, and a count, with a space before each number.
pub fn read_sides(text: &[u8], word: &[u8]) -> Option<SidesLine>
    ensures some { IfSome result (λ line.
        IsSidesLine word.now text.now line.width line.height line.count (drop line.end text.now)) }
    ensures within { IfSome result (λ line. line.end ≤ length text.now) }
    ensures none { IfNone result ((width height count : ℕ) (rest : List ℕ)
        → IsSidesLine word.now text.now width height count rest → ⊥) }
{
    let after_word = read_word(text, 0, word)?;
    let width = read_number(text, after_word, u64::from(LONGEST_SIDE))?;
    let after_width = read_byte(text, width.end, b' ')?;
    let height = read_number(text, after_width, u64::from(LONGEST_SIDE))?;
    let after_height = read_byte(text, height.end, b' ')?;
    let count = read_number(text, after_height, u64::from(u32::MAX))?;
    let end = read_byte(text, count.end, b'\n')?;
    if width.value == 0 || height.value == 0 {
        return None;
    }
    Some(SidesLine {
        width: width.value as u32,
        height: height.value as u32,
        count: count.value as u32,
        end,
    })
}
