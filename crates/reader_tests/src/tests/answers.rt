//! The results of the reader on a file, as text.
ghost use Rattle.std.specs.Prelude.{◌≤◌};

use bit_image::Bitmap;
use bitmap_input::{Next, PageReader};
use mem_outside::{InCall, MemInputs, NamedBytes};
use pt_core::Inputs;
use std::alloc::Global;
use std::test::Fail;
use threshold_map::Level;

/// The level at which half of white is black.
fn half() -> Level {
    Level::from_micro(500000)
}

/// Whether the reader's results on a file are this text, however many bytes a read returns.
pub(super) fn tells(alloc: Global, bytes: &[u8], text: &str) -> Result<bool, Fail> {
    let whole = answers(alloc, bytes, 65536, &[], &half(), false)?;
    let single = answers(alloc, bytes, 1, &[], &half(), false)?;
    Ok(whole.as_str() == text && single.as_str() == text)
}

/// Whether the reader's results on a file are this text, at a level in millionths, with pixels inverted or not.
pub(super) fn tells_at(
    alloc: Global,
    bytes: &[u8],
    micro: u32,
    invert: bool,
    text: &str,
) -> Result<bool, Fail> {
    let level = Level::from_micro(micro.min(1000000));
    let told = answers(alloc, bytes, 65536, &[], &level, invert)?;
    Ok(told.as_str() == text)
}

/// Whether the reader's results on a file are this text, if each read returns one byte and read `k` fails.
pub(super) fn tells_failing(alloc: Global, bytes: &[u8], k: u64, text: &str) -> Result<bool, Fail> {
    let told = answers(alloc, bytes, 1, &[InCall::Read(k)], &half(), false)?;
    Ok(told.as_str() == text)
}

/// The results of the reader on a file, up to its end or a fault.
fn answers(
    alloc: Global,
    bytes: &[u8],
    most: u32,
    fails: &[InCall],
    level: &Level,
    invert: bool,
) -> Result<String, Fail>
    requires { 1 ≤ most }
{
    let mut inputs = file(alloc, bytes, most, fails)?;
    let mut reader = PageReader::new(alloc)?;
    let mut text = String::new(alloc);
    if inputs.open("-").is_err() {
        return Ok(text);
    }
    for _i in 0..4u32 {
        match reader.next(alloc, &mut inputs, level, invert) {
            Ok(Next::Page(page)) => show(&page, &mut text)?,
            Ok(Next::End) => return ended(text, "end"),
            Ok(Next::Trailing) => return ended(text, "trailing"),
            Ok(Next::Over) => return Ok(text),
            Err(fault) => return ended(text, format!(in alloc; "{fault}")?.as_str()),
        }
    }
    Ok(text)
}

/// Inputs with one file.
pub(super) fn file(
    alloc: Global,
    bytes: &[u8],
    most: u32,
    fails: &[InCall],
) -> Result<MemInputs, Fail>
    requires { 1 ≤ most }
{
    let file = NamedBytes {
        name: String::from_str(alloc, "-")?,
        bytes: Vec::from_slice(alloc, bytes)?,
    };
    Ok(MemInputs::new(vec![in alloc; file]?, most, Vec::from_slice(alloc, fails)?))
}

pub(super) fn ended(mut text: String, end: &str) -> Result<String, Fail> {
    text.push_str(end)?;
    Ok(text)
}

/// Appends the rows of a page from the top.
fn show(page: &Bitmap, text: &mut String) -> Result<(), Fail> {
    for y in (0..page.height()).rev() {
        show_row(page, y, text)?;
    }
    text.push(' ')?;
    Ok(())
}

/// Appends a row, with `#` for a black pixel.
fn show_row(page: &Bitmap, y: u32, text: &mut String) -> Result<(), Fail> {
    for x in 0..page.width() {
        text.push(if page.get(i64::from(x), i64::from(y)) {
            '#'
        } else {
            '.'
        })?;
    }
    text.push('/')?;
    Ok(())
}
