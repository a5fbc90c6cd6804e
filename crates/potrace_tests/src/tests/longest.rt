//! Pages with a side of the greatest length.

use crate::tests::cases::{Case, PLAIN};
use page_samples::round;
use pt_core::NoMemory;
use std::alloc::Global;

/// A raw page that is black but for one of its bytes.
fn black(
    alloc: Global,
    width: usize,
    height: usize,
    other: (usize, u8),
) -> Result<Vec<u8>, NoMemory> {
    let mut bytes = Vec::from_slice(
        alloc,
        format!(in alloc; "P4 {width} {height}\n")?.as_bytes(),
    )?;
    let (place, byte) = other;
    for at in 0..width.div_ceil(8).saturating_mul(height) {
        bytes.push(if at == place { byte } else { 0xff })?;
    }
    Ok(bytes)
}

/// The line of the path round a whole page.
fn line_round(alloc: Global, width: i32, height: i32) -> Result<String, NoMemory> {
    let area = width.wrapping_mul(height);
    let mut line = format!(in alloc; "+ {area}")?;
    for point in round(alloc, width, height)? {
        line.push_str(&format!(in alloc; " {},{}", point.x, point.y)?)?;
    }
    line.push_str("\n")?;
    Ok(line)
}

/// The greatest area of a speckle, a page's sides, the byte that isn't all black, the document's first line, and its
/// last one, behind that of the path round the page.
const PAGES: [(u32, u16, u16, (usize, u8), &str, &str); 4] = [
    (32766, 32767, 1, (9999, 0), "points 32767 1 1\n", ""),
    (0, 1, 32767, (99999, 0), "points 1 32767 1\n", ""),
    // One white pixel, far to the right or far up.
    (
        0,
        32767,
        3,
        (8191, 0xfb),
        "points 32767 3 2\n",
        "- 1 32765,2 32765,1 32766,1 32766,2\n",
    ),
    (
        0,
        3,
        32767,
        (1, 0xbf),
        "points 3 32767 2\n",
        "- 1 1,32766 1,32765 2,32765 2,32766\n",
    ),
];

#[test]
fn paths_round_the_longest_pages(rt: HostRuntime) -> Result<(), NoMemory> {
    for (most, width, height, other, first, last) in PAGES {
        let input = black(rt.alloc(), width.into(), height.into(), other)?;
        let mut text = String::from_str(rt.alloc(), first)?;
        text.push_str(&line_round(rt.alloc(), width.into(), height.into())?)?;
        text.push_str(last)?;
        Case {
            words: &format!(in rt.alloc(); "-b points -t {most}")?,
            input: &input,
            documents: &[("-", &text)],
            ..PLAIN
        }
        .check(&rt, rt.alloc())?;
    }
    Ok(())
}

/// Words, and the document of a bar of 32,767 pixels.
const BARS: [(&str, &str); 2] = [
    ("-b points -t 32767", "points 32767 1 0\n"),
    (
        "-b polygons -t 32766",
        "polygons 32767 1 1\n+ 32767 65536 3 4842942: 0 206 32769\n",
    ),
];

#[test]
fn the_longest_bar(rt: HostRuntime) -> Result<(), NoMemory> {
    let input = black(rt.alloc(), 32767, 1, (9999, 0))?;
    for (words, document) in BARS {
        let text = String::from_str(rt.alloc(), document)?;
        Case {
            words: &format!(in rt.alloc(); "{words}")?,
            input: &input,
            documents: &[("-", &text)],
            ..PLAIN
        }
        .check(&rt, rt.alloc())?;
    }
    Ok(())
}
