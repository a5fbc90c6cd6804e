//! Rows of bits and of samples, which are stored word by word, beside the same rows pixel by pixel.
use crate::tests::answers::tells_at;
use std::alloc::Global;
use std::test::Fail;

/// Whether the pixel in this column is black.
fn is_black(x: u32) -> bool {
    (x.wrapping_mul(37) ^ x / 5) % 3 == 0
}

/// The results of the reader on the row, pixel by pixel.
fn shown(alloc: Global, width: u32, invert: bool) -> Result<String, Fail> {
    let mut text = String::new(alloc);
    for x in 0..width {
        text.push(if is_black(x) != invert { '#' } else { '.' })?;
    }
    text.push_str("/ end")?;
    Ok(text)
}

/// A page's magic number, its sides, and what comes before its row.
fn head(alloc: Global, magic: &str, width: u32, behind: &str) -> Result<Vec<u8>, Fail> {
    let head = format!(in alloc; "{magic} {width} 1{behind}")?;
    Ok(Vec::from_slice(alloc, head.as_bytes())?)
}

/// The row as a plain page.
fn plain(alloc: Global, width: u32) -> Result<Vec<u8>, Fail> {
    let mut bytes = head(alloc, "P1", width, " ")?;
    for x in 0..width {
        bytes.push(if is_black(x) { b'1' } else { b'0' })?;
    }
    Ok(bytes)
}

/// The byte of the eight pixels that start in this column.
fn packed(from: u32) -> u8 {
    let mut byte = 0u8;
    for i in 0..8 {
        byte = byte << 1 | is_black(from.wrapping_add(i)) as u8;
    }
    byte
}

/// The row as packed bits, with other pixels beyond the width.
fn raw(alloc: Global, width: u32) -> Result<Vec<u8>, Fail> {
    let mut bytes = head(alloc, "P4", width, "\n")?;
    for at in 0..width.div_ceil(8) {
        bytes.push(packed(at.wrapping_mul(8)))?;
    }
    Ok(bytes)
}

/// The row as samples of one byte.
fn gray(alloc: Global, width: u32) -> Result<Vec<u8>, Fail> {
    let mut bytes = head(alloc, "P5", width, " 255\n")?;
    for x in 0..width {
        bytes.push(if is_black(x) { 127 } else { 128 })?;
    }
    Ok(bytes)
}

/// The row as colours, with three samples of one byte each.
fn colors(alloc: Global, width: u32) -> Result<Vec<u8>, Fail> {
    let mut bytes = head(alloc, "P6", width, " 255\n")?;
    for x in 0..width {
        let last = if is_black(x) { 127 } else { 128 };
        bytes.extend_from_slice(&[128, 127, last])?;
    }
    Ok(bytes)
}

/// Whether the results of the reader on a file are those of the row.
fn tells(alloc: Global, file: &[u8], width: u32, invert: bool) -> Result<bool, Fail> {
    let text = shown(alloc, width, invert)?;
    tells_at(alloc, file, 500000, invert, text.as_str())
}

#[test]
fn rows_of_each_kind(rt: HostRuntime) -> Result<(), Fail> {
    for n in 2..262u32 {
        let (width, invert) = (n / 2, n % 2 == 1);
        let pixels = tells(rt.alloc(), &plain(rt.alloc(), width)?, width, invert)?;
        let bits = tells(rt.alloc(), &raw(rt.alloc(), width)?, width, invert)?;
        let samples = tells(rt.alloc(), &gray(rt.alloc(), width)?, width, invert)?;
        let triples = tells(rt.alloc(), &colors(rt.alloc(), width)?, width, invert)?;
        let same = (pixels, bits, samples, triples);
        assert_eq!(rt; same, (true, true, true, true), "{width} wide");
    }
    Ok(())
}
