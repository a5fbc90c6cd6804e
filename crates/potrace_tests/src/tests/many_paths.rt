//! Pages whose paths are as many, or as deep in one another, as such pages can have.

use crate::tests::cases::{Case, PLAIN};
use pt_core::NoMemory;
use std::alloc::Global;

/// A raw page of 512 by 512 pixels, black where the column and the row, from below, add up to an even number.
fn board(alloc: Global) -> Result<Vec<u8>, NoMemory> {
    let mut bytes = Vec::from_slice(alloc, b"P4 512 512\n")?;
    for place in 0..512 * 64u32 {
        bytes.push(if place / 64 % 2 == 0 { 0x55 } else { 0xaa })?;
    }
    Ok(bytes)
}

/// Each black pixel by itself, row after row from the top.
fn board_text(alloc: Global) -> Result<String, NoMemory> {
    let mut text = String::from_str(alloc, "points 512 512 131072\n")?;
    for place in 0..512 * 512u32 {
        let (left, top) = (place % 512, 512u32.saturating_sub(place / 512));
        let (right, bottom) = (left + 1, top.saturating_sub(1));
        if (left ^ bottom) % 2 == 0 {
            let line = format!(in alloc;
                "+ 1 {left},{top} {left},{bottom} {right},{bottom} {right},{top}\n"
            )?;
            text.push_str(&line)?;
        }
    }
    Ok(text)
}

#[test]
fn a_board_of_single_pixels(rt: HostRuntime) -> Result<(), NoMemory> {
    let input = board(rt.alloc())?;
    let text = board_text(rt.alloc())?;
    Case {
        words: "-b points -z left -t 0",
        input: &input,
        room: 5_000_000,
        documents: &[("-", &text)],
        ..PLAIN
    }
    .check(&rt, rt.alloc())
}

/// A plain page of 255 by 255 pixels: squares around the middle pixel, which is white, black and white in turn.
fn nest(alloc: Global) -> Result<Vec<u8>, NoMemory> {
    let mut bytes = Vec::from_slice(alloc, b"P1 255 255\n")?;
    for place in 0..255 * 255u32 {
        let (across, up) = ((place % 255).abs_diff(127), (place / 255).abs_diff(127));
        bytes.push(if across.max(up) % 2 == 1 { b'1' } else { b'0' })?;
    }
    Ok(bytes)
}

/// The square of each distance from the middle, the outermost first, with its four corners.
fn nest_text(alloc: Global) -> Result<String, NoMemory> {
    let mut text = String::from_str(alloc, "polygons 255 255 128\n")?;
    for distance in (0..128u32).rev() {
        let sign = if distance % 2 == 1 { '+' } else { '-' };
        let side = 2 * distance + 1;
        let (area, points) = (side * side, 4 * side);
        let (second, third) = (2 * side, 3 * side);
        let line = format!(in alloc; "{sign} {area} {points} 4 0: 0 {side} {second} {third}\n")?;
        text.push_str(&line)?;
    }
    Ok(text)
}

#[test]
fn a_nest_of_squares(rt: HostRuntime) -> Result<(), NoMemory> {
    let input = nest(rt.alloc())?;
    let text = nest_text(rt.alloc())?;
    Case {
        words: "-b polygons -t 0",
        input: &input,
        documents: &[("-", &text)],
        ..PLAIN
    }
    .check_by_all(&rt, rt.alloc())
}
