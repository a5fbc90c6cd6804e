//! Small pages.
ghost use Rattle.std.specs.Prelude.{◌≡◌};
ghost use Rattle.page_samples.specs.declared.pages.NoPage.{NoPage};

use bit_image::Bitmap;
use pt_core::{LONGEST_SIDE, NoMemory};
use std::alloc::Global;

/// Why a page couldn't be made.
#[derive(Clone, Copy, Debug, PartialEq, Eq)]
pub enum NoPage {
    /// A side isn't 1 to `LONGEST_SIDE`.
    BadSide,
    OutOfMemory,
}

impl From<NoMemory> for NoPage {
    ghost from_gives = { λ _ page. page ≡ NoPage.OutOfMemory };

    fn from(_fault: NoMemory) -> NoPage {
        NoPage::OutOfMemory
    }
}

/// A page drawn in text: one string for each row, from the top, all of the same length; `#` is black.
pub fn drawn(alloc: Global, rows: &[&str]) -> Result<Bitmap, NoPage> {
    let width = match rows.first() {
        Some(row) => row.len(),
        None => 0,
    };
    let mut page = white(alloc, width, rows.len())?;
    for (y, row) in rows.iter().rev().enumerate() {
        draw_row(&mut page, y, row.as_bytes());
    }
    Ok(page)
}

fn draw_row(page: &mut Bitmap, y: usize, row: &[u8]) {
    for (x, pixel) in row.iter().enumerate() {
        put(page, x, y, *pixel == b'#');
    }
}

/// A checkerboard with a black lower left corner.
pub fn checkered(alloc: Global, side: usize) -> Result<Bitmap, NoPage> {
    let mut page = white(alloc, side, side)?;
    for place in 0..page.width() * page.height() {
        let (x, y) = (place % page.width(), place / page.width());
        put(&mut page, x as usize, y as usize, (x + y) % 2 == 0);
    }
    Ok(page)
}

/// The page of 3 by 3 pixels that has the bits of a number as its pixels.
pub fn numbered(alloc: Global, number: u32) -> Result<Bitmap, NoPage> {
    let mut page = white(alloc, 3, 3)?;
    for place in 0..9u32 {
        let black = number >> place & 1 == 1;
        put(&mut page, place as usize % 3, place as usize / 3, black);
    }
    Ok(page)
}

/// A page of black and white pixels from a simple random number generator with this seed.
pub fn noise(alloc: Global, width: usize, height: usize, seed: u64) -> Result<Bitmap, NoPage> {
    let mut page = white(alloc, width, height)?;
    let mut state = seed;
    for place in 0..page.width() * page.height() {
        let (x, y) = (place % page.width(), place / page.width());
        state = state
            .wrapping_mul(6364136223846793005)
            .wrapping_add(1442695040888963407);
        put(&mut page, x as usize, y as usize, state >> 62 == 0);
    }
    Ok(page)
}

/// A white page.
pub(crate) fn white(alloc: Global, width: usize, height: usize) -> Result<Bitmap, NoPage> {
    let longest = LONGEST_SIDE as usize;
    if width == 0 || longest < width || height == 0 || longest < height {
        return Err(NoPage::BadSide);
    }
    Ok(Bitmap::new(alloc, width as u32, height as u32)?)
}

/// Colours one pixel of the page, unless it lies outside.
pub(crate) fn put(page: &mut Bitmap, x: usize, y: usize, black: bool) {
    if x < page.width() as usize && y < page.height() as usize {
        page.set(x as u32, y as u32, black);
    }
}
