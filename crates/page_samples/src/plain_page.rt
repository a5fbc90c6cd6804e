//! Pages with one list entry per pixel.

use bit_image::Bitmap;
use pt_core::NoMemory;
use std::alloc::Global;

/// A page with one entry for each pixel, row after row from the lowest up; `true` is black.
#[derive(Debug, Drop)]
pub struct PlainPage {
    pub width: usize,
    pub height: usize,
    cells: Vec<bool>,
}

impl PlainPage {
    pub fn new(alloc: Global, width: usize, height: usize) -> Result<PlainPage, NoMemory> {
        let mut cells = Vec::new(alloc);
        for _ in 0..width.saturating_mul(height) {
            cells.push(false)?;
        }
        Ok(PlainPage {
            width,
            height,
            cells,
        })
    }

    /// A page with the same pixels as a bitmap.
    pub fn of(alloc: Global, page: &Bitmap) -> Result<PlainPage, NoMemory> {
        let (width, height) = (page.width(), page.height());
        let mut plain = PlainPage::new(alloc, width as usize, height as usize)?;
        for y in 0..height {
            for x in 0..width {
                if page.is_black(x, y) {
                    plain.flip(x as usize, y as usize);
                }
            }
        }
        Ok(plain)
    }

    pub fn is_black(&self, x: usize, y: usize) -> bool {
        x < self.width
            && match self
                .cells
                .get(y.saturating_mul(self.width).saturating_add(x))
            {
                Some(cell) => *cell,
                None => false,
            }
    }

    pub fn flip(&mut self, x: usize, y: usize) {
        let at = y.saturating_mul(self.width).saturating_add(x);
        if let Some(cell) = self.cells.get_mut(at) {
            *cell = !*cell;
        }
    }

    pub fn flip_span(&mut self, y: usize, from: usize, end: usize) {
        for x in from..end {
            self.flip(x, y);
        }
    }

    /// The leftmost black pixel of the uppermost row that has one.
    pub fn first_black(&self) -> Option<(usize, usize)> {
        for y in (0..self.height).rev() {
            for x in 0..self.width {
                if self.is_black(x, y) {
                    return Some((x, y));
                }
            }
        }
        None
    }

    /// Whether the pixel left of and below corner (x, y) is black.
    fn is_south_west_black(&self, x: usize, y: usize) -> bool {
        x > 0 && y > 0 && self.is_black(x.saturating_sub(1), y.saturating_sub(1))
    }

    /// Whether the pixels ahead on the left and on the right are black. The headings are 0 for north, 1 for
    /// east, 2 for south and 3 for west.
    pub fn ahead(&self, x: usize, y: usize, heading: u8) -> (bool, bool) {
        let north_west = self.is_south_west_black(x, y.saturating_add(1));
        let north_east = self.is_south_west_black(x.saturating_add(1), y.saturating_add(1));
        let south_east = self.is_south_west_black(x.saturating_add(1), y);
        let south_west = self.is_south_west_black(x, y);
        match heading {
            0 => (north_west, north_east),
            1 => (north_east, south_east),
            2 => (south_east, south_west),
            _ => (south_west, north_west),
        }
    }

    /// The number of pixels.
    pub fn size(&self) -> usize {
        self.cells.len()
    }

    pub fn copy(&self) -> Result<PlainPage, NoMemory> {
        Ok(PlainPage {
            width: self.width,
            height: self.height,
            cells: self.cells.clone()?,
        })
    }

    /// The number of pixels that differ from those of another page.
    pub fn differing(&self, other: &PlainPage) -> usize {
        let mut count = 0usize;
        for (one, two) in self.cells.iter().zip(other.cells.iter()) {
            count = count.saturating_add(usize::from(*one != *two));
        }
        count
    }
}
