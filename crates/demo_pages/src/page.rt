//! The pages of the demo.
ghost use Rattle.std.specs.Prelude.{◌≡◌, ℕ, ◌+◌, ◌++◌, ◌*◌, IfOk, OnOk, vec_len};
ghost use Rattle.bit_image.specs.Page.{SameSides, image_of};
ghost use Rattle.demo_pages.specs.Generator.{state_after};
ghost use Rattle.demo_pages.specs.Picture.{pages_from, picture_page, with_bars, with_rectangles};

use crate::bar::Bar;
use crate::generator::Generator;
use crate::rectangle::Rectangle;
use bit_image::Bitmap;
use pt_core::NoMemory;
use std::alloc::Global;

/// The width of each page, in pixels.
pub(crate) const WIDTH: u32 = 256;

/// The height of each page, in pixels.
pub(crate) const HEIGHT: u32 = 192;

/// The number of rectangles on each page.
pub const RECTANGLES: u32 = 40;

/// The number of bars on each page.
pub const BARS: u32 = 4;

/// Makes the next `count` pages and leaves the generator after them.
pub fn next_pages(
    alloc: Global,
    count: u32,
    generator: &mut Generator,
) -> Result<Vec<Bitmap>, NoMemory>
    ensures count { IfOk result (λ pages. vec_len pages ≡ count) }

    // These are the first pages of any longer series, and the rest of the series is made from the generator's new
    // state.
    ensures pages { IfOk result (λ pages. (more : ℕ)
        → pages_from (count + more) generator.old ≡ pages.items ++ pages_from more generator.new) }
{
    let mut pages = Vec::with_capacity(alloc, count as usize)?;
    for _made in 0..count {
        let page = next_page(alloc, generator)?;
        pages.push(page)?;
    }
    Ok(pages)
}

/// Makes the next page: rectangles invert pixels of a white page, and then bars invert pixels of the result.
fn next_page(alloc: Global, generator: &mut Generator) -> Result<Bitmap, NoMemory>
    ensures page { IfOk result (λ page. page ≡ picture_page generator.old) }
    ensures state { OnOk result (generator.new
        ≡ state_after (4 * RECTANGLES + 3 * BARS) generator.old) }
{
    let mut page = Bitmap::new(alloc, WIDTH, HEIGHT)?;
    invert_rectangles(&mut page, generator);
    invert_bars(&mut page, generator);
    // From this call the proof knows that the value is a page, so that its pixels determine it.
    let _ = page.width();
    Ok(page)
}

/// Inverts the pixels of the next rectangles, one rectangle after the other.
fn invert_rectangles(page: &mut Bitmap, generator: &mut Generator)
    requires width { page.old.width ≡ WIDTH }
    requires height { page.old.height ≡ HEIGHT }
    ensures sides { SameSides page.old page.new }
    ensures pixels { (u v : ℕ) → image_of page.new u v
        ≡ with_rectangles RECTANGLES generator.old (image_of page.old) u v }
    ensures state { generator.new ≡ state_after (4 * RECTANGLES) generator.old }
{
    for _number in 0..RECTANGLES {
        Rectangle::drawn(generator).invert(page);
    }
}

/// Inverts the pixels of the next bars, one bar after the other.
fn invert_bars(page: &mut Bitmap, generator: &mut Generator)
    requires width { page.old.width ≡ WIDTH }
    requires height { page.old.height ≡ HEIGHT }
    ensures sides { SameSides page.old page.new }
    ensures pixels { (u v : ℕ) → image_of page.new u v
        ≡ with_bars BARS generator.old (image_of page.old) u v }
    ensures state { generator.new ≡ state_after (3 * BARS) generator.old }
{
    for _number in 0..BARS {
        Bar::drawn(generator).invert(page);
    }
}
