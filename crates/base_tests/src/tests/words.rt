//! Pages of packed words, compared with pages of one entry per pixel.

use bit_image::Bitmap;
use page_samples::{PlainPage, drawn};
use std::test::Fail;

#[test]
fn words_of_a_span(rt: HostRuntime) -> Result<(), Fail> {
    let mut page = Bitmap::new(rt.alloc(), 70, 1)?;
    page.flip_span(0, 62, 66);
    assert_eq!(rt; page.row_words(0), [0xC000000000000000, 0x3].as_slice());
    page.flip_from(64, 0);
    assert_eq!(rt; page.row_words(0), [0xC000000000000000, 0x3C].as_slice());
    Ok(())
}

#[test]
fn words_of_bytes(rt: HostRuntime) -> Result<(), Fail> {
    let mut page = Bitmap::new(rt.alloc(), 70, 1)?;
    page.put_bytes(0, &[0x80, 0, 0, 0, 0, 0, 0, 0x03, 0xA7]);
    assert_eq!(rt; page.row_words(0), [0xC000000000000001, 0x25].as_slice());
    page.put_word(0, 1, u64::MAX);
    assert_eq!(rt; page.row_words(0), [0xC000000000000001, 0x3F].as_slice());
    Ok(())
}

// .#.
// #.#
#[test]
fn pixels_of_a_small_page(rt: HostRuntime) -> Result<(), Fail> {
    let page = drawn(rt.alloc(), &[".#.", "#.#"])?;
    for (x, y, black) in [
        (0, 0, true),
        (1, 0, false),
        (1, 1, true),
        (3, 0, false),
        (1, 2, false),
        (-1, 0, false),
        (1 << 32, 0, false),
        (1, i64::MAX, false),
        (i64::MIN, 1, false),
    ] {
        assert_eq!(rt; page.get(x, y), black, "at {x}, {y}");
    }
    for (x, y, black) in [(1, 1, true), (2, 2, true), (0, 1, false), (1, 0, false)] {
        assert_eq!(rt; page.south_west(x, y), black, "corner {x}, {y}");
    }
    Ok(())
}

#[test]
fn the_first_black_pixel(rt: HostRuntime) -> Result<(), Fail> {
    let mut page = Bitmap::new(rt.alloc(), 200, 3)?;
    page.flip_span(1, 130, 133);
    for (from, want) in [(2, Some((130, 1))), (1, Some((130, 1))), (0, None)] {
        assert_eq!(rt; page.first_black(from), want, "from row {from}");
    }
    for (from, want) in [
        (0, Some(130)),
        (130, Some(130)),
        (132, Some(132)),
        (133, None),
        (199, None),
    ] {
        assert_eq!(rt;
            page.first_black_in_row(from, 1),
            want,
            "from column {from}"
        );
    }
    Ok(())
}

#[test]
fn a_copy_stays(rt: HostRuntime) -> Result<(), Fail> {
    let mut page = Bitmap::new(rt.alloc(), 65, 1)?;
    page.set(64, 0, true);
    let copy = page.copy(rt.alloc())?;
    page.set(64, 0, false);
    assert_eq!(rt; (page.is_black(64, 0), copy.is_black(64, 0)), (false, true));
    Ok(())
}

// Spans that begin and end at the ends of words, before them and after them.
#[test]
fn spans_are_those_of_the_plain_page(rt: HostRuntime) -> Result<(), Fail> {
    let ends = [0, 1, 62, 63, 64, 65, 127, 128, 129, 190, 191, 192];
    let mut page = Bitmap::new(rt.alloc(), 192, 2)?;
    let mut plain = PlainPage::new(rt.alloc(), 192, 2)?;
    for from in ends {
        for end in ends {
            if from <= end && end <= page.width() && 1 < page.height() {
                page.flip_span(1, from, end);
                plain.flip_span(1, from as usize, end as usize);
            }
            let shown = PlainPage::of(rt.alloc(), &page)?;
            assert_eq!(rt; plain.differing(&shown), 0, "{from} to {end}");
        }
    }
    Ok(())
}
