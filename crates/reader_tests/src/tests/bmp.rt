//! BMP pictures.
use crate::tests::answers::{tells, tells_at};
use crate::tests::tables::{Cut, Failing, check_cuts, check_failing};
use std::alloc::Global;
use std::test::Fail;

/// What the header of a picture says.
#[derive(Clone, Copy, Debug)]
pub(super) struct Form {
    pub(super) file_size: u32,
    pub(super) pixel_offset: u32,
    pub(super) header_size: u32,
    pub(super) width: u32,
    pub(super) height: u32,
    pub(super) planes: u32,
    pub(super) bits: u32,
    pub(super) compression: u32,
    pub(super) colors_used: u32,
}

/// Three by two pixels of one bit, from the bottom, with rows that begin at this offset.
pub(super) fn small(pixel_offset: u32) -> Form {
    Form {
        file_size: 0,
        pixel_offset,
        header_size: 40,
        width: 3,
        height: 2,
        planes: 1,
        bits: 1,
        compression: 0,
        colors_used: 0,
    }
}

/// Appends numbers of two bytes.
fn push_twos(bytes: &mut Vec<u8>, numbers: &[u32]) -> Result<(), Fail> {
    for n in numbers {
        bytes.push((n % 256) as u8)?;
        bytes.push((n / 256 % 256) as u8)?;
    }
    Ok(())
}

/// Appends numbers of four bytes.
fn push_fours(bytes: &mut Vec<u8>, numbers: &[u32]) -> Result<(), Fail> {
    for n in numbers {
        push_twos(bytes, &[n % 65536, n / 65536])?;
    }
    Ok(())
}

/// Appends the fields after the header's size, for a header of more than 12 bytes.
fn push_long(bytes: &mut Vec<u8>, form: &Form) -> Result<(), Fail> {
    push_fours(bytes, &[form.width, form.height])?;
    push_twos(bytes, &[form.planes, form.bits])?;
    push_fours(bytes, &[form.compression, 0, 0, 0, form.colors_used, 0])?;
    push_masks(bytes, form.header_size)
}

/// Appends the bytes from the fortieth on, with the masks of 32 bits at offsets 54, 58 and 62 of the file.
fn push_masks(bytes: &mut Vec<u8>, header_size: u32) -> Result<(), Fail> {
    for i in 40..header_size {
        let mask = i == 42 || i == 45 || i == 48;
        bytes.push(if mask { 255 } else { 0 })?;
    }
    Ok(())
}

/// A picture's header, followed by some bytes.
pub(super) fn picture(alloc: Global, form: &Form, behind: &[&[u8]]) -> Result<Vec<u8>, Fail> {
    let mut bytes = Vec::from_slice(alloc, b"BM")?;
    push_head(&mut bytes, form)?;
    push_parts(&mut bytes, behind)?;
    Ok(bytes)
}

fn push_head(bytes: &mut Vec<u8>, form: &Form) -> Result<(), Fail> {
    push_fours(
        bytes,
        &[form.file_size, 0, form.pixel_offset, form.header_size],
    )?;
    if form.header_size == 12 {
        push_twos(bytes, &[form.width, form.height, form.planes, form.bits])
    } else if form.header_size < 200 {
        push_long(bytes, form)
    } else {
        Ok(())
    }
}

fn push_parts(bytes: &mut Vec<u8>, parts: &[&[u8]]) -> Result<(), Fail> {
    for part in parts {
        bytes.extend_from_slice(part)?;
    }
    Ok(())
}

/// Colour 0 is black, and colour 1 white.
pub(super) const PALETTE: &[u8] = b"\0\0\0\0\xff\xff\xff\0";

/// The lower row of the picture with one bit per pixel, with more bits beyond the width.
pub(super) const LOW: &[u8] = b"\xbf\x55\x55\x55";

const HIGH: &[u8] = b"\x5f\x55\x55\x55";

/// The results for a picture of two rows, `#.#` above `.#.`.
const CHECKERS: &str = "#.#/.#./ end";

/// The results for the picture upside down.
const TURNED: &str = ".#./#.#/ end";

/// Whether the reader's results are this text, on a picture with these rows and unused bytes after the first
/// colours of its palette.
fn tells_rows(
    alloc: Global,
    form: &Form,
    palette: &[u8],
    rows: &[&[u8]],
    text: &str,
) -> Result<bool, Fail> {
    let mut bytes = picture(alloc, form, &[palette])?;
    push_unused(&mut bytes, form.pixel_offset)?;
    push_parts(&mut bytes, rows)?;
    tells(alloc, &bytes, text)
}

/// Appends bytes up to the offset of the rows.
fn push_unused(bytes: &mut Vec<u8>, pixel_offset: u32) -> Result<(), Fail> {
    for _ in bytes.len()..pixel_offset as usize {
        bytes.push(0)?;
    }
    Ok(())
}

/// The bits of a pixel, the offset of the rows, the palette, the lower row and the upper one.
const DEPTHS: [(u32, u32, &[u8], &[u8], &[u8]); 5] = [
    (1, 62, PALETTE, LOW, HIGH),
    (4, 118, PALETTE, b"\x10\x1f\x55\x55", b"\x01\x0f\x55\x55"),
    (8, 1078, PALETTE, b"\x01\0\x01\x55", b"\0\x01\0\x55"),
    (
        24,
        54,
        b"",
        b"\xff\xff\xff\0\0\0\xff\xff\xff\x55\x55\x55",
        b"\0\0\0\xff\xff\xff\0\0\0\x55\x55\x55",
    ),
    (
        32,
        54,
        b"",
        b"\xff\xff\xff\0\0\0\0\xff\xff\xff\xff\x55",
        b"\0\0\0\xff\xff\xff\xff\0\0\0\0\xff",
    ),
];

// From the bottom, upside down, and from the top.
#[test]
fn each_depth(rt: HostRuntime) -> Result<(), Fail> {
    for (bits, pixel_offset, palette, low, high) in DEPTHS {
        let mut form = small(pixel_offset);
        form.bits = bits;
        let below = tells_rows(rt.alloc(), &form, palette, &[low, high], CHECKERS)?;
        let turned = tells_rows(rt.alloc(), &form, palette, &[high, low], TURNED)?;
        form.height = 4294967294;
        let above = tells_rows(rt.alloc(), &form, palette, &[high, low], CHECKERS)?;
        assert_eq!(rt; (below, turned, above), (true, true, true), "{bits} bits");
    }
    Ok(())
}

/// The header's size, the offset of the rows, the number of colours used, the palette, and the results.
const HEADERS: [(u32, u32, u32, &[u8], &str); 9] = [
    (12, 32, 0, b"\0\0\0\xff\xff\xff", CHECKERS),
    (40, 62, 0, PALETTE, CHECKERS),
    (52, 74, 0, PALETTE, CHECKERS),
    (56, 78, 0, PALETTE, CHECKERS),
    (108, 130, 0, PALETTE, CHECKERS),
    (124, 146, 0, PALETTE, CHECKERS),
    (40, 62, 2, PALETTE, CHECKERS),
    // Bytes between the palette and the rows are ignored.
    (40, 65, 0, b"\0\0\0\0\xff\xff\xff\0xyz", CHECKERS),
    // A palette of one colour, which is white; colours beyond it are black.
    (40, 58, 1, b"\xff\xff\xff\0", TURNED),
];

#[test]
fn each_header(rt: HostRuntime) -> Result<(), Fail> {
    for (header_size, pixel_offset, colors_used, palette, text) in HEADERS {
        let mut form = small(pixel_offset);
        form.header_size = header_size;
        form.colors_used = colors_used;
        let bytes = picture(rt.alloc(), &form, &[palette, LOW, HIGH])?;
        let same = tells(rt.alloc(), &bytes, text)?;
        assert!(rt; same, "{form:?}");
    }
    Ok(())
}

// A red pixel, and a yellow one with a mean of two thirds of white.
/// The level in millionths, whether pixels are inverted, and the results.
const COLORS: [(u32, bool, &str); 6] = [
    (0, false, "../ end"),
    (333333, false, "../ end"),
    (333334, false, "#./ end"),
    (666666, false, "#./ end"),
    (666667, false, "##/ end"),
    (666666, true, ".#/ end"),
];

#[test]
fn colors_at_the_level(rt: HostRuntime) -> Result<(), Fail> {
    let mut form = small(54);
    form.width = 2;
    form.height = 1;
    form.bits = 24;
    let bytes = picture(rt.alloc(), &form, &[b"\0\0\xff\0\xff\xff\x55\x55"])?;
    for (micro, invert, text) in COLORS {
        let same = tells_at(rt.alloc(), &bytes, micro, invert, text)?;
        assert!(rt; same, "at {micro}");
    }
    Ok(())
}

/// One by two pixels of 24 bits, from the top: black above white.
const TWO_HIGH: &[u8] =
    b"BM\x3e\0\0\0\0\0\0\0\x36\0\0\0\x28\0\0\0\x01\0\0\0\xfe\xff\xff\xff\x01\0\x18\0\0\0\0\0\x08\0\0\0\0\0\0\0\0\0\0\0\0\0\0\0\0\0\0\0\0\0\0\0\xff\xff\xff\0";

/// A picture, the least and the greatest number of its bytes that are there, and the results.
const CUTS: [Cut; 3] = [
    (TWO_HIGH, 0, 1, "unknown format"),
    (TWO_HIGH, 2, 61, "truncated"),
    (TWO_HIGH, 62, 62, "#/./ end"),
];

#[test]
fn cut_pictures(rt: HostRuntime) -> Result<(), Fail> {
    check_cuts(&rt, rt.alloc(), &CUTS)
}

const FAILING: [Failing; 4] = [
    (TWO_HIGH, 1, 1, "read fault"),
    (TWO_HIGH, 62, 62, "read fault"),
    (TWO_HIGH, 63, 63, "#/./ read fault"),
    (TWO_HIGH, 64, 64, "#/./ end"),
];

#[test]
fn failing_reads_of_pictures(rt: HostRuntime) -> Result<(), Fail> {
    check_failing(&rt, rt.alloc(), &FAILING)
}

// The rows end at offset 70.
/// The bytes before a picture, the size that it claims, the bytes after it, and the results.
const CLAIMED: [(&[u8], u32, &[u8], &str); 9] = [
    (b"", 0, b"P1 1 1 1", "#.#/.#./ #/ end"),
    (b"", 70, b"P1 1 1 1", "#.#/.#./ #/ end"),
    (b"", 73, b"xyzP1 1 1 1", "#.#/.#./ #/ end"),
    (b"", 72, b"xyzP1 1 1 1", "#.#/.#./ trailing"),
    // The size counts from the magic number, and not from the whitespace before it.
    (b" \n", 73, b"xyzP1 1 1 1", "#.#/.#./ #/ end"),
    (b"", 77, b"P1 1 1 1", "#.#/.#./ trailing"),
    (b"", 78, b"P1 1 1 1", "#.#/.#./ end"),
    (b"", 79, b"P1 1 1 1", "#.#/.#./ end"),
    (b"", 4294967295, b"P1 1 1 1", "#.#/.#./ end"),
];

#[test]
fn claimed_bytes(rt: HostRuntime) -> Result<(), Fail> {
    for (before, file_size, behind, text) in CLAIMED {
        let mut form = small(62);
        form.file_size = file_size;
        let page = picture(rt.alloc(), &form, &[PALETTE, LOW, HIGH, behind])?;
        let mut bytes = Vec::from_slice(rt.alloc(), before)?;
        bytes.extend_from_slice(&page)?;
        let same = tells(rt.alloc(), &bytes, text)?;
        assert!(rt; same, "{file_size}");
    }
    Ok(())
}
