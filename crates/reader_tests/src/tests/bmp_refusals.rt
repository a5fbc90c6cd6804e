//! BMP pictures that are refused, and pictures with masks.
use crate::tests::answers::tells;
use crate::tests::bmp::{Form, LOW, PALETTE, picture, small};
use std::test::Fail;

/// The header's size, the planes, the bits, the compression, and the number of colours used.
const KINDS: [(u32, u32, u32, u32, u32); 12] = [
    (0, 1, 1, 0, 0),
    (64, 1, 1, 0, 0),
    (4294967295, 1, 1, 0, 0),
    (40, 0, 1, 0, 0),
    (40, 2, 1, 0, 0),
    (40, 1, 0, 0, 0),
    (40, 1, 16, 0, 0),
    (40, 1, 8, 1, 0),
    (40, 1, 24, 3, 0),
    (40, 1, 32, 6, 0),
    (40, 1, 1, 0, 3),
    (40, 1, 8, 0, 4294967295),
];

#[test]
fn refused_kinds(rt: HostRuntime) -> Result<(), Fail> {
    for (header_size, planes, bits, compression, colors_used) in KINDS {
        // The kind is reported before the sides and the offset.
        let form = Form {
            file_size: 0,
            pixel_offset: 0,
            header_size,
            width: 0,
            height: 99999,
            planes,
            bits,
            compression,
            colors_used,
        };
        let bytes = picture(rt.alloc(), &form, &[PALETTE, LOW])?;
        let same = tells(rt.alloc(), &bytes, "unsupported BMP kind")?;
        assert!(rt; same, "{form:?}");
    }
    Ok(())
}

/// The width, the height, the bits, the number of colours used, and the offset of the rows.
const PLACES: [(u32, u32, u32, u32, u32, &str); 18] = [
    (0, 2, 1, 0, 0, "zero side"),
    (2147483648, 2147483648, 1, 0, 0, "zero side"),
    (4294967295, 2, 1, 0, 0, "zero side"),
    (40000, 0, 1, 0, 0, "zero side"),
    (32768, 2, 1, 0, 0, "side too large"),
    (3, 32768, 1, 0, 0, "side too large"),
    (3, 2147483648, 1, 0, 0, "side too large"),
    (3, 4294934528, 1, 0, 0, "side too large"),
    (3, 2, 1, 0, 61, "bad BMP offset"),
    (3, 2, 1, 0, 0, "bad BMP offset"),
    (3, 2, 8, 0, 1077, "bad BMP offset"),
    (3, 2, 8, 2, 61, "bad BMP offset"),
    (3, 2, 24, 0, 53, "bad BMP offset"),
    (3, 2, 1, 0, 4294967295, "truncated"),
    (3, 2, 8, 0, 1078, "truncated"),
    (32767, 1, 1, 0, 62, "truncated"),
    (1, 4294934529, 1, 0, 62, "truncated"),
    // Above eight bits no palette is read.
    (3, 2, 24, 4294967295, 54, "truncated"),
];

#[test]
fn refused_places(rt: HostRuntime) -> Result<(), Fail> {
    for (width, height, bits, colors_used, pixel_offset, text) in PLACES {
        let mut form = small(pixel_offset);
        form.file_size = 4294967295;
        form.width = width;
        form.height = height;
        form.bits = bits;
        form.colors_used = colors_used;
        let bytes = picture(rt.alloc(), &form, &[PALETTE, b"\xbf"])?;
        let same = tells(rt.alloc(), &bytes, text)?;
        assert!(rt; same, "{form:?}");
    }
    Ok(())
}

/// The sides in a header of 12 bytes, with two bytes for each, and the results.
const OLDEST: [(u32, u32, &str); 5] = [
    (32767, 1, "truncated"),
    (1, 32767, "truncated"),
    (32768, 1, "side too large"),
    (65535, 1, "side too large"),
    (1, 65535, "side too large"),
];

#[test]
fn sides_in_the_oldest_header(rt: HostRuntime) -> Result<(), Fail> {
    for (width, height, text) in OLDEST {
        let mut form = small(32);
        form.header_size = 12;
        form.width = width;
        form.height = height;
        let bytes = picture(rt.alloc(), &form, &[b"\0\0\0\xff\xff\xff", b"\xbf"])?;
        let same = tells(rt.alloc(), &bytes, text)?;
        assert!(rt; same, "{form:?}");
    }
    Ok(())
}

const MASKS: &[u8] = b"\0\0\xff\0\0\xff\0\0\xff\0\0\0";

const PIXELS: &[u8] = b"\0\0\0\xff\xff\xff\xff\0";

const OTHER_MASKS: &[u8] = b"\xff\0\0\0\0\xff\0\0\0\0\xff\0";

/// The header's size, the offset of the rows, the masks, the row, and the results.
const MASKED: [(u32, u32, &[u8], &[u8], &str); 5] = [
    (40, 66, MASKS, PIXELS, "#./ end"),
    (56, 70, b"", PIXELS, "#./ end"),
    (40, 66, OTHER_MASKS, PIXELS, "unsupported BMP kind"),
    (40, 66, b"\0\0\xff\0\0\xff\0\0", b"", "truncated"),
    (40, 65, MASKS, PIXELS, "bad BMP offset"),
];

#[test]
fn masked_pictures(rt: HostRuntime) -> Result<(), Fail> {
    for (header_size, pixel_offset, masks, pixels, text) in MASKED {
        let mut form = small(pixel_offset);
        form.header_size = header_size;
        form.width = 2;
        form.height = 1;
        form.bits = 32;
        form.compression = 3;
        let bytes = picture(rt.alloc(), &form, &[masks, pixels])?;
        let same = tells(rt.alloc(), &bytes, text)?;
        assert!(rt; same, "{form:?}");
    }
    Ok(())
}
