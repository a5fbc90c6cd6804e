//! The fields of a BMP picture's header.
ghost use Rattle.std.specs.Prelude.{◌≡◌, ◌≤◌, true, not, ◌||◌, ◌^◌, nat_le, length};
ghost use Rattle.bitmap_input.specs.BmpHeader.{is_short, planes, bits, compression, colors_used, is_known_size, stated_width, stated_height, width, height, is_top_down, mask_bytes, has_masks, has_known_masks, has_known_colors, has_palette, palette_length, color_bytes, palette_end};
ghost use Rattle.bitmap_input.specs.Inner.BmpHead.{field_number, number_by_age, StandsWithin, IsKnownDepth, IsDepth, IsMostColors, bits_in};

use crate::bmp::info::Info;

/// The number of bits of a pixel.
#[derive(Clone, Copy)]
pub(crate) enum Depth {
    One,
    Four,
    Eight,
    TwentyFour,
    ThirtyTwo,
}

impl Depth {
    /// The number of bits.
    pub(crate) fn bits(self) -> u32
        ensures value { result ≡ bits_in self }
        ensures most { result ≤ 32 }
    {
        match self {
            Depth::One => 1,
            Depth::Four => 4,
            Depth::Eight => 8,
            Depth::TwentyFour => 24,
            Depth::ThirtyTwo => 32,
        }
    }
}

/// Whether headers of this size can be read.
pub(crate) fn is_known_size(size: u32) -> bool
    ensures { result ≡ is_known_size size }
{
    size == 12 || size == 40 || size == 52 || size == 56 || size == 108 || size == 124
}

/// Whether this is the oldest header, which has numbers of two bytes.
pub(crate) fn is_short(info: &Info) -> bool
    ensures { result ≡ is_short info.now.head.now }
{
    info.head.four_at(14) == 12
}

/// A field of the header. `None` means that the header doesn't have it, and its number is 0.
#[derive(Clone, Copy)]
enum Field {
    None,
    /// Two bytes, at this offset from the picture's first byte.
    Two(usize),
    /// Four bytes, at this offset from the picture's first byte.
    Four(usize),
}

fn field_number(info: &Info, field: Field) -> u32
    requires { StandsWithin field (length info.now.head.now) }
    ensures { result ≡ field_number info.now.head.now field }
{
    match field {
        Field::None => 0,
        Field::Two(place) => info.head.two_at(place),
        Field::Four(place) => info.head.four_at(place),
    }
}

/// The number in field `oldest` of the oldest header, or in field `later` of a later one.
fn number_by_age(info: &Info, oldest: Field, later: Field) -> u32
    requires oldest { StandsWithin oldest 24 }
    requires later { StandsWithin later 52 }
    ensures { result ≡ number_by_age info.now.head.now oldest later }
{
    if is_short(info) {
        field_number(info, oldest)
    } else {
        field_number(info, later)
    }
}

/// How the pixels are stored: 0 means uncompressed, 3 uncompressed with colour masks.
pub(crate) fn compression(info: &Info) -> u32
    ensures { result ≡ compression info.now.head.now }
{
    number_by_age(info, Field::None, Field::Four(30))
}

/// The number of colours in the palette. 0 means as many as the pixels can number.
pub(crate) fn colors_used(info: &Info) -> u32
    ensures { result ≡ colors_used info.now.head.now }
{
    number_by_age(info, Field::None, Field::Four(46))
}

/// The depth of pixels with this many bits and this compression, if such pixels can be read.
fn known_depth(bits: u32, compression: u32) -> Option<Depth>
    ensures { IsKnownDepth bits compression result }
{
    if compression == 0 {
        match bits {
            1 => Some(Depth::One),
            4 => Some(Depth::Four),
            8 => Some(Depth::Eight),
            24 => Some(Depth::TwentyFour),
            32 => Some(Depth::ThirtyTwo),
            _ => None,
        }
    } else if compression == 3 && bits == 32 {
        Some(Depth::ThirtyTwo)
    } else {
        None
    }
}

/// The depth of the pixels, if such pixels can be read.
pub(crate) fn pixel_depth(info: &Info) -> Option<Depth>
    ensures { IsDepth info.now.head.now result }
{
    if number_by_age(info, Field::Two(22), Field::Two(26)) != 1 {
        return None;
    }
    let bits = number_by_age(info, Field::Two(24), Field::Two(28));
    known_depth(bits, compression(info))
}

fn stated_height(info: &Info) -> u32
    ensures { result ≡ stated_height info.now.head.now }
{
    number_by_age(info, Field::Two(20), Field::Four(22))
}

/// The sign bit of a number of four bytes.
const SIGN: u32 = 2147483648;

/// The width in pixels. It is 0 if the header gives a negative width.
pub(crate) fn width(info: &Info) -> u32
    ensures { result ≡ width info.now.head.now }
{
    let width = number_by_age(info, Field::Two(18), Field::Four(18));
    if width >= SIGN { 0 } else { width }
}

/// The height in pixels.
pub(crate) fn height(info: &Info) -> u32
    ensures { result ≡ height info.now.head.now }
{
    let height = stated_height(info);
    if height >= SIGN {
        u32::MAX - height + 1
    } else {
        height
    }
}

/// Whether the first row is the top row. If not, it is the lowest one.
pub(crate) fn is_top_down(info: &Info) -> bool
    ensures { result ≡ is_top_down info.now.head.now }
{
    stated_height(info) >= SIGN
}

/// The number of bytes of the masks that follow the header.
pub(crate) fn mask_bytes(info: &Info) -> u32
    ensures value { result ≡ mask_bytes info.now.head.now }
    ensures most { result ≤ 12 }
{
    if info.head.four_at(14) == 40 && compression(info) == 3 {
        12
    } else {
        0
    }
}

/// Whether the masks of red, green and blue are those of a pixel without masks.
fn has_known_masks(info: &Info) -> bool
    requires { 64 ≤ length info.now.head.now }
    ensures { result ≡ has_known_masks info.now.head.now }
{
    info.head.four_at(54) == 0x00ff0000
        && info.head.four_at(58) == 0x0000ff00
        && info.head.four_at(62) == 0x000000ff
}

/// How many colours pixels of this depth can number, if the picture has a palette.
fn most_colors(depth: Depth) -> Option<u32>
    ensures { IsMostColors depth result }
{
    match depth {
        Depth::One => Some(2),
        Depth::Four => Some(16),
        Depth::Eight => Some(256),
        Depth::TwentyFour | Depth::ThirtyTwo => None,
    }
}

/// Whether the palette has no more colours than the pixels can number.
fn has_known_palette(info: &Info, depth: Depth) -> bool
    requires kind { bits info.now.head.now ≡ bits_in depth }
    ensures { result ≡ (not (has_palette info.now.head.now) || nat_le (colors_used
        info.now.head.now)
        (2 ^ bits info.now.head.now)) }
{
    match most_colors(depth) {
        Some(most) => colors_used(info) <= most,
        None => true,
    }
}

/// Whether the masks can be read, and the palette has no more colours than the pixels can number.
pub(crate) fn has_known_colors(info: &Info, depth: Depth) -> bool
    requires masked { has_masks info.now.head.now ≡ true → 64 ≤ length info.now.head.now }
    requires kind { bits info.now.head.now ≡ bits_in depth }
    ensures { result ≡ has_known_colors info.now.head.now }
{
    (compression(info) != 3 || has_known_masks(info)) && has_known_palette(info, depth)
}

/// The number of bytes of a colour in the palette.
pub(crate) fn color_bytes(info: &Info) -> u32
    ensures value { result ≡ color_bytes info.now.head.now }
    ensures least { 3 ≤ result }
    ensures most { result ≤ 4 }
{
    if is_short(info) { 3 } else { 4 }
}

/// The number of colours in the palette.
pub(crate) fn palette_length(info: &Info, depth: Depth) -> u32
    requires kind { bits info.now.head.now ≡ bits_in depth }
    requires colors { has_known_colors info.now.head.now ≡ true }
    ensures value { result ≡ palette_length info.now.head.now }
    ensures most { result ≤ 256 }
{
    match most_colors(depth) {
        Some(most) => {
            let used = colors_used(info);
            if used == 0 { most } else { used }
        }
        None => 0,
    }
}

/// The offset of the first byte after the header, its masks and its palette.
pub(crate) fn palette_end(info: &Info, depth: Depth) -> u32
    requires kind { bits info.now.head.now ≡ bits_in depth }
    requires colors { has_known_colors info.now.head.now ≡ true }
    ensures value { result ≡ palette_end info.now.head.now }
    ensures least { 14 ≤ result }
{
    let colors = color_bytes(info) * palette_length(info, depth);
    14 + info.head.four_at(14) + mask_bytes(info) + colors
}
