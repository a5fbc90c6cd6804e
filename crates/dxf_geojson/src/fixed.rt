//! Coordinates in pixels.
ghost use Rattle.std.specs.Prelude.{◌≡◌, ◌+◌, ◌≤◌, ◌++◌, length, drop};
ghost use Rattle.dxf_geojson.specs.DxfText.{pixels_text};

use pt_core::{round_unit, write_fixed};

/// Writes a coordinate in pixels, rounded to thousandths, into the buffer, so that it ends at index `end`. `c` is in
/// units of 1/1024 pixel. Returns the index at which the text starts.
#[inline(always)]
pub(crate) fn write_pixels(c: i32, text: &mut [u8], end: usize) -> usize
    requires room { 25 ≤ end }
    requires within { end ≤ length text.old }
    ensures start { end ≤ result + 25 }
    ensures before { result ≤ end }
    ensures written { drop result text.new ≡ pixels_text c ++ drop end text.old }
{
    write_fixed(round_unit(i64::from(c), 1000), text, end)
}
