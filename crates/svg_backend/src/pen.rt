//! What SVG writes around the numbers of a path.
ghost use Rattle.std.specs.Prelude.{◌≡◌};

use outline_pen::{Mark, Pen};

/// Draws each shape as a path.
pub(crate) struct SvgPen;

impl Pen for SvgPen {
    ghost use Rattle.svg_backend.specs.SvgText.{svg_mark};

    ghost mark_text = { svg_mark };

    #[inline(always)]
    fn text_at(mark: Mark) -> &'static [u8] {
        match mark {
            Mark::Shape => b"<path fill-rule=\"evenodd\" d=\"",
            Mark::Next => b" ",
            Mark::Start => b"M",
            Mark::Started => b"",
            Mark::Line => b" l",
            Mark::Lined => b"",
            Mark::Curve => b" c",
            Mark::Curved => b"",
            Mark::Closed => b" z",
            Mark::Shaped => b"\"/>\n",
        }
    }
}
