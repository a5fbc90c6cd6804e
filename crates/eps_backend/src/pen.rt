//! What PostScript writes around the numbers of a path.
ghost use Rattle.std.specs.Prelude.{◌≡◌};

use outline_pen::{Mark, Pen};

/// Fills each shape except its holes.
pub(crate) struct EpsPen;

impl Pen for EpsPen {
    ghost use Rattle.eps_backend.specs.EpsText.{eps_mark};

    ghost mark_text = { eps_mark };

    #[inline(always)]
    fn text_at(mark: Mark) -> &'static [u8] {
        match mark {
            Mark::Shape => b"",
            Mark::Next => b"",
            Mark::Start => b"",
            Mark::Started => b" moveto\n",
            Mark::Line => b"",
            Mark::Lined => b" rlineto\n",
            Mark::Curve => b"",
            Mark::Curved => b" rcurveto\n",
            Mark::Closed => b"closepath\n",
            Mark::Shaped => b"eofill\n",
        }
    }
}
