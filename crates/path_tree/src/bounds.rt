//! The bounds of a path.
ghost use Rattle.std.specs.Prelude.{All};
ghost use Rattle.path_decompose.specs.Bounds.{IsCornerOf};
ghost use Rattle.path_tree.specs.Inner.Candidates.{IsInBounds, IsPageBounds};
ghost use Rattle.pt_core.specs.declared.point.Point.{Point};

use pt_core::Point;

/// The least and the greatest column and row of some corners.
#[derive(Clone, Copy)]
pub(crate) struct Bounds {
    pub left: u32,
    pub right: u32,
    pub bottom: u32,
    pub top: u32,
}

impl Bounds {
    /// The bounds of some points.
    pub(crate) fn of(points: &[Point]) -> Bounds
        requires { All (IsCornerOf 32767 32767) points.now }
        ensures within { All (IsInBounds result) points.now }
        ensures rows { IsPageBounds result }
    {
        let mut bounds = Bounds {
            left: 32767,
            right: 0,
            bottom: 32767,
            top: 0,
        };
        for point in points {
            bounds = bounds.with(*point);
        }
        bounds
    }

    /// These bounds, extended to one more point.
    fn with(self, point: Point) -> Bounds
        requires corner { IsCornerOf 32767 32767 point }
        requires rows { IsPageBounds self }
        ensures point { IsInBounds result point }
        ensures others { (other : Point) → IsInBounds self other → IsInBounds result other }
        ensures rows { IsPageBounds result }
    {
        let x = point.x.unsigned_abs();
        let y = point.y.unsigned_abs();
        Bounds {
            left: self.left.min(x),
            right: self.right.max(x),
            bottom: self.bottom.min(y),
            top: self.top.max(y),
        }
    }
}
