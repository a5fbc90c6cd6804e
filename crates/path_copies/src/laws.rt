//! What follows from the definitions alone.
ghost use Rattle.std.specs.Prelude.{◌≡◌, ℕ, List};
ghost use Rattle.path_copies.specs.Copy.{IsCopy};
ghost use Rattle.polygon_search.specs.Polygon.{IsBestPolygon, total_penalty};
ghost use Rattle.pt_core.specs.declared.point.Point.{Point};

/// A path's best polygon is that of each of its copies, and a polygon's penalties are together the same in both.
pub fn copies_have_the_same_polygon()
    ensures best { (points other : List Point) (at : List ℕ) → IsCopy points other
        → IsBestPolygon points at → IsBestPolygon other at }
    ensures penalty { (points other : List Point) (at : List ℕ) → IsCopy points other
        → total_penalty points at ≡ total_penalty other at }
{}
