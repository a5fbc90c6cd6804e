//! What follows of polygons.
ghost use Rattle.std.specs.Prelude.{ℕ, ◌<◌, List, length};
ghost use Rattle.pt_core.specs.declared.point.Point.{Point};
ghost use Rattle.polygon_search.specs.Polygon.{IsPolygon};
ghost use Rattle.cyclic_optimal.specs.Cyclic.{IsCyclicPolygon};
ghost use Rattle.vertex_adjust.specs.Vertex.{IsPolygonAlong};

/// A polygon of a path's points, through the first one or cyclic, goes along the path, as the adjustment of its
/// vertices asks.
pub fn polygons_go_along_paths()
    ensures through_first { (points : List Point) (at : List ℕ) → 0 < length points
        → IsPolygon points at → IsPolygonAlong points at }
    ensures cyclic { (points : List Point) (at : List ℕ)
        → IsCyclicPolygon points at → IsPolygonAlong points at }
{}
