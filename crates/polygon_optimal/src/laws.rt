//! What follows from the definitions alone.
ghost use Rattle.std.specs.Prelude.{◌≡◌, ℕ, ◌-◌, ◌*◌, ◌<◌, ◌≤◌, List, length, All};
ghost use Rattle.pt_core.specs.ClosedWalk.{IsClosedWalk};
ghost use Rattle.pt_core.specs.declared.point.Point.{Point};
ghost use Rattle.prefix_moments.specs.Sums.{IsPenalty};
ghost use Rattle.polygon_search.specs.Polygon.{IsPolygon, IsBestPolygon, penalty_of, total_penalty};
ghost use Rattle.straight_paths.specs.Straight.{IsPossible};

/// A path has at most one best polygon.
pub fn best_polygons_are_one()
    ensures { (points : List Point) (at other : List ℕ)
        → IsBestPolygon points at → IsBestPolygon points other → at ≡ other }
{}

/// The penalty of a segment is the one number that the sums over its points give.
pub fn penalties_are_one()
    ensures is { (points : List Point) (i j : ℕ) → IsPenalty points i j (penalty_of points i j) }
    ensures one { (points : List Point) (i j penalty : ℕ)
        → IsPenalty points i j penalty → penalty ≡ penalty_of points i j }
{}

/// Penalties are small: a possible segment's is at most 1 for each of its steps, in units of 1/256 as penalties
/// are, and so a polygon's are together at most 1 for each step of the walk.
pub fn penalties_are_small()
    ensures segment { (points : List Point) (i j penalty : ℕ) → IsClosedWalk points
        → IsPossible points i j → IsPenalty points i j penalty → penalty ≤ 256 * (j - i) }
    ensures polygon { (points : List Point) (at : List ℕ) → IsClosedWalk points
        → IsPolygon points at → total_penalty points at ≤ 256 * length points }
{}

/// A polygon of a closed walk has at least two vertices, and each of them is a point of the walk.
pub fn polygons_have_vertices()
    ensures some { (points : List Point) (at : List ℕ)
        → IsClosedWalk points → IsPolygon points at → 2 ≤ length at }
    ensures points { (points : List Point) (at : List ℕ)
        → IsPolygon points at → All (λ i. i < length points) at }
{}

/// A closed walk has a best polygon.
pub fn closed_walks_have_best_polygons()
    ensures { (points : List Point) → IsClosedWalk points
        → (at : List ℕ) × IsBestPolygon points at }
{}
