//! What follows from the definitions alone.
ghost use Rattle.std.specs.Prelude.{◌≡◌, ℕ, ℤ, List, length, map};
ghost use Rattle.pt_core.specs.declared.piece.Piece.{Piece};
ghost use Rattle.pt_core.specs.declared.point.Point.{Point};
ghost use Rattle.corner_smooth.specs.Corner.{pieces_of};
ghost use Rattle.curve_join.specs.Choice.{IsBestJoin};
ghost use Rattle.curve_join.specs.Outline.{outline};
ghost use Rattle.vertex_adjust.specs.Vertex.{AreVertices};
ghost use Rattle.path_copies.specs.Copy.{IsCopy};
ghost use Rattle.outline_copies.specs.Moved.{AreMoved, in_units, moved_by, piece_moved_by};

/// Two paths are copies of each other exactly if one of them is the other, moved by whole pixels.
pub fn copies_are_moved()
    ensures moved { (points other : List Point) → IsCopy points other → (right : ℤ) × (up : ℤ) × AreMoved right up points other }
    ensures copies { (right up : ℤ) (points other : List Point) → AreMoved right up points other → IsCopy points other }
{}

/// If a path is moved by whole pixels, the vertices of its polygon are moved by the same displacement.
pub fn copies_have_moved_vertices()
    ensures { (right up : ℤ) (points other : List Point) (at : List ℕ) (vertices : List Point)
        → AreMoved right up points other → AreVertices points at vertices
        → AreVertices other at (map (moved_by (in_units right) (in_units up)) vertices) }
{}

/// If vertices are moved by whole pixels, their smooth outline is moved by the same displacement.
pub fn moved_vertices_have_moved_pieces()
    ensures { (right up : ℤ) (alphamax : ℕ) (vertices : List Point)
        → pieces_of alphamax (map (moved_by right up) vertices) ≡ map (piece_moved_by right up) (pieces_of alphamax vertices) }
{}

/// If an outline is moved by whole pixels, its best join is moved by the same displacement.
pub fn moved_outlines_have_moved_joins()
    ensures { (right up : ℤ) (tol : ℕ) (vertices : List Point) (pieces joined : List Piece)
        → length pieces ≡ length vertices → IsBestJoin tol (outline vertices pieces) joined
        → IsBestJoin tol (outline (map (moved_by right up) vertices) (map (piece_moved_by right up) pieces)) (map (piece_moved_by right up) joined) }
{}
