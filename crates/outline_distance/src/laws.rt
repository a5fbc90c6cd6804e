//! What follows from the definitions alone.
ghost use Rattle.std.specs.Prelude.{◌≡◌, ◌⊎◌, true, false, ℕ, ◌+◌, ◌-◌, ◌*◌, ◌<◌, ◌≤◌, ◌+ℤ◌, All, List, length, slice_index, slice_index_or, slice_range, ◌^◌, codes};
ghost use Rattle.pt_core.specs.ClosedWalk.{IsClosedWalk, point_at, origin};
ghost use Rattle.pt_core.specs.declared.point.Point.{Point};
ghost use Rattle.pt_core.specs.declared.piece.Piece.TheVariants.{Corner, Curve};
ghost use Rattle.pt_core.specs.declared.piece.Piece.{Piece};
ghost use Rattle.pt_core.specs.declared.settings.Settings.{Settings};
ghost use Rattle.pt_core.specs.declared.trace.Trace.{Trace};
ghost use Rattle.bit_image.specs.Page.{Page, IsPage};
ghost use Rattle.straight_paths.specs.Straight.{IsPossible, IsNear, vector_of};
ghost use Rattle.corner_smooth.specs.Corner.{control_of, middle_of, piece_of, pieces_of};
ghost use Rattle.vertex_adjust.specs.Vertex.{AreVertices, segment_end_of};
ghost use Rattle.curve_join.specs.Bends.{bends_of};
ghost use Rattle.curve_join.specs.Choice.{IsBestJoin};
ghost use Rattle.curve_join.specs.Cubic.{touching_of};
ghost use Rattle.curve_join.specs.Join.{MayJoin, cubic_at};
ghost use Rattle.curve_join.specs.Outline.{Outline, is_curve, piece_at, vertex};
ghost use Rattle.curve_join.specs.Vector.{way_of};
ghost use Rattle.page_trace.specs.Trace.{IsOutlineOf, IsTrace, ArePaths};
ghost use Rattle.dxf_geojson.specs.Chords.{chord_points, curve_point};
ghost use Rattle.outline_distance.specs.Curves.{BendsBy, curve_place};
ghost use Rattle.outline_distance.specs.Pages.{IsAlmostOnPage, OfPoints};
ghost use Rattle.outline_distance.specs.Polygons.{IsAnyPolygon};
ghost use Rattle.outline_distance.specs.Written.{as_written};
ghost use Rattle.outline_distance.specs.Distance.{DividesBy, IsCloseTo, LinePassesBy, PassesBy, divided, eightfold_middle, multiple, point_place};
ghost use Rattle.pt_core.specs.declared.path.Path.{Path};
ghost use Rattle.pt_core.specs.declared.settings.Backend.{Backend};
ghost use Rattle.outline_check.specs.Verdicts.{IsVerdict};
ghost use Rattle.outline_check.specs.declared.verdict.Verdict.TheVariants.{Right};
ghost use Rattle.run_output.specs.Told.{Sinks, Source};
ghost use Rattle.small_program.specs.Input.{TellsInput};
ghost use Rattle.small_program.specs.ProgramRun.{IsProgramRun};
ghost use Rattle.run_output.specs.declared.status.Status.{Status};
ghost use Rattle.outline_check_run.specs.Rechecked.{FindsRight};
ghost use Rattle.outline_check_run.specs.Verdict.{IsCheckReply};
ghost use Rattle.page_trace.specs.Document.{IsDocument};
ghost use Rattle.point_fill.specs.Filled.{IsFilled};

/// Each vertex is at most half a pixel from its point of the path.
pub fn vertices_are_close()
    ensures { (points : List Point) (at : List ℕ) (vertices : List Point) (k : ℕ)
        → AreVertices points at vertices → k < length at
        → IsCloseTo 512 (point_place (point_at points (slice_index at k))) (slice_index_or vertices k origin) }
{}

/// A segment's half-line passes each point between its ends within a pixel.
pub fn points_are_near_segments()
    ensures { (points : List Point) (i j k : ℕ) → IsPossible points i j → i ≤ k → k ≤ j
        → IsNear (vector_of (point_at points i) (point_at points k)) (vector_of (point_at points i) (point_at points j)) }
{}

/// The straight way between a segment's ends passes each point of the path between them within a pixel.
pub fn segments_pass_by()
    ensures { (points : List Point) (i j k : ℕ) → IsClosedWalk points → IsPossible points i j → i ≤ k → k ≤ j
        → PassesBy 1024 (point_place (point_at points i)) (point_place (point_at points j)) (point_place (point_at points k)) }
{}

/// The straight way between two neighbouring vertices passes each point that its segment stands for within one and
/// a half pixels.
pub fn sides_pass_by()
    ensures { (points : List Point) (at : List ℕ) (vertices : List Point) (k i : ℕ)
        → IsClosedWalk points → IsAnyPolygon points at → AreVertices points at vertices
        → k < length at → slice_index at k ≤ i → i ≤ segment_end_of points at k
        → PassesBy 1536 (point_at vertices k) (point_at vertices (k + 1)) (point_place (point_at points i)) }
{}

/// Halfway between two neighbouring vertices a point of the path is at most one and a half pixels away.
pub fn joints_are_close()
    ensures { (points : List Point) (at : List ℕ) (vertices : List Point) (k : ℕ)
        → IsClosedWalk points → IsAnyPolygon points at → AreVertices points at vertices → k < length at
        → (i : ℕ) × (slice_index at k ≤ i) × (i ≤ segment_end_of points at k)
        × IsCloseTo 1536 (middle_of (point_at vertices k) (point_at vertices (k + 1))) (point_place (point_at points i)) }
{}

/// Each point of a path is at most one and a half pixels from the outline of corners at its vertices.
pub fn points_are_close_to_outlines()
    ensures { (points : List Point) (at : List ℕ) (vertices : List Point) (i : ℕ)
        → IsClosedWalk points → IsAnyPolygon points at → AreVertices points at vertices → i < length points
        → (k : ℕ) × (k < length vertices) × PassesBy 1536 (point_at vertices k) (point_at vertices (k + 1)) (point_place (point_at points i)) }
{}

/// Each control of a curve lies on the side between its vertex and the neighbour, but for rounding.
pub fn controls_lie_on_sides()
    ensures { (al : ℕ) (neighbour at : Point) → al ≤ 65536 → PassesBy 1 neighbour at (control_of al neighbour at) }
{}

/// Where no sharpness is asked for (`-a 0`), each piece is a corner: the two straight lines by way of its vertex.
pub fn all_pieces_are_corners()
    ensures { (before at after : Point) → piece_of 0 before at after ≡ Corner at (middle_of at after) }
{}

/// Corners aren't joined: an outline without a curve is its own best join.
pub fn corners_are_not_joined()
    ensures { (tol : ℕ) (o : Outline) (pieces : List Piece)
        → ((k : ℕ) → k < length o.pieces → is_curve (piece_at o.pieces k) ≡ false)
        → IsBestJoin tol o pieces → pieces ≡ o.pieces }
{}

/// So where no sharpness is asked for, an outline is the corners at its vertices, whether curves are joined or not.
pub fn outlines_are_corners()
    ensures { (settings : Settings) (vertices : List Point) (pieces : List Piece)
        → settings.alphamax ≡ 0 → IsOutlineOf settings vertices pieces → pieces ≡ pieces_of 0 vertices }
{}

/// The middle of two vertices isn't rounded, so the outline of corners is just the polygon of its vertices.
pub fn joints_are_halfway()
    ensures { (points : List Point) (at : List ℕ) (vertices : List Point) (j k : ℕ)
        → AreVertices points at vertices → j < length at → k < length at
        → let a = slice_index_or vertices j origin in let b = slice_index_or vertices k origin in
        (((middle_of a b).x +ℤ (middle_of a b).x ≡ a.x +ℤ b.x) × ((middle_of a b).y +ℤ (middle_of a b).y ≡ a.y +ℤ b.y)) }
{}

/// Each place of the outline of corners is at most two pixels from a point of the path, which its side stands for.
pub fn places_of_sides_are_close()
    ensures { (points : List Point) (at : List ℕ) (vertices : List Point) (k before after : ℕ)
        → IsClosedWalk points → IsAnyPolygon points at → AreVertices points at vertices → k < length at → 1 ≤ before + after
        → (i : ℕ) × (slice_index at k ≤ i) × (i ≤ segment_end_of points at k)
        × DividesBy 2048 before after (point_at vertices k) (point_at vertices (k + 1)) (point_place (point_at points i)) }
{}

/// Each place of the outline of corners is at most one and a half pixels from a place of an edge of the path, which
/// its side stands for.
pub fn places_of_sides_are_close_to_edges()
    ensures { (points : List Point) (at : List ℕ) (vertices : List Point) (k before after : ℕ)
        → IsClosedWalk points → IsAnyPolygon points at → AreVertices points at vertices → k < length at → 1 ≤ before + after
        → (i : ℕ) × (slice_index at k ≤ i) × (i < segment_end_of points at k) × (here : ℕ) × (there : ℕ) × (here + there ≡ before + after)
        × IsCloseTo ((before + after) * 1536) (divided before after (point_at vertices k) (point_at vertices (k + 1)))
        (divided here there (point_place (point_at points i)) (point_place (point_at points (i + 1)))) }
{}

/// Each place of an edge of the path is at most one and a half pixels from the side that stands for the edge.
pub fn edges_pass_by_sides()
    ensures { (points : List Point) (at : List ℕ) (vertices : List Point) (k i here there : ℕ)
        → IsClosedWalk points → IsAnyPolygon points at → AreVertices points at vertices
        → k < length at → slice_index at k ≤ i → i < segment_end_of points at k → 1 ≤ here + there
        → PassesBy ((here + there) * 1536) (multiple (here + there) (point_at vertices k)) (multiple (here + there) (point_at vertices (k + 1)))
        (divided here there (point_place (point_at points i)) (point_place (point_at points (i + 1)))) }
{}

/// Where vertices as sharp as 1, or less sharp ones, are corners, the line through a curve's middle that runs as the
/// way between the vertex's neighbours does passes the vertex within half a pixel and a unit. But for rounding it is
/// the curve's tangent there. So a curve cuts off no more across that way, but may cut off any length along it.
pub fn curves_pass_by_vertices()
    ensures { (alphamax al : ℕ) (before at after first second end : Point)
        → alphamax ≤ 1000000 → piece_of alphamax before at after ≡ Curve first second end al
        → LinePassesBy (8 * 513) before after (eightfold_middle (middle_of before at) first second end) (multiple 8 at) }
{}

/// Where a joined curve goes along with a side between two of its vertices, it is no farther than the tolerance from
/// the side, at a place between the side's ends.
pub fn joined_curves_pass_by_sides()
    ensures { (tol : ℕ) (o : Outline) (i j k : ℕ)
        → j ≤ length o.pieces → MayJoin tol (slice_range (bends_of o) i j) → i ≤ k → k + 1 < j
        → PassesBy tol (vertex o k) (vertex o (k + 1))
        (touching_of (cubic_at (slice_range (bends_of o) i j)) (way_of (vertex o k) (vertex o (k + 1)))) }
{}

/// A place of a curve between two neighbouring eighths of its parameter is off the chord between these, at the same
/// part of it, by at most 3/256 of the curve's greatest second difference.
pub fn chords_pass_by_curves()
    ensures { (start first second end : Point) (most k before after : ℕ) → k < 8 → BendsBy most start first second end
        → IsCloseTo (6 * ((before + after) * (before + after) * (before + after)) * most)
        (multiple ((before + after) * (before + after)) (divided before after
        (curve_place (8 - k) k start first second end) (curve_place (7 - k) (k + 1) start first second end)))
        (curve_place (before * (8 - k) + after * (7 - k)) (before * k + after * (k + 1)) start first second end) }
{}

/// A point that is written for a curve in DXF and GeoJSON is within a unit of the curve's place at its eighth.
pub fn chord_points_are_rounded()
    ensures { (start first second end : Point) (k : ℕ)
        → IsCloseTo 512 (multiple 512 (curve_point start first second end k)) (curve_place (8 - k) k start first second end) }
{}

/// A place as a text has it is off by at most half a unit.
pub fn places_are_rounded()
    ensures { (unit : ℕ) (p : Point) → IsCloseTo 512 (as_written unit p) (multiple unit p) }
{}

/// As a text has them, vertices are at most half a pixel and half a unit from their points of the path. Joints are at
/// most one and a half pixels and half a unit from a point. Each point of the path is so close to one of the lines
/// between a vertex and a joint, and each place of these lines to a place of an edge that the side stands for.
pub fn written_outlines_are_close()
    ensures vertices { (points : List Point) (at : List ℕ) (vertices : List Point) (unit k : ℕ)
        → AreVertices points at vertices → k < length at
        → IsCloseTo (unit * 512 + 512) (as_written unit (point_at vertices k)) (multiple unit (point_place (point_at points (slice_index at k)))) }
    ensures joints { (points : List Point) (at : List ℕ) (vertices : List Point) (unit k : ℕ)
        → IsClosedWalk points → IsAnyPolygon points at → AreVertices points at vertices → k < length at
        → (i : ℕ) × (slice_index at k ≤ i) × (i ≤ segment_end_of points at k)
        × IsCloseTo (unit * 1536 + 512) (as_written unit (middle_of (point_at vertices k) (point_at vertices (k + 1)))) (multiple unit (point_place (point_at points i))) }
    ensures points { (points : List Point) (at : List ℕ) (vertices : List Point) (unit i : ℕ)
        → IsClosedWalk points → IsAnyPolygon points at → AreVertices points at vertices → i < length points
        → (k : ℕ) × (k < length vertices) × (let joint = middle_of (point_at vertices k) (point_at vertices (k + 1)) in
        (PassesBy (unit * 1536 + 512) (as_written unit (point_at vertices k)) (as_written unit joint) (multiple unit (point_place (point_at points i)))
        ⊎ PassesBy (unit * 1536 + 512) (as_written unit joint) (as_written unit (point_at vertices (k + 1))) (multiple unit (point_place (point_at points i))))) }
    ensures to_joints { (points : List Point) (at : List ℕ) (vertices : List Point) (unit k before after : ℕ)
        → IsClosedWalk points → IsAnyPolygon points at → AreVertices points at vertices → k < length at → 1 ≤ before + after
        → (i : ℕ) × (slice_index at k ≤ i) × (i < segment_end_of points at k) × (here : ℕ) × (there : ℕ) × (here + there ≡ 2 * (before + after))
        × IsCloseTo (2 * (before + after) * (unit * 1536 + 512))
        (multiple 2 (divided before after (as_written unit (point_at vertices k)) (as_written unit (middle_of (point_at vertices k) (point_at vertices (k + 1))))))
        (multiple unit (divided here there (point_place (point_at points i)) (point_place (point_at points (i + 1))))) }
    ensures from_joints { (points : List Point) (at : List ℕ) (vertices : List Point) (unit k before after : ℕ)
        → IsClosedWalk points → IsAnyPolygon points at → AreVertices points at vertices → k < length at → 1 ≤ before + after
        → (i : ℕ) × (slice_index at k ≤ i) × (i < segment_end_of points at k) × (here : ℕ) × (there : ℕ) × (here + there ≡ 2 * (before + after))
        × IsCloseTo (2 * (before + after) * (unit * 1536 + 512))
        (multiple 2 (divided before after (as_written unit (middle_of (point_at vertices k) (point_at vertices (k + 1)))) (as_written unit (point_at vertices (k + 1)))))
        (multiple unit (divided here there (point_place (point_at points i)) (point_place (point_at points (i + 1))))) }
{}

/// Where curves aren't joined (`-n`), or there are none (`-a 0`), each vertex, control and joint of a page's outlines
/// is on the page but for half a pixel, and as a text has it but for half a unit more.
pub fn unjoined_outlines_are_almost_on_pages()
    ensures traced { (page : Page) (settings : Settings) (trace : Trace)
        → IsPage page → IsTrace page settings trace → (settings.long_curve ≡ true) ⊎ (settings.alphamax ≡ 0)
        → All (All (OfPoints (IsAlmostOnPage 512 page.width page.height))) trace.outlines }
    ensures written { (page : Page) (settings : Settings) (trace : Trace) (unit : ℕ)
        → IsPage page → IsTrace page settings trace → (settings.long_curve ≡ true) ⊎ (settings.alphamax ≡ 0)
        → All (All (OfPoints (λ p. IsAlmostOnPage (unit * 512 + 512) (unit * page.width) (unit * page.height) (as_written unit p)))) trace.outlines }
{}

/// Each place of a line is on a page as nearly as its two ends are, and each place of a curve as nearly as its four
/// points. So are the points that are written for an outline in DXF and GeoJSON.
pub fn pieces_keep_to_their_points()
    ensures lines { (most width height before after : ℕ) (from to : Point)
        → IsAlmostOnPage most width height from → IsAlmostOnPage most width height to
        → IsAlmostOnPage ((before + after) * most) ((before + after) * width) ((before + after) * height) (divided before after from to) }
    ensures curves { (most width height before after : ℕ) (start first second end : Point)
        → IsAlmostOnPage most width height start → IsAlmostOnPage most width height first
        → IsAlmostOnPage most width height second → IsAlmostOnPage most width height end
        → let n = (before + after) * (before + after) * (before + after) in
        IsAlmostOnPage (n * most) (n * width) (n * height) (curve_place before after start first second end) }
    ensures chords { (most width height : ℕ) (pieces : List Piece)
        → All (OfPoints (IsAlmostOnPage most width height)) pieces
        → All (IsAlmostOnPage most width height) (chord_points pieces) }
{}

/// The points document of a page, under any turn policy and with no speckle left out, fills the page.
pub fn points_documents_fill_their_pages()
    ensures { (page : Page) (settings : Settings) (text : List ℕ) → IsPage page
        → settings.backend ≡ Backend.Points → settings.turd ≡ 0
        → IsDocument page settings text → IsFilled text page }
{}

/// The certificates of a page are right, as many as the page has paths that are no speckles. And a run of `outline_check`
/// without words whose input they are finds them right.
pub fn certificates_of_pages_are_right()
    ensures right { (page : Page) (settings : Settings) (text : List ℕ) → IsPage page
        → settings.backend ≡ Backend.Proofs → settings.cyclic ≡ false → IsDocument page settings text
        → (paths : List Path) × ArePaths page settings paths × IsVerdict text (Right (length paths)) }
    ensures found { (page : Page) (settings : Settings) (text : List ℕ) → IsPage page
        → settings.backend ≡ Backend.Proofs → settings.cyclic ≡ false → IsDocument page settings text
        → (paths : List Path) × ArePaths page settings paths
        × ((ending : Status) (source source_now : Source) (old now : Sinks)
        → IsProgramRun IsCheckReply (codes "outline_check") 0 ending source source_now old now
        → TellsInput source.files text → length text ≤ 2 ^ 30
        → FindsRight (length paths) ending source source_now old now) }
{}
