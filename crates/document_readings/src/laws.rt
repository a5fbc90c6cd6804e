//! What follows from the definitions alone.
ghost use Rattle.std.specs.Prelude.{◌≡◌, ℕ, ◌*◌, ◌^◌, ◌<◌, ◌≤◌, pos, ◌-ℤ◌, All, Bool, List, [], ◌∷◌, Some, length, map};
ghost use Rattle.pt_core.specs.declared.piece.Piece.{Piece};
ghost use Rattle.pt_core.specs.declared.trace.Trace.{Trace};
ghost use Rattle.eps_backend.specs.EpsText.{eps_text, ps_page_text};
ghost use Rattle.svg_backend.specs.SvgText.{svg_text};
ghost use Rattle.dxf_geojson.specs.{dxf_text, geojson_text};
ghost use Rattle.run_output.specs.Parts.{file_text};
ghost use Rattle.document_readings.specs.{Place, dsc_pages, dxf_polylines, eps_box, geojson_polygons, path_subpaths, AreInReach, ComesBack, outline_subpath, ps_painted, HasTwoPieces, HaveTwoPieces, polyline_of, trace_polygons, trace_picture, up_the_page, svg_picture, filled_shapes, path_data, image_by};

/// Path data draws its outlines: a closed subpath for each, with each place rounded by itself.
pub fn path_data_draws_its_outlines()
    ensures { (unit : ℕ) (outlines : List (List Piece)) → unit ≤ 1000 → AreInReach outlines
        → path_subpaths (path_data unit outlines) ≡ Some (map (outline_subpath unit) outlines) }
{}

/// An outline's subpath ends where it starts, so that closing it adds no line.
pub fn outlines_come_back()
    ensures { (unit : ℕ) (pieces : List Piece) → ComesBack (outline_subpath unit pieces) }
{}

/// A document of vector graphics, read as XML and as SVG, is its trace's picture: the whole page, and a path for each
/// shape, or one for all, with the outlines of the shape.
pub fn svg_documents_show_their_traces()
    ensures { (unit : ℕ) (flat : Bool) (trace : Trace) → unit ≤ 1000 → trace.width < 2 ^ 32 → trace.height < 2 ^ 32
        → AreInReach trace.outlines → svg_picture (svg_text unit flat trace) ≡ Some (trace_picture unit flat trace) }
{}

/// Its transformations put a place that lies so far above the page's lower edge so far above the lower edge of the view.
pub fn pictures_stand_upright()
    ensures { (height : ℕ) (p : Place) → image_by (up_the_page height) p ≡ record { x = p.x; y = pos height -ℤ p.y } }
{}

/// A GeoJSON text, read as JSON and as GeoJSON, is the polygons of its trace: one for each shape, with the chord points
/// of its outlines as linear rings, each rounded to thousandths of a pixel by itself.
pub fn geojson_documents_show_their_traces()
    ensures { (trace : Trace) → AreInReach trace.outlines → HaveTwoPieces trace → geojson_polygons (geojson_text trace) ≡ Some (trace_polygons trace) }
{}

/// A drawing interchange file, read group by group, is a closed polyline for each outline of its trace, with a vertex for
/// each chord point but the last one, which is the first.
pub fn dxf_documents_show_their_traces()
    ensures { (trace : Trace) → AreInReach trace.outlines → All HasTwoPieces trace.outlines
        → dxf_polylines (dxf_text trace) ≡ Some (map polyline_of trace.outlines) }
{}

/// An Encapsulated PostScript document, executed word by word, fills the shapes of its trace, under a scale by which so
/// many units are a point; it shows no page. A page of a PostScript document fills them, and then it is shown. Nothing is
/// left over: no operand, no saved graphics state and no path.
pub fn programs_fill_their_traces()
    ensures document { (unit : ℕ) (trace : Trace) → 1 ≤ unit → unit ≤ 1000 → trace.width < 2 ^ 32 → trace.height < 2 ^ 32
        → AreInReach trace.outlines → ps_painted (eps_text unit trace) ≡ Some (record { pages = []; unshown = filled_shapes unit trace }) }
    ensures page { (unit : ℕ) (trace : Trace) → 1 ≤ unit → unit ≤ 1000
        → AreInReach trace.outlines → ps_painted (ps_page_text unit trace) ≡ Some (record { pages = filled_shapes unit trace ∷ []; unshown = [] }) }
{}

/// An Encapsulated PostScript document says that it is one, and that its box is the whole page, a pixel a point.
pub fn programs_tell_their_boxes()
    ensures { (unit : ℕ) (trace : Trace) → trace.width < 2 ^ 32 → trace.height < 2 ^ 32
        → eps_box (eps_text unit trace) ≡ Some (record { left = 0; bottom = 0; right = trace.width; top = trace.height }) }
{}

/// The document of a file of pages, read by the document structuring conventions, is these pages, numbered in order and as
/// many as it tells; and executed as one program it shows them one behind another, each with the shapes of its trace alone.
pub fn files_show_their_pages()
    ensures pages { (unit : ℕ) (traces : List Trace) → unit ≤ 1000 → length traces < 2 ^ 64 → All (λ trace. AreInReach trace.outlines) traces
        → dsc_pages (file_text (map (ps_page_text unit) traces)) ≡ Some (map (ps_page_text unit) traces) }
    ensures painted { (unit : ℕ) (traces : List Trace) → 1 ≤ unit → unit ≤ 1000 → length traces < 2 ^ 64 → All (λ trace. AreInReach trace.outlines) traces
        → ps_painted (file_text (map (ps_page_text unit) traces)) ≡ Some (record { pages = map (filled_shapes unit) traces; unshown = [] }) }
{}
