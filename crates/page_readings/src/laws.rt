//! What follows from the definitions alone.
ghost use Rattle.std.specs.Prelude.{◌≡◌, ℕ, ◌≤◌, All, List, [], ◌∷◌, Some, length, map};
ghost use Rattle.std.specs.List.{AllZip};
ghost use Rattle.pt_core.specs.declared.settings.Backend.{Backend};
ghost use Rattle.pt_core.specs.declared.settings.Settings.{Settings};
ghost use Rattle.pt_core.specs.declared.trace.Trace.{Trace};
ghost use Rattle.bit_image.specs.Page.{Page, IsPage};
ghost use Rattle.run_output.specs.Made.{most_pages};
ghost use Rattle.run_output.specs.Parts.{file_text};
ghost use Rattle.page_trace.specs.{IsDocument, IsTrace};
ghost use Rattle.document_readings.specs.{dsc_pages, dxf_polylines, eps_box, geojson_polygons, ps_painted, polyline_of, trace_polygons, trace_picture, svg_picture, filled_shapes};
ghost use Rattle.page_readings.specs.AskedFor.{AskUnder};

/// A page's document of vector graphics, read as such, is the picture of the page's trace.
pub fn svg_documents_show_their_pages()
    ensures { (words : List (List ℕ)) (settings : Settings) (page : Page) (text : List ℕ)
        → AskUnder words settings → settings.backend ≡ Backend.Svg → IsPage page → IsDocument page settings text
        → (trace : Trace) × IsTrace page settings trace
        × (svg_picture text ≡ Some (trace_picture settings.unit settings.flat trace)) }
{}

/// A page's Encapsulated PostScript, executed, fills the shapes of the page's trace, and its box is the page.
pub fn eps_documents_show_their_pages()
    ensures { (words : List (List ℕ)) (settings : Settings) (page : Page) (text : List ℕ)
        → AskUnder words settings → settings.backend ≡ Backend.Eps → IsPage page → IsDocument page settings text
        → (trace : Trace) × IsTrace page settings trace
        × (ps_painted text ≡ Some (record { pages = []; unshown = filled_shapes settings.unit trace }))
        × (eps_box text ≡ Some (record { left = 0; bottom = 0; right = page.width; top = page.height })) }
{}

/// A page in a PostScript document, executed by itself, shows one page, which has the shapes of the page's trace.
pub fn ps_documents_show_their_pages()
    ensures { (words : List (List ℕ)) (settings : Settings) (page : Page) (text : List ℕ)
        → AskUnder words settings → settings.backend ≡ Backend.Ps → IsPage page → IsDocument page settings text
        → (trace : Trace) × IsTrace page settings trace
        × (ps_painted text ≡ Some (record { pages = filled_shapes settings.unit trace ∷ []; unshown = [] })) }
{}

/// The document of a file's pages, read by the document structuring conventions, is the texts of these pages, numbered in
/// order and as many as it tells; executed as one program, it shows them in this order, each with the shapes of its trace.
pub fn ps_files_show_their_pages()
    ensures { (words : List (List ℕ)) (settings : Settings) (pages : List Page) (texts : List (List ℕ))
        → AskUnder words settings → settings.backend ≡ Backend.Ps → All IsPage pages → length pages ≤ most_pages
        → AllZip (λ (page : Page) (text : List ℕ). IsDocument page settings text) pages texts
        → (traces : List Trace) × AllZip (λ (page : Page) (trace : Trace). IsTrace page settings trace) pages traces
        × (dsc_pages (file_text texts) ≡ Some texts)
        × (ps_painted (file_text texts) ≡ Some (record { pages = map (filled_shapes settings.unit) traces; unshown = [] })) }
{}

/// A page's GeoJSON text, read as such, is the polygons of the page's trace.
pub fn geojson_documents_show_their_pages()
    ensures { (settings : Settings) (page : Page) (text : List ℕ)
        → settings.backend ≡ Backend.GeoJson → IsPage page → IsDocument page settings text
        → (trace : Trace) × IsTrace page settings trace × (geojson_polygons text ≡ Some (trace_polygons trace)) }
{}

/// A page's drawing interchange file, read as such, is the polylines of the page's trace.
pub fn dxf_documents_show_their_pages()
    ensures { (settings : Settings) (page : Page) (text : List ℕ)
        → settings.backend ≡ Backend.Dxf → IsPage page → IsDocument page settings text
        → (trace : Trace) × IsTrace page settings trace × (dxf_polylines text ≡ Some (map polyline_of trace.outlines)) }
{}
