//! What follows from the definitions alone.
ghost use Rattle.std.specs.Prelude.{ℕ, ◌+◌, ◌*◌, ◌≤◌, List, length, sum_by};
ghost use Rattle.std.specs.List.{AllZip};
ghost use Rattle.pt_core.specs.declared.settings.Settings.{Settings};
ghost use Rattle.pt_core.specs.declared.trace.Trace.{Trace};
ghost use Rattle.bit_image.specs.Page.{Page, IsPage};
ghost use Rattle.run_output.specs.Parts.{file_text};
ghost use Rattle.page_trace.specs.Document.{IsDocument};
ghost use Rattle.page_trace.specs.Trace.{HasPolygons, IsTrace};
ghost use Rattle.page_sizes.specs.Bytes.{bytes_beside, bytes_each};
ghost use Rattle.page_sizes.specs.Edges.{point_count, side_count};

pub mod edges;

/// A polygon has no more vertices than its path has points, and outlines no more pieces together than their paths.
pub fn outlines_have_few_pieces()
    ensures polygons { (page : Page) (settings : Settings) (trace : Trace) → HasPolygons page settings trace
        → AllZip (λ path polygon. length polygon.at ≤ length path.points) trace.paths trace.polygons }
    ensures pieces { (page : Page) (settings : Settings) (trace : Trace) → IsTrace page settings trace
        → sum_by length trace.outlines ≤ point_count trace.paths }
{}

/// A page's document has at most so many bytes for each side of its pixels, and so many more, by its backend, where a
/// pixel has at most 1,000 units.
pub fn documents_are_small()
    ensures { (page : Page) (settings : Settings) (text : List ℕ) → IsPage page → settings.unit ≤ 1000 → IsDocument page settings text
        → length text ≤ bytes_each settings.backend * side_count page.width page.height + bytes_beside settings.backend }
{}

/// The PostScript document of a file has its pages' bytes, at most 20 more for each of them, and 77 more.
pub fn files_are_small()
    ensures { (texts : List (List ℕ)) → length texts ≤ 65536 → length (file_text texts) ≤ sum_by length texts + 20 * length texts + 77 }
{}
