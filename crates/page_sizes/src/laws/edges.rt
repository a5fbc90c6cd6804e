//! What follows of the sides of pixels between black and white.
ghost use Rattle.std.specs.Prelude.{◌≡◌, ℕ, ◌≤◌, List};
ghost use Rattle.pt_core.specs.declared.path.Path.{Path};
ghost use Rattle.pt_core.specs.declared.policy.Policy.{Policy};
ghost use Rattle.bit_image.specs.Image.{Image};
ghost use Rattle.bit_image.specs.Page.{Page, IsPage, image_of};
ghost use Rattle.path_decompose.specs.Decomposition.{IsDecomposition};
ghost use Rattle.page_sizes.specs.Edges.{edge_count, point_count, side_count};

/// The paths of a page have together just as many points as the page has pixel sides between black and white.
pub fn points_are_edges()
    ensures { (page : Page) (policy : Policy) (paths : List Path) → IsPage page
        → IsDecomposition page policy paths → point_count paths ≡ edge_count (image_of page) page.width page.height }
{}

/// These are at most all sides of its pixels.
pub fn edges_are_sides()
    ensures { (b : Image) (width height : ℕ) → edge_count b width height ≤ side_count width height }
{}
