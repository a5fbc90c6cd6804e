//! What the definitions come to.
ghost use Rattle.std.specs.Prelude.{◌≡◌, ℕ, ◌≤◌, ◌≤ℤ◌, pos, false, List, All, count_by};
ghost use Rattle.pt_core.specs.ClosedWalk.{point_at, IsClosedWalk};
ghost use Rattle.pt_core.specs.declared.path.Path.{Path};
ghost use Rattle.pt_core.specs.declared.point.Point.{Point};
ghost use Rattle.pt_core.specs.declared.policy.Policy.{Policy};
ghost use Rattle.bit_image.specs.Image.{Fits};
ghost use Rattle.bit_image.specs.Page.{Page, IsPage, image_of};
ghost use Rattle.boundary_edges.specs.Bounds.{IsCornerOf};
ghost use Rattle.path_decompose.specs.Decomposition.{IsDecomposition};
ghost use Rattle.boundary_edges.specs.Inside.{lines_of, is_odd, inside, black_count};
ghost use Rattle.boundary_edges.specs.GridEdges.{is_in_row};
ghost use Rattle.path_decompose.specs.AllPaths.{IsEvenOdd, IsEdgesOnce};

/// A page has at most one decomposition under a policy.
pub fn decompositions_are_one()
    ensures { (page : Page) (policy : Policy) (paths others : List Path)
        → IsDecomposition page policy paths → IsDecomposition page policy others → paths ≡ others }
{}

/// A closed walk over the corners of a page has an even number of upright lines in each row.
pub fn rows_are_even()
    ensures { (width height : ℕ) (points : List Point) → IsClosedWalk points
        → All (IsCornerOf width height) points
        → (y : ℕ) → is_odd (count_by (is_in_row y) (lines_of points)) ≡ false }
{}

/// A page has a decomposition under each policy.
pub fn pages_have_decompositions()
    ensures { (page : Page) (policy : Policy) → IsPage page
        → (paths : List Path) × IsDecomposition page policy paths }
{}

/// The paths of a page are closed walks over its corners, each starts above row 0's lower sides, and
/// together they come to the page and use each of its edges once. A pixel inside a path is on the page; so
/// a path's area is the number of all pixels inside it, however far beyond the page they are counted.
pub fn decompositions_come_to_the_page()
    ensures closed { (page : Page) (policy : Policy) (paths : List Path) → IsPage page
        → IsDecomposition page policy paths → All (λ path. IsClosedWalk path.points) paths }
    ensures corners { (page : Page) (policy : Policy) (paths : List Path) → IsPage page
        → IsDecomposition page policy paths
        → All (λ path. All (IsCornerOf page.width page.height) path.points) paths }
    ensures starts { (page : Page) (policy : Policy) (paths : List Path) → IsPage page
        → IsDecomposition page policy paths
        → All (λ path. pos 1 ≤ℤ (point_at path.points 0).y) paths }
    ensures insides { (page : Page) (policy : Policy) (paths : List Path) → IsPage page
        → IsDecomposition page policy paths
        → All (λ path. Fits (inside path.points) page.width page.height) paths }
    ensures areas { (page : Page) (policy : Policy) (paths : List Path) (width height : ℕ) → IsPage page
        → IsDecomposition page policy paths → page.width ≤ width → page.height ≤ height
        → All (λ path. path.area ≡ black_count (inside path.points) width height) paths }
    ensures even_odd { (page : Page) (policy : Policy) (paths : List Path)
        → IsDecomposition page policy paths → IsEvenOdd (image_of page) paths }
    ensures edges_once { (page : Page) (policy : Policy) (paths : List Path)
        → IsDecomposition page policy paths → IsEdgesOnce (image_of page) paths }
{}
