//! What follows from the definitions alone.
ghost use Rattle.std.specs.Prelude.{◌≡◌, ℕ, ◌<◌, ◌≤◌, ◌^◌, List, All, length};
ghost use Rattle.std.specs.List.{AllZip};
ghost use Rattle.pt_core.specs.ClosedWalk.{IsClosedWalk};
ghost use Rattle.pt_core.specs.declared.limits.TheConstants.{LONGEST_SIDE};
ghost use Rattle.pt_core.specs.declared.point.Point.{Point};
ghost use Rattle.pt_core.specs.declared.trace.Trace.{Trace};
ghost use Rattle.polygon_search.specs.Polygon.{IsBestPolygon, total_penalty};
ghost use Rattle.outline_check.specs.declared.label.Label.{Label};
ghost use Rattle.outline_check.specs.Certificate.{AreRightLabels, IsCertificate};
ghost use Rattle.outline_check.specs.Labels.{label_at};
ghost use Rattle.outline_check.specs.Printed.{IsPrinted};
ghost use Rattle.outline_check.specs.ProofsText.{Certified};
ghost use Rattle.list_reader.specs.PagePoints.{IsInPage};
ghost use Rattle.outline_check.specs.Texts.{IsProofs};
ghost use Rattle.outline_check.specs.Verdicts.{IsVerdict};
ghost use Rattle.outline_check.specs.declared.verdict.Verdict.{Verdict};
ghost use Rattle.outline_check.specs.declared.verdict.Verdict.TheVariants.{Right};

/// The polygon of a certificate is the best one, and the first label tells its segments and their
/// penalties together.
pub fn certified_polygons_are_best()
    ensures best { (points : List Point) (at : List ℕ) (labels : List Label)
        → IsCertificate points at labels → IsBestPolygon points at }
    ensures count { (points : List Point) (at : List ℕ) (labels : List Label)
        → IsCertificate points at labels → length at ≡ (label_at labels 0).count }
    ensures cost { (points : List Point) (at : List ℕ) (labels : List Label)
        → IsCertificate points at labels → total_penalty points at ≡ (label_at labels 0).cost }
{}

/// A path has at most one list of right labels.
pub fn right_labels_are_one()
    ensures { (points : List Point) (labels other : List Label)
        → AreRightLabels points labels → AreRightLabels points other → labels ≡ other }
{}

/// And at most one certificate.
pub fn certificates_are_one()
    ensures { (points : List Point) (at same : List ℕ) (labels other : List Label)
        → IsCertificate points at labels → IsCertificate points same other
        → (at ≡ same) × (labels ≡ other) }
{}

/// A closed walk has right labels, and its best polygon has a certificate.
pub fn best_polygons_have_certificates()
    ensures labels { (points : List Point) → IsClosedWalk points
        → (labels : List Label) × AreRightLabels points labels }
    ensures polygon { (points : List Point) (at : List ℕ) (labels : List Label)
        → IsClosedWalk points → AreRightLabels points labels → IsBestPolygon points at
        → IsCertificate points at labels }
{}

/// A text is the certificates' text of one page at most.
pub fn texts_have_one_reading()
    ensures { (text : List ℕ) (width height other_width other_height : ℕ) (paths others : List Certified)
        → IsProofs text width height paths → IsProofs text other_width other_height others
        → (width ≡ other_width) × (height ≡ other_height) × (paths ≡ others) }
{}

/// Where the checker finds all right, each polygon of the text is the best one of its path.
pub fn right_texts_have_best_polygons()
    ensures { (text : List ℕ) (n width height : ℕ) (paths : List Certified)
        → IsVerdict text (Right n) → IsProofs text width height paths
        → All (λ c. IsBestPolygon c.points c.at) paths }
{}

/// A text has one verdict at most.
pub fn verdicts_are_one()
    ensures { (text : List ℕ) (verdict other : Verdict)
        → IsVerdict text verdict → IsVerdict text other → verdict ≡ other }
{}

/// A trace has one text of certificates at most.
pub fn texts_of_certificates_are_one()
    ensures { (trace : Trace) (text other : List ℕ)
        → IsPrinted trace text → IsPrinted trace other → text ≡ other }
{}

/// And it has one, where its paths are closed walks and each has a polygon.
pub fn closed_walks_have_texts_of_certificates()
    ensures { (trace : Trace) → length trace.polygons ≡ length trace.paths
        → All (λ path. IsClosedWalk path.points) trace.paths
        → (text : List ℕ) × IsPrinted trace text }
{}

/// What is written of a page's best polygons the checker finds right.
pub fn texts_of_best_polygons_are_right()
    ensures { (trace : Trace) (text : List ℕ) → 1 ≤ trace.width → trace.width ≤ LONGEST_SIDE
        → 1 ≤ trace.height → trace.height ≤ LONGEST_SIDE → length trace.paths < 2 ^ 32
        → All (λ path. IsClosedWalk path.points) trace.paths
        → All (λ path. All (IsInPage trace.width trace.height) path.points) trace.paths
        → AllZip (λ path polygon. IsBestPolygon path.points polygon.at) trace.paths trace.polygons
        → IsPrinted trace text → IsVerdict text (Right (length trace.paths)) }
{}
