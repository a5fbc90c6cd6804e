//! Laws about boundary edges, on which the walk along a boundary rests.
ghost use Rattle.std.specs.Prelude.{◌≡◌, ◌≢◌, ◌≤◌, ℕ};
ghost use Rattle.pt_core.specs.declared.path.Sign.{Sign};
ghost use Rattle.pt_core.specs.declared.policy.Policy.{Policy};
ghost use Rattle.bit_image.specs.Image.{Image, Fits};
ghost use Rattle.turn_policies.specs.Boundary.{IsBoundary};
ghost use Rattle.turn_policies.specs.Heading.{opposite_of};
ghost use Rattle.turn_policies.specs.Turn.{next};
ghost use Rattle.turn_policies.specs.declared.edge.Edge.{Edge};

/// The edge that follows a boundary edge is a boundary edge too, and it doesn't go back.
pub fn edges_lead_on()
    ensures boundary { (b : Image) (policy : Policy) (sign : Sign) (e : Edge)
        → IsBoundary b e → IsBoundary b (next b policy sign e) }
    ensures onwards { (b : Image) (policy : Policy) (sign : Sign) (e : Edge)
        → (next b policy sign e).heading ≢ opposite_of e.heading }
{}

/// Each boundary edge follows exactly one boundary edge.
pub fn edges_are_matched()
    ensures some { (b : Image) (policy : Policy) (sign : Sign) (e : Edge)
        → IsBoundary b e → (d : Edge) × IsBoundary b d × (next b policy sign d ≡ e) }
    ensures one { (b : Image) (policy : Policy) (sign : Sign) (d e : Edge)
        → IsBoundary b d → IsBoundary b e → next b policy sign d ≡ next b policy sign e → d ≡ e }
{}

/// A boundary edge of a page starts on the page.
pub fn edges_lie_on_the_page()
    ensures column { (b : Image) (width height : ℕ) (e : Edge)
        → Fits b width height → IsBoundary b e → e.x ≤ width }
    ensures row { (b : Image) (width height : ℕ) (e : Edge)
        → Fits b width height → IsBoundary b e → e.y ≤ height }
{}
