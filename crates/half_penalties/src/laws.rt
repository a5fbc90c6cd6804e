//! What follows from the definitions alone.
ghost use Rattle.std.specs.Prelude.{ℕ, ◌+◌, ◌<◌, ◌≤◌, ℤ, List};
ghost use Rattle.pt_core.specs.declared.point.Point.{Point};
ghost use Rattle.prefix_moments.specs.Sums.{IsPenalty};
ghost use Rattle.half_penalties.specs.Inner.HalfPenalties.{GoesOneWay, IsBoundBefore, IsBoundBehind};

/// The bounds of the two halves of a segment whose path goes one way are together at most its penalty.
pub fn halves_add_up()
    ensures { (points : List Point) (slant : ℤ) (i middle j a b penalty : ℕ) → i ≤ middle → middle < j
        → GoesOneWay points slant i j → IsBoundBefore points slant middle i a → IsBoundBehind points slant middle j b
        → IsPenalty points i j penalty → a + b ≤ penalty }
{}
