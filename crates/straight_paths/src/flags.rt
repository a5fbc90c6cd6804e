//! Which of the four directions were taken.
ghost use Rattle.std.specs.Prelude.{◌≡◌, ◌≢◌, ◌↔◌, ◌<◌, ◌+◌, ℕ, true, IsTrue};
ghost use Rattle.pt_core.specs.declared.point.Point.{Point};
ghost use Rattle.path_cones.specs.Inner.Codes.{coded_step};
ghost use Rattle.path_cones.specs.Corners.{step_from};
ghost use Rattle.path_cones.specs.Straight.{TakesAllFour};
ghost use Rattle.straight_paths.specs.Inner.NextSteps.{AreTaken};

/// Which of the four directions were taken.
#[derive(Clone, Copy)]
pub(crate) struct Flags {
    pub east: bool,
    pub north: bool,
    pub west: bool,
    pub south: bool,
}

impl Flags {
    /// None of them.
    pub(crate) fn none() -> Flags
        ensures { (path : ℕ → Point) → AreTaken path 0 result }
    {
        Flags {
            east: false,
            north: false,
            west: false,
            south: false,
        }
    }

    /// Which directions were taken once a step more is.
    pub(crate) fn with(self, digit: u32) -> Flags
        requires { digit < 4 }
        ensures { (path : ℕ → Point) (count : ℕ) → step_from path count ≡ coded_step digit
            → AreTaken path count self → AreTaken path (count + 1) result }
    {
        Flags {
            east: taken(self.east, digit, 0),
            north: taken(self.north, digit, 1),
            west: taken(self.west, digit, 2),
            south: taken(self.south, digit, 3),
        }
    }

    /// Whether all were taken.
    pub(crate) fn all(self) -> bool
        ensures { (path : ℕ → Point) (count : ℕ) → AreTaken path count self
            → IsTrue result ↔ TakesAllFour path count }
    {
        if !self.east {
            return false;
        }
        if !self.north {
            return false;
        }
        if !self.west {
            return false;
        }
        self.south
    }
}

/// Whether a direction was taken before, or a step goes into it.
fn taken(before: bool, digit: u32, direction: u32) -> bool
    ensures same { digit ≡ direction → result ≡ true }
    ensures other { digit ≢ direction → result ≡ before }
{
    if digit == direction { true } else { before }
}
