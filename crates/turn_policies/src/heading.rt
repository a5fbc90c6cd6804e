//! The four directions along the grid.
ghost use Rattle.std.specs.Prelude.{◌≡◌};

/// A direction along the edges of pixels. North is up, towards greater rows.
#[derive(Clone, Copy, Debug, PartialEq, Eq)]
pub enum Dir {
    North,
    East,
    South,
    West,
}

impl Dir {
    ghost use Rattle.turn_policies.specs.Heading.{left_of, right_of, opposite_of};

    pub fn left(self) -> Dir
        ensures { result ≡ left_of self }
    {
        match self {
            Dir::North => Dir::West,
            Dir::East => Dir::North,
            Dir::South => Dir::East,
            Dir::West => Dir::South,
        }
    }

    pub fn right(self) -> Dir
        ensures { result ≡ right_of self }
    {
        match self {
            Dir::North => Dir::East,
            Dir::East => Dir::South,
            Dir::South => Dir::West,
            Dir::West => Dir::North,
        }
    }
}
