//! Words: how a path takes its next few steps.
ghost use Rattle.std.specs.Prelude.{◌≡◌, ◌↔◌, ◌+◌, ◌*◌, ◌<◌, ◌≤◌, ℕ, suc};
ghost use Rattle.pt_core.specs.declared.point.Point.{Point};
ghost use Rattle.path_cones.specs.Inner.Codes.{GoesByOne, IsCoded, coded_step};
ghost use Rattle.path_cones.specs.Corners.{step_from};
ghost use Rattle.path_cones.specs.Inner.Tails.{last_of, limit_of};
ghost use Rattle.path_cones.specs.Straight.{path_from};

use path_cones::{Track, Vector};

/// The most steps of a word that is kept.
pub(crate) const LONGEST: u32 = 19;

/// How a path takes its next few steps: two bits for the direction of each, those of the nearest step lowest.
#[derive(Clone, Copy)]
pub(crate) struct Word {
    pub digits: u64,
    /// The number of steps.
    pub count: u32,
}

impl Word {
    /// The word with a step in front.
    pub(crate) fn with(self, digit: u32) -> Word
        requires digit { digit < 4 }
        requires few { self.count ≤ 19 }
        ensures count { result.count ≡ self.count + 1 }
        ensures coded { (path : ℕ → Point) → IsCoded (suc self.count) path result.digits
            ↔ ((step_from path 0 ≡ coded_step digit) × IsCoded self.count (λ k. path (suc k)) self.digits) }
    {
        Word {
            digits: u64::from(digit) + 4 * (self.digits % (1 << 38)),
            count: self.count + 1,
        }
    }
}

/// The number of a step's direction.
pub(crate) fn direction(step: Vector) -> u32
    requires { GoesByOne step }
    ensures small { result < 4 }
    ensures value { step ≡ coded_step result }
{
    if step.x == 0 {
        (2 - step.y) as u32
    } else {
        (1 - step.x) as u32
    }
}

/// The word of so many steps from an index of two laps on.
pub(crate) fn word_at(track: &Track, index: usize, count: u32) -> Word
    requires index { index ≤ last_of track.now }
    requires few { count ≤ 19 }
    requires within { count ≤ limit_of track.now }
    ensures count { result.count ≡ count }
    ensures coded { IsCoded count (path_from track.now index) result.digits }
{
    let place = track.place(index);
    let mut word = Word {
        digits: 0,
        count: 0,
    };
    for steps in (0..count as usize).rev() {
        word = word.with(direction(track.step(place + steps)));
    }
    word
}
