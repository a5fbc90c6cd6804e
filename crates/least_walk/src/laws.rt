//! What follows from the definitions alone.
ghost use Rattle.std.specs.Prelude.{◌≡◌, ◌<◌, ◌≤◌, ◌⊎◌, List, ℕ, Contains};
ghost use Rattle.least_walk.specs.LeastWalk.{IsLeast, IsFewestStep, steps_of, Step};

use crate::steps::Steps;

/// There is at most one least walk.
pub fn one_walk_is_least<S: Steps>(steps: &S)
    ensures { (v w : List ℕ)
        → IsLeast (S.size_of steps.now) (S.is_allowed steps.now) (S.cost_of steps.now) v
        → IsLeast (S.size_of steps.now) (S.is_allowed steps.now) (S.cost_of steps.now) w
        → v ≡ w }
{}

/// Each step of the least walk is a fewest step.
pub fn least_walk_keeps_to_fewest_steps<S: Steps>(steps: &S)
    ensures { (walk : List ℕ) (step : Step)
        → IsLeast (S.size_of steps.now) (S.is_allowed steps.now) (S.cost_of steps.now) walk
        → Contains (steps_of walk) step
        → IsFewestStep (S.size_of steps.now) (S.is_allowed steps.now) step.from step.to }
{}

/// Where each step is allowed or not, there is a least walk.
pub fn some_walk_is_least<S: Steps>(steps: &S)
    ensures { ((i j : ℕ) → i < j → j ≤ S.size_of steps.now
        → S.is_allowed steps.now i j ⊎ ¬ S.is_allowed steps.now i j)
        → (walk : List ℕ)
        × IsLeast (S.size_of steps.now) (S.is_allowed steps.now) (S.cost_of steps.now) walk }
{}
