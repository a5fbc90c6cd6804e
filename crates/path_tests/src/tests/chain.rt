//! Only steps to the next index.
ghost use Rattle.std.specs.Prelude.{◌≡◌, ◌+◌, ◌^◌, ◌<◌, ◌≤◌, min, ◌-◌};

use least_walk::Steps;

/// A graph in which only steps to the next index are allowed, although windows reach farther.
#[derive(Drop)]
pub(super) struct Chain {
    size: u32,
    ghost some: { 1 ≤ size },
    ghost few: { size ≤ 2 ^ 31 },
}

impl Chain {
    /// The cost of each step.
    const COST: u64 = (1 << 56) - 1;

    pub(super) fn new(size: u32) -> Chain
        requires some { 1 ≤ size }
        requires few { size ≤ 2 ^ 31 }
    {
        Chain { size }
    }
}

impl Steps for Chain {
    ghost use Rattle.std.proofs.Common.{arith, refl};

    ghost size_of = { λ c. c.size };

    ghost last_of = { λ c i. min (i + 3) c.size };

    ghost is_allowed = { λ c i j. j ≡ i + 1 };

    ghost cost_of = { λ c i j. 2 ^ 56 - 1 };

    fn size(&self) -> u32 {
        self.size
    }

    fn last(&self, from: u32) -> u32 {
        (from + 3).min(self.size)
    }

    fn allowed(&self, from: u32, to: u32) -> bool {
        to == from + 1
    }

    fn cost(&self, _from: u32, _to: u32) -> u64 {
        Chain::COST
    }

    ghost least_size = { λ c. c.some };

    ghost greatest_size = { λ c. c.few };

    ghost last_is_beyond = { λ c i below. Prim.omega arith };

    ghost last_is_within = { λ c i below. Prim.omega arith };

    ghost next_is_allowed = { λ c i below. refl };

    ghost allowed_goes_up = { λ c i j below allowed. Prim.omega arith };

    ghost allowed_ends_at_last = { λ c i j below allowed. Prim.omega arith };

    ghost greatest_cost = { λ c i j below allowed. Prim.omega arith };
}
