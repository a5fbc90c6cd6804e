//! A table of steps.
ghost use Rattle.std.specs.Prelude.{◌≡◌, ◌+◌, ◌-◌, ◌^◌, ◌<◌, ◌≤◌, ◌⊎◌, ◌==◌, ◌&&◌};
ghost use Rattle.std.specs.Prelude.{find, IsSome, unwrap_or, min, option_map};

use least_walk::Steps;

/// A step's start and end, and its cost.
pub(super) type Listed = (u32, u32, u64);

/// The steps to the next index, which cost nothing if they aren't listed, and all listed steps.
#[derive(Drop)]
pub(super) struct Table<'a> {
    size: u32,
    listed: &'a [Listed],
    ghost some: { 1 ≤ size },
    ghost few: { size ≤ 2 ^ 31 },
}

impl<'a> Table<'a> {
    const GREATEST: u64 = (1 << 56) - 1;

    pub(super) fn new(size: u32, listed: &'a [Listed]) -> Table<'a>
        requires some { 1 ≤ size }
        requires few { size ≤ 2 ^ 31 }
    {
        Table { size, listed }
    }

    fn listed_cost(&self, from: u32, to: u32) -> Option<u64>
        ensures { result ≡ option_map (λ step. step.2)
            (find (λ step. (step.0 == from) && (step.1 == to)) self.now.listed.now) }
    {
        self.listed
            .iter()
            .find(|step| step.0 == from && step.1 == to)
            .map(|step| step.2)
    }
}

impl Steps for Table<'_> {
    ghost use Rattle.std.proofs.Common.{arith, refl, inl};

    ghost size_of = { λ t. t.size };

    ghost last_of = { λ t i. t.size };

    ghost is_allowed = { λ t i j. (i < j) × (j ≤ t.size)
        × ((j ≡ i + 1) ⊎ IsSome (find (λ step. (step.0 == i) && (step.1 == j)) t.listed.now)) };

    ghost cost_of = { λ t i j. min (2 ^ 56 - 1) (unwrap_or (option_map (λ step. step.2)
        (find (λ step. (step.0 == i) && (step.1 == j)) t.listed.now)) 0) };

    fn size(&self) -> u32 {
        self.size
    }

    fn last(&self, _from: u32) -> u32 {
        self.size
    }

    fn allowed(&self, from: u32, to: u32) -> bool {
        to == from + 1 || self.listed_cost(from, to).is_some()
    }

    fn cost(&self, from: u32, to: u32) -> u64 {
        Table::GREATEST.min(self.listed_cost(from, to).unwrap_or(0))
    }

    ghost least_size = { λ t. t.some };

    ghost greatest_size = { λ t. t.few };

    ghost last_is_beyond = { λ t i below. below };

    ghost last_is_within = { λ t i below. Prim.omega arith };

    ghost next_is_allowed = { λ t i below. (Prim.omega arith, Prim.omega arith, inl refl) };

    ghost allowed_goes_up = { λ t i j below allowed. allowed.0 };

    ghost allowed_ends_at_last = { λ t i j below allowed. allowed.1 };

    ghost greatest_cost = { λ t i j below allowed. Prim.omega arith };
}
